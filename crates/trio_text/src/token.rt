//! Tokens: what they are, how words and symbols are spelled, and why a text is no list of tokens.

ghost use Rattle.std.specs.Prelude.{◌≡◌};

use thiserror::Error;
use trio_base::List;

/// A word that is no name.
#[derive(Clone, Copy, Debug, PartialEq, Eq)]
pub enum Reserved {
    Time,
    Domain,
    Item,
    Input,
    Fixed,
    Axiom,
    Goal,
    At,
    All,
    Ex,
    Bool,
    True,
    False,
    Dist,
    Futr,
    Past,
    Alw,
    AlwF,
    AlwP,
    Som,
    SomF,
    SomP,
    Until,
    Since,
    NextTime,
    LastTime,
    Lasts,
    LastsIi,
    LastsIe,
    LastsEi,
    Lasted,
    LastedIi,
    LastedIe,
    LastedEi,
    WithinF,
    WithinFIi,
    WithinFIe,
    WithinFEi,
    WithinP,
    WithinPIi,
    WithinPIe,
    WithinPEi,
}

impl Reserved {
    ghost use Rattle.trio_text.specs.Spelling.{word_text};

    /// How the word is spelled.
    pub fn text(self) -> &'static str
        ensures { result.now ≡ word_text self }
    {
        match self {
            Reserved::Time => "time",
            Reserved::Domain => "domain",
            Reserved::Item => "item",
            Reserved::Input => "input",
            Reserved::Fixed => "fixed",
            Reserved::Axiom => "axiom",
            Reserved::Goal => "goal",
            Reserved::At => "at",
            Reserved::All => "all",
            Reserved::Ex => "ex",
            Reserved::Bool => "bool",
            Reserved::True => "true",
            Reserved::False => "false",
            Reserved::Dist => "Dist",
            Reserved::Futr => "Futr",
            Reserved::Past => "Past",
            Reserved::Alw => "Alw",
            Reserved::AlwF => "AlwF",
            Reserved::AlwP => "AlwP",
            Reserved::Som => "Som",
            Reserved::SomF => "SomF",
            Reserved::SomP => "SomP",
            Reserved::Until => "Until",
            Reserved::Since => "Since",
            Reserved::NextTime => "NextTime",
            Reserved::LastTime => "LastTime",
            Reserved::Lasts => "Lasts",
            Reserved::LastsIi => "Lasts_ii",
            Reserved::LastsIe => "Lasts_ie",
            Reserved::LastsEi => "Lasts_ei",
            Reserved::Lasted => "Lasted",
            Reserved::LastedIi => "Lasted_ii",
            Reserved::LastedIe => "Lasted_ie",
            Reserved::LastedEi => "Lasted_ei",
            Reserved::WithinF => "WithinF",
            Reserved::WithinFIi => "WithinF_ii",
            Reserved::WithinFIe => "WithinF_ie",
            Reserved::WithinFEi => "WithinF_ei",
            Reserved::WithinP => "WithinP",
            Reserved::WithinPIi => "WithinP_ii",
            Reserved::WithinPIe => "WithinP_ie",
            Reserved::WithinPEi => "WithinP_ei",
        }
    }
}

/// A sign of one to three bytes.
#[derive(Clone, Copy, Debug, PartialEq, Eq)]
pub enum Symbol {
    Semi,
    Colon,
    Comma,
    LeftRound,
    RightRound,
    LeftSquare,
    RightSquare,
    LeftBrace,
    RightBrace,
    Eq,
    Ne,
    Lt,
    Le,
    Gt,
    Ge,
    Arrow,
    Both,
    And,
    Or,
    Not,
    Plus,
    Minus,
    Times,
    Span,
    Unknown,
}

impl Symbol {
    ghost use Rattle.trio_text.specs.Spelling.{symbol_text};

    /// How the symbol is spelled.
    pub fn text(self) -> &'static str
        ensures { result.now ≡ symbol_text self }
    {
        match self {
            Symbol::Semi => ";",
            Symbol::Colon => ":",
            Symbol::Comma => ",",
            Symbol::LeftRound => "(",
            Symbol::RightRound => ")",
            Symbol::LeftSquare => "[",
            Symbol::RightSquare => "]",
            Symbol::LeftBrace => "{",
            Symbol::RightBrace => "}",
            Symbol::Eq => "=",
            Symbol::Ne => "!=",
            Symbol::Lt => "<",
            Symbol::Le => "<=",
            Symbol::Gt => ">",
            Symbol::Ge => ">=",
            Symbol::Arrow => "->",
            Symbol::Both => "<->",
            Symbol::And => "&",
            Symbol::Or => "|",
            Symbol::Not => "!",
            Symbol::Plus => "+",
            Symbol::Minus => "-",
            Symbol::Times => "*",
            Symbol::Span => "..",
            Symbol::Unknown => "?",
        }
    }
}

/// What a token is, apart from its place.
#[derive(Clone, Copy, Debug, PartialEq, Eq)]
pub enum TokenKind {
    Name,
    Number,
    Word(Reserved),
    Sign(Symbol),
}

/// A token: its text is the source's bytes from `start` to `end`, counted from 0; `line` counts from 1.
#[derive(Clone, Copy)]
pub struct Token {
    pub kind: TokenKind,
    pub start: u64,
    pub end: u64,
    pub line: u64,
}

/// Tokens in the order of their text.
pub type TokenList = List<Token>;

/// Why a text is no list of tokens.
#[derive(Clone, Copy, Debug, Error)]
pub enum LexFault {
    /// The first byte, counted from 0, that is outside blanks and comments and begins no token.
    #[error("byte {0} begins no token")]
    Byte(u64),
    /// Want of memory.
    #[error("out of memory")]
    Memory,
}
