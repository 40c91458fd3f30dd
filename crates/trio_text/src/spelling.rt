//! How names, numbers, reserved words and symbols are spelled.

ghost use Rattle.std.specs.Prelude.{◌≡◌, ◌==◌, not, length, take_while};
ghost use Rattle.trio_text.specs.Spelling.{is_letter, is_digit, is_name_byte, is_blank};
ghost use Rattle.trio_text.specs.Reading.{reserved_of, symbol_of};

use crate::token::{Reserved, Symbol};

/// Every reserved word.
pub const RESERVED: [Reserved; 42] = [
    Reserved::Time,
    Reserved::Domain,
    Reserved::Item,
    Reserved::Input,
    Reserved::Fixed,
    Reserved::Axiom,
    Reserved::Goal,
    Reserved::At,
    Reserved::All,
    Reserved::Ex,
    Reserved::Bool,
    Reserved::True,
    Reserved::False,
    Reserved::Dist,
    Reserved::Futr,
    Reserved::Past,
    Reserved::Alw,
    Reserved::AlwF,
    Reserved::AlwP,
    Reserved::Som,
    Reserved::SomF,
    Reserved::SomP,
    Reserved::Until,
    Reserved::Since,
    Reserved::NextTime,
    Reserved::LastTime,
    Reserved::Lasts,
    Reserved::LastsIi,
    Reserved::LastsIe,
    Reserved::LastsEi,
    Reserved::Lasted,
    Reserved::LastedIi,
    Reserved::LastedIe,
    Reserved::LastedEi,
    Reserved::WithinF,
    Reserved::WithinFIi,
    Reserved::WithinFIe,
    Reserved::WithinFEi,
    Reserved::WithinP,
    Reserved::WithinPIi,
    Reserved::WithinPIe,
    Reserved::WithinPEi,
];

/// Every symbol, the longer spellings first.
pub const SYMBOLS: [Symbol; 25] = [
    Symbol::Both,
    Symbol::Ne,
    Symbol::Le,
    Symbol::Ge,
    Symbol::Arrow,
    Symbol::Span,
    Symbol::Semi,
    Symbol::Colon,
    Symbol::Comma,
    Symbol::LeftRound,
    Symbol::RightRound,
    Symbol::LeftSquare,
    Symbol::RightSquare,
    Symbol::LeftBrace,
    Symbol::RightBrace,
    Symbol::Eq,
    Symbol::Lt,
    Symbol::Gt,
    Symbol::And,
    Symbol::Or,
    Symbol::Not,
    Symbol::Plus,
    Symbol::Minus,
    Symbol::Times,
    Symbol::Unknown,
];

/// Whether a byte is an ASCII letter.
pub fn is_letter(byte: u8) -> bool
    ensures { result ≡ is_letter byte }
{
    byte.is_ascii_alphabetic()
}

/// Whether a byte is an ASCII digit.
pub fn is_digit(byte: u8) -> bool
    ensures { result ≡ is_digit byte }
{
    byte.is_ascii_digit()
}

/// Whether a byte may go on with a name.
pub fn is_name_byte(byte: u8) -> bool
    ensures { result ≡ is_name_byte byte }
{
    is_letter(byte) || is_digit(byte) || byte == b'_'
}

/// Whether a byte is a space, a tab, a CR or an LF.
pub fn is_blank(byte: u8) -> bool
    ensures { result ≡ is_blank byte }
{
    matches!(byte, b' ' | b'\t' | b'\r' | b'\n')
}

/// How many bytes at the front may go on with a name.
pub fn name_length(text: &[u8]) -> usize
    ensures { result ≡ length (take_while is_name_byte text.now) }
{
    text.iter().take_while(|byte| is_name_byte(**byte)).count()
}

/// How many bytes at the front are digits.
pub fn number_length(text: &[u8]) -> usize
    ensures { result ≡ length (take_while is_digit text.now) }
{
    text.iter().take_while(|byte| is_digit(**byte)).count()
}

/// How many bytes stand before the first LF, or in all.
pub fn line_length(text: &[u8]) -> usize
    ensures { result ≡ length (take_while (λ b. not (b == 10)) text.now) }
{
    text.iter().take_while(|byte| **byte != b'\n').count()
}

/// The reserved word that is spelled so.
pub fn reserved(word: &[u8]) -> Option<Reserved>
    ensures { result ≡ reserved_of word.now }
{
    RESERVED
        .iter()
        .copied()
        .find(|found| word == found.text().as_bytes())
}

/// The longest symbol at the front.
pub fn symbol(text: &[u8]) -> Option<Symbol>
    ensures { result ≡ symbol_of text.now }
{
    SYMBOLS
        .iter()
        .copied()
        .find(|found| text.starts_with(found.text().as_bytes()))
}
