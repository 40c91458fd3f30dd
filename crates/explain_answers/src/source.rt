//! A text with its tokens and the name of its file.
ghost use Rattle.std.specs.Prelude.{◌≡◌, ◌-◌, take, drop, slice_get};
ghost use Rattle.std.specs.Option.{option_map};
ghost use Rattle.explain_answers.specs.Sources.{end_before, start_of, word_of};

use crate::place::parted;
use trio_text::{Reserved, Symbol, Token, TokenKind};

/// A text, the name of its file, and its tokens; none where a byte of it begins no token.
#[derive(Clone, Copy)]
pub struct Source<'a> {
    pub file: &'a str,
    pub text: &'a [u8],
    pub tokens: &'a [Token],
}

/// What a name was declared as.
#[derive(Clone, Copy, PartialEq, Eq)]
pub enum Class {
    Domain,
    Word,
    Item,
    Axiom,
    Goal,
}

/// The token that declares a name, and what it declares it as.
#[derive(Clone, Copy)]
pub struct Declared {
    pub token: usize,
    pub class: Class,
}

impl<'a> Source<'a> {
    /// The kind of the token of this number.
    pub fn kind(self, token: usize) -> Option<TokenKind>
        ensures { result ≡ option_map (λ found. found.kind) (slice_get self.entry.tokens.now token) }
    {
        match self.tokens.get(token) {
            Some(found) => Some(found.kind),
            None => None,
        }
    }

    /// The kind of the token that stands so many before another.
    pub fn kind_before(self, token: usize, distance: usize) -> Option<TokenKind> {
        if distance <= token {
            self.kind(token - distance)
        } else {
            None
        }
    }

    /// Whether the token of this number is this symbol.
    pub fn is_sign(self, token: usize, sign: Symbol) -> bool {
        self.kind(token) == Some(TokenKind::Sign(sign))
    }

    /// How the token of this number is spelled; empty where there is none.
    pub fn word(self, token: usize) -> &'a [u8]
        ensures { result.now ≡ word_of self.entry.text.now (slice_get self.entry.tokens.now token) }
    {
        match self.tokens.get(token) {
            Some(found) => spelled(self.text, found.start as usize, found.end as usize),
            None => b"",
        }
    }

    /// The byte at which a token starts; where there is no such token, the byte behind the last one.
    pub fn start(self, token: usize) -> usize
        ensures { result ≡ start_of self.entry.tokens.now token }
    {
        match self.tokens.get(token) {
            Some(found) => found.start as usize,
            None => self.end_before(self.tokens.len()),
        }
    }

    /// The byte behind the token that stands before this one; 0 where none does.
    pub fn end_before(self, token: usize) -> usize
        ensures { result ≡ end_before self.entry.tokens.now token }
    {
        if token == 0 {
            return 0;
        }
        match self.tokens.get(token - 1) {
            Some(found) => found.end as usize,
            None => 0,
        }
    }

    /// The line of the token of this number, from 1; 0 where there is none.
    pub fn line_of(self, token: usize) -> u64 {
        match self.tokens.get(token) {
            Some(found) => found.line,
            None => 0,
        }
    }

    /// How the value that begins at this token is spelled.
    pub fn value_word(self, token: usize) -> &'a [u8] {
        if self.is_sign(token, Symbol::Minus) {
            self.spelled_up_to(token, token.saturating_add(1))
        } else {
            self.word(token)
        }
    }

    /// The text from the one token to the end of the other.
    fn spelled_up_to(self, first: usize, last: usize) -> &'a [u8] {
        spelled(
            self.text,
            self.start(first),
            self.end_before(last.saturating_add(1)),
        )
    }

    /// The declaration of a name as a domain, word, item, axiom or goal, at the first token that is one.
    pub fn declared(self, name: &[u8]) -> Option<Declared> {
        let mut in_braces = false;
        for token in 0..self.tokens.len() {
            in_braces = self.braces_open(token, in_braces);
            if let Some(class) = self.class_at(token, in_braces)
                && self.word(token) == name
            {
                return Some(Declared { token, class });
            }
        }
        None
    }

    /// Whether braces are open behind this token, where they are or are not before it.
    fn braces_open(self, token: usize, open: bool) -> bool {
        self.is_sign(token, Symbol::LeftBrace) || open && !self.is_sign(token, Symbol::RightBrace)
    }

    /// What this token declares a name as, where it does.
    fn class_at(self, token: usize, in_braces: bool) -> Option<Class> {
        if self.kind(token) != Some(TokenKind::Name) {
            return None;
        }
        match self.kind_before(token, 1) {
            Some(TokenKind::Word(Reserved::Domain)) => Some(Class::Domain),
            Some(TokenKind::Word(Reserved::Item | Reserved::Input)) => Some(Class::Item),
            Some(TokenKind::Word(Reserved::Axiom)) => Some(Class::Axiom),
            Some(TokenKind::Word(Reserved::Goal)) => Some(Class::Goal),
            _ if in_braces => Some(Class::Word),
            _ => None,
        }
    }

    /// The last quantifier's variable of this name before a token. Where the token stands in its body, it is the innermost.
    pub fn variable_before(self, token: usize, name: &[u8]) -> Option<usize> {
        for place in (0..token).rev() {
            if self.is_variable(place) && self.word(place) == name {
                return Some(place);
            }
        }
        None
    }

    /// Whether this token is the variable of a quantifier.
    pub fn is_variable(self, token: usize) -> bool {
        matches!(
            self.kind_before(token, 1),
            Some(TokenKind::Word(Reserved::All | Reserved::Ex))
        )
    }

    /// The token that ends the bracket which this token opens, or the number of tokens.
    pub fn closing(self, opening: usize) -> usize {
        let mut depth: usize = 0;
        for token in opening..self.tokens.len() {
            match self.kind(token) {
                Some(TokenKind::Sign(Symbol::LeftRound | Symbol::LeftSquare)) => {
                    depth = depth.saturating_add(1)
                }
                Some(TokenKind::Sign(Symbol::RightRound | Symbol::RightSquare)) => {
                    depth = depth.saturating_sub(1)
                }
                _ => {}
            }
            if depth == 0 {
                return token;
            }
        }
        self.tokens.len()
    }
}

/// The text from the one byte up to the other; empty where there is none.
fn spelled(text: &[u8], start: usize, end: usize) -> &[u8]
    ensures { result.now ≡ take (end - start) (drop start text.now) }
{
    parted(parted(text, start).1, end.saturating_sub(start)).0
}
