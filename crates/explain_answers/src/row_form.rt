//! The parts of a history's line: its tokens, its row and its values.
ghost use Rattle.std.specs.Prelude.{◌≡◌, ◌≤◌, ◌<◌, length, take_while, nat_lt, nat_le, slice_get};
ghost use Rattle.explain_answers.specs.Sources.{is_of};
ghost use Rattle.explain_answers.specs.RowForm.{line_at, is_colon, colon_of, begins_value, value_of};

use crate::source::Source;
use trio_text::{Reserved, Symbol, Token, TokenKind};

/// The tokens of a line: the first, and the one behind the last.
#[derive(Clone, Copy)]
pub struct Line {
    pub first: usize,
    pub end: usize,
}

/// What may stand next in a line.
#[derive(Clone, Copy, PartialEq, Eq)]
enum Next {
    /// The item's name.
    Item,
    /// `(` or `:`.
    Opening,
    /// An argument.
    Argument,
    /// The number of an argument behind `-`.
    ArgumentNumber,
    /// `,` or `)`.
    Separator,
    /// `:`.
    Colon,
    /// A value, or the end of the line.
    Value,
    /// The number of a value behind `-`.
    ValueNumber,
    /// Nothing: no row goes on like that.
    Fault,
}

impl Source<'_> {
    /// The tokens of the line of this number, from 1.
    pub fn line(self, number: u64) -> Line
        ensures is { result ≡ line_at self.entry.tokens.now number }
        ensures ordered { result.first ≤ result.end }
        ensures end { result.end ≤ length self.entry.tokens.now }
    {
        Line {
            first: before_line(self.tokens, number),
            end: through_line(self.tokens, number),
        }
    }

    /// The first token with which the line is no row any more, or the one behind its last.
    pub fn out_of_form(self, line: Line) -> usize
        requires { line.first ≤ line.end }
        ensures from { line.first ≤ result }
        ensures within { result ≤ line.end }
    {
        let mut next = Next::Item;
        for token in line.first..line.end {
            next = self.after(next, token);
            if next == Next::Fault {
                return token;
            }
        }
        line.end
    }

    /// What may stand behind this token, where this may stand at it.
    fn after(self, next: Next, token: usize) -> Next {
        match self.kind(token) {
            Some(TokenKind::Sign(sign)) => after_sign(next, sign),
            Some(kind) => after_word(next, kind),
            None => Next::Fault,
        }
    }

    /// The `:` of a line, or the token behind its last.
    #[tactic(auto, using(crate::proofs::Scanned::colon_step, crate::proofs::Scanned::colon_end))]
    pub fn colon(self, line: Line) -> usize
        ensures is { result ≡ colon_of self.entry.tokens.now line }
        ensures within { result ≤ line.end }
    {
        for token in line.first..line.end {
            if self.is_colon(token) {
                return token;
            }
        }
        line.end
    }

    fn is_colon(self, token: usize) -> bool
        ensures { result ≡ is_of is_colon (slice_get self.entry.tokens.now token) }
    {
        matches!(self.kind(token), Some(TokenKind::Sign(Symbol::Colon)))
    }

    /// How many values stand in a line.
    pub fn values(self, line: Line) -> u64 {
        let mut count: u64 = 0;
        for token in self.colon(line).saturating_add(1)..line.end {
            if self.begins_value(token) {
                count = count.saturating_add(1);
            }
        }
        count
    }

    /// The first token of the value of this number, from 1, in a line, or the token behind its last.
    #[tactic(auto, using(crate::proofs::Scanned::value_found, crate::proofs::Scanned::value_end))]
    pub fn value(self, line: Line, number: u64) -> usize
        requires { line.end ≤ length self.tokens.now }
        ensures { result ≡ value_of self.entry.tokens.now line number }
    {
        let mut left = number;
        for token in self.colon(line) + 1..line.end {
            if self.begins_value(token) {
                if left <= 1 {
                    return token;
                }
                left -= 1;
            }
        }
        line.end
    }

    /// Whether a value of a row begins at this token: it is no number behind `-`.
    fn begins_value(self, token: usize) -> bool
        requires { 0 < token }
        ensures { result ≡ begins_value self.entry.tokens.now token }
    {
        !matches!(self.kind(token - 1), Some(TokenKind::Sign(Symbol::Minus)))
    }

    /// The first token of the first line that has the same row as a later line, spelled the same.
    pub fn same_row_before(self, line: Line) -> Option<usize> {
        for token in 0..line.first {
            if self.begins_line(token) && self.is_same_row(token, line) {
                return Some(token);
            }
        }
        None
    }

    fn begins_line(self, token: usize) -> bool {
        token == 0 || self.line_of(token - 1) != self.line_of(token)
    }

    /// Whether the tokens from here on are those of a line up to its `:`.
    fn is_same_row(self, token: usize, line: Line) -> bool {
        for place in line.first..line.end {
            if self.word(token.saturating_add(place - line.first)) != self.word(place) {
                return false;
            }
            if self.is_sign(place, Symbol::Colon) {
                return true;
            }
        }
        false
    }
}

/// How many tokens stand on the lines before this one.
fn before_line(tokens: &[Token], line: u64) -> usize
    ensures is { result ≡ length (take_while (λ token. nat_lt token.line line) tokens.now) }
    ensures few { result ≤ length tokens.now }
{
    tokens.iter().take_while(|token| token.line < line).count()
}

/// How many tokens stand on the lines up to this one.
fn through_line(tokens: &[Token], line: u64) -> usize
    ensures is { result ≡ length (take_while (λ token. nat_le token.line line) tokens.now) }
    ensures few { result ≤ length tokens.now }
{
    tokens.iter().take_while(|token| token.line <= line).count()
}

/// What may stand behind a symbol.
fn after_sign(next: Next, sign: Symbol) -> Next {
    match (next, sign) {
        (Next::Opening, Symbol::LeftRound) => Next::Argument,
        (Next::Opening | Next::Colon, Symbol::Colon) => Next::Value,
        (Next::Argument, Symbol::Minus) => Next::ArgumentNumber,
        (Next::Separator, Symbol::Comma) => Next::Argument,
        (Next::Separator, Symbol::RightRound) => Next::Colon,
        (Next::Value, Symbol::Minus) => Next::ValueNumber,
        (Next::Value, Symbol::Unknown) => Next::Value,
        _ => Next::Fault,
    }
}

/// What may stand behind a token that is no symbol.
fn after_word(next: Next, kind: TokenKind) -> Next {
    match next {
        Next::Item if kind == TokenKind::Name => Next::Opening,
        Next::Argument if is_value(kind) => Next::Separator,
        Next::ArgumentNumber if kind == TokenKind::Number => Next::Separator,
        Next::Value if is_value(kind) => Next::Value,
        Next::ValueNumber if kind == TokenKind::Number => Next::Value,
        _ => Next::Fault,
    }
}

fn is_value(kind: TokenKind) -> bool {
    matches!(
        kind,
        TokenKind::Name | TokenKind::Number | TokenKind::Word(Reserved::True | Reserved::False)
    )
}
