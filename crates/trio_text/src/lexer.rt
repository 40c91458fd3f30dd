//! Reads a text as its tokens.

ghost use Rattle.std.specs.Prelude.{◌≡◌, ◌+◌, ◌^◌, ◌<◌, ◌≤◌, ◌∷◌, [], length, true, take, drop, OnOk, MatchOption, MatchResult};
ghost use Rattle.std.specs.Bool.{OnTrue, OnFalse};
ghost use Rattle.trio_text.specs.Spelling.{Spells};
ghost use Rattle.trio_text.specs.Tokens.{AreTokens};
ghost use Rattle.trio_text.specs.Reading.{is_word, IsFront, BeginsNoToken, BeginsNoBlank, ReadsTokens};

use crate::spelling::{
    is_blank, is_digit, is_letter, line_length, name_length, number_length, reserved, symbol,
};
use crate::token::{LexFault, Token, TokenKind, TokenList};
use std::alloc::Global;
use trio_base::List;

/// What is left of a text.
#[derive(Drop)]
struct Lexer<'a> {
    rest: &'a [u8],
    /// The place of `rest` in the text.
    place: u64,
    /// How many LF stand before `rest`.
    newlines: u64,
    ghost place_fits: { place + length rest.now < 2 ^ 64 },
    ghost newlines_fit: { newlines ≤ place },
}

/// The tokens of a text: the only list of tokens that it is, or the first byte that begins none.
pub fn tokens(alloc: Global, text: &[u8]) -> Result<TokenList, LexFault>
    ensures { AreTokens text.now result }
{
    let mut lexer = Lexer {
        rest: text,
        place: 0,
        newlines: 0,
    };
    let mut found = List::new(alloc);
    while !lexer.rest.is_empty() {
        if !lexer.skips() {
            let token = lexer.token()?;
            if found.push(token).is_err() {
                return Err(LexFault::Memory);
            }
        }
    }
    Ok(found)
}

impl<'a> Lexer<'a> {
    /// Goes past a blank or a comment, where one stands next.
    fn skips(&mut self) -> bool
        ensures skipped { OnTrue result (ReadsTokens self.old.place (self.old.newlines + 1) self.old.rest.now [] self.new.place (self.new.newlines + 1) self.new.rest.now) }
        ensures shorter { OnTrue result (length self.new.rest.now < length self.old.rest.now) }
        ensures none { OnFalse result (BeginsNoBlank self.old.rest.now) }
        ensures stays { OnFalse result ((self.new.rest.now ≡ self.old.rest.now) × (self.new.place ≡ self.old.place) × (self.new.newlines ≡ self.old.newlines)) }
    {
        let Some((first, _)) = self.rest.split_first() else {
            return false;
        };
        let first = *first;
        if is_blank(first) {
            self.advance(1);
            if first == b'\n' {
                self.newlines += 1;
            }
            return true;
        }
        if self.rest.starts_with(b"//") {
            self.advance(line_length(self.rest));
            return true;
        }
        false
    }

    /// Takes the token that stands next.
    fn token(&mut self) -> Result<Token, LexFault>
        ensures read { MatchResult result (λ token. ReadsTokens self.old.place (self.old.newlines + 1) self.old.rest.now (token ∷ []) self.new.place (self.new.newlines + 1) self.new.rest.now) (λ fault. (fault ≡ LexFault.Byte self.old.place) × BeginsNoToken self.old.rest.now) }
        ensures shorter { OnOk result (length self.new.rest.now < length self.old.rest.now) }
    {
        let Some((kind, count)) = front(self.rest) else {
            return Err(LexFault::Byte(self.place));
        };
        let start = self.place;
        self.advance(count);
        Ok(Token {
            kind,
            start,
            end: self.place,
            line: self.newlines + 1,
        })
    }

    /// Goes on by so many bytes.
    fn advance(&mut self, count: usize)
        requires { count ≤ length self.old.rest.now }
        ensures rest { self.new.rest.now ≡ drop count self.old.rest.now }
        ensures place { self.new.place ≡ self.old.place + count }
        ensures newlines { self.new.newlines ≡ self.old.newlines }
    {
        self.rest = &self.rest[count..];
        self.place += count as u64;
    }
}

/// The kind and the length of the longest token at the front.
fn front(text: &[u8]) -> Option<(TokenKind, usize)>
    ensures { MatchOption result (BeginsNoToken text.now) (λ found. IsFront text.now found.0 found.1) }
{
    let first = *text.first()?;
    if is_letter(first) {
        let count = name_length(text);
        return Some((word_kind(&text[..count]), count));
    }
    if is_digit(first) {
        return Some((TokenKind::Number, number_length(text)));
    }
    let sign = symbol(text)?;
    Some((TokenKind::Sign(sign), sign.text().len()))
}

/// Whether a word is a name or reserved.
fn word_kind(word: &[u8]) -> TokenKind
    requires { is_word word.now ≡ true }
    ensures { Spells result word.now }
{
    match reserved(word) {
        Some(found) => TokenKind::Word(found),
        None => TokenKind::Name,
    }
}
