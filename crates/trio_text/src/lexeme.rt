//! What tokens say.

ghost use Rattle.std.specs.Prelude.{◌≡◌, ◌+◌, ◌≤◌, true, min, length, IfOk};
ghost use Rattle.trio_base.specs.declared.limits.TheConstants.{GREATEST_NUMBER};
ghost use Rattle.trio_text.specs.Spelling.{is_name, Spells};
ghost use Rattle.trio_text.specs.Tokens.{IsTokens};
ghost use Rattle.trio_text.specs.Lexemes.{spelling, number_of, lexeme_of_kind, lexemes_of};

use crate::token::{Reserved, Symbol, Token, TokenKind, TokenList};
use std::alloc::{AllocError, Global};
use trio_base::limits::GREATEST_NUMBER;
use trio_base::{List, Name};

/// A token with what it says and without its place in the text: grammars are said over these.
#[derive(Debug, Drop)]
pub enum Lexeme {
    /// A name, with its bytes.
    Name(Name),
    /// A number's value; all those above `GREATEST_NUMBER` stand as one more than it.
    Number(u32),
    /// A reserved word.
    Word(Reserved),
    /// A symbol.
    Sign(Symbol),
}

/// Lexemes in the order of their text.
pub type Lexemes = List<Lexeme>;

/// What the tokens of a text say; only want of memory refuses it.
pub fn lexemes(alloc: Global, text: &[u8], tokens: &TokenList) -> Result<Lexemes, AllocError>
    requires { IsTokens text.now tokens.now }
    ensures { IfOk result (λ lexemes. lexemes ≡ lexemes_of text.now tokens.now) }
{
    let mut found = Vec::new(alloc);
    for token in tokens.as_slice() {
        let lexeme = meaning(alloc, token.kind, spelling(text, token))?;
        found.push(lexeme)?;
    }
    Ok(List::from_vec(found))
}

/// The bytes of a token.
fn spelling<'a>(text: &'a [u8], token: &Token) -> &'a [u8]
    requires some { token.now.start ≤ token.now.end }
    requires within { token.now.end ≤ length text.now }
    ensures { result.now ≡ spelling text.now token.now }
{
    &text[token.start as usize..token.end as usize]
}

/// What a token of this kind and spelling says.
fn meaning(alloc: Global, kind: TokenKind, word: &[u8]) -> Result<Lexeme, AllocError>
    requires { Spells kind word.now }
    ensures { IfOk result (λ lexeme. lexeme ≡ lexeme_of_kind kind word.now) }
{
    match kind {
        TokenKind::Name => Ok(Lexeme::Name(name(alloc, word)?)),
        TokenKind::Number => Ok(Lexeme::Number(value(word))),
        TokenKind::Word(reserved) => Ok(Lexeme::Word(reserved)),
        TokenKind::Sign(symbol) => Ok(Lexeme::Sign(symbol)),
    }
}

/// The name of these bytes.
fn name(alloc: Global, word: &[u8]) -> Result<Name, AllocError>
    requires { is_name word.now ≡ true }
    ensures { IfOk result (λ name. name ≡ word.now) }
{
    Name::new(alloc, str::from_utf8(word).unwrap())
}

/// The number that digits write, or one more than the greatest that a text may hold.
fn value(digits: &[u8]) -> u32
    ensures { result ≡ min (number_of digits.now) (GREATEST_NUMBER + 1) }
{
    let mut value = 0;
    for digit in digits {
        value = (10 * value + u32::from(digit.saturating_sub(b'0'))).min(GREATEST_NUMBER + 1);
    }
    value
}
