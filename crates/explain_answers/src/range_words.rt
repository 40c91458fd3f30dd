//! Sentences on numbers, words and arguments out of range.
use crate::source::Source;
use crate::writing::{put_around, put_counted};
use std::alloc::AllocError;
use trio_base::limits::{GREATEST_NUMBER, MOST_ARGUMENTS, MOST_INSTANTS, MOST_VALUES};
use trio_text::{Reserved, Symbol, TokenKind};

/// Puts the sentence on what is out of range at this token.
pub fn put_range(out: &mut Vec<u8>, source: Source<'_>, token: usize) -> Result<(), AllocError> {
    match (source.kind(token), source.kind_before(token, 1)) {
        (Some(TokenKind::Number), Some(TokenKind::Word(Reserved::Time))) => put_instants(
            out, source, token,
        ),
        (Some(TokenKind::Number), _) if is_too_great(source.word(token)) => put_number_limit(
            out, source, token,
        ),
        (Some(TokenKind::Number), Some(TokenKind::Word(Reserved::At))) => put_at(
            out, source, token,
        ),
        (Some(TokenKind::Number), _) => put_domain_end(out, source, token),
        _ if source.nest(token).is_some() => put_argument_limit(out),
        _ => put_word_limit(out),
    }
}

fn put_instants(out: &mut Vec<u8>, source: Source<'_>, token: usize) -> Result<(), AllocError> {
    put_counted(
        out,
        "time has 1 to ",
        u64::from(MOST_INSTANTS),
        " instants, and this is ",
    )?;
    put_around(out, "`", source.word(token), "`")
}

/// Whether digits write a number above the greatest.
fn is_too_great(digits: &[u8]) -> bool {
    let mut value: u32 = 0;
    for digit in digits {
        value = value
            .saturating_mul(10)
            .saturating_add(u32::from(digit.saturating_sub(b'0')));
    }
    value > GREATEST_NUMBER
}

fn put_number_limit(out: &mut Vec<u8>, source: Source<'_>, token: usize) -> Result<(), AllocError> {
    put_counted(
        out,
        "the greatest number is ",
        u64::from(GREATEST_NUMBER),
        ", and this is ",
    )?;
    put_around(out, "`", source.word(token), "`")
}

fn put_at(out: &mut Vec<u8>, source: Source<'_>, token: usize) -> Result<(), AllocError> {
    put_around(out, "the instants are those below `", source.word(1), "`")?;
    put_around(out, ", and this is `", source.word(token), "`")
}

fn put_domain_end(out: &mut Vec<u8>, source: Source<'_>, token: usize) -> Result<(), AllocError> {
    let before = if source.kind_before(token, 1) == Some(TokenKind::Sign(Symbol::Minus)) {
        "the range that ends at `-"
    } else {
        "the range that ends at `"
    };
    put_around(out, before, source.word(token), "`")?;
    put_counted(
        out,
        " is empty or has more than ",
        u64::from(MOST_VALUES),
        " values",
    )
}

fn put_argument_limit(out: &mut Vec<u8>) -> Result<(), AllocError> {
    put_counted(
        out,
        "an item has at most ",
        u64::from(MOST_ARGUMENTS),
        " arguments, and this is one more",
    )
}

fn put_word_limit(out: &mut Vec<u8>) -> Result<(), AllocError> {
    put_counted(
        out,
        "a domain has at most ",
        u64::from(MOST_VALUES),
        " words, and this is one more",
    )
}
