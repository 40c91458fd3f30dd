//! What is said of a specification's text that is refused.
ghost use Rattle.std.specs.Prelude.{◌≡◌, ◌++◌, codes, slice_get, IfOk, OnOk};
ghost use Rattle.explain_answers.specs.Sources.{word_of};
ghost use Rattle.explain_answers.specs.Said.{SaysAt, BeginsWith};
ghost use Rattle.explain_answers.specs.SpecWords.{found_byte, byte_sentence, kind_words, found_words, deep_sentence, syntax_sentence, byte_of, IsSentence, SaysSpecFault};

use crate::excerpt::{put_line_and_column, said_at};
use crate::kind_words::put_kind;
use crate::limit_words::limit_line;
use crate::range_words::put_range;
use crate::source::{Class, Declared, Source};
use crate::writing::{put, put_around, put_counted};
use std::alloc::{AllocError, Global};
use trio_base::limits::MOST_OPEN;
use trio_reader::SpecFault;
use trio_text::TokenKind;

/// The place of a fault, a sentence on it, and the line of the text with a mark under it; a count above its limit has no place.
pub fn spec_fault_words(
    alloc: Global,
    source: Source<'_>,
    fault: SpecFault,
) -> Result<Vec<u8>, AllocError>
    ensures { IfOk result (λ words. SaysSpecFault source.entry.file.now source.entry.text.now source.entry.tokens.now fault words.items) }
{
    match fault {
        SpecFault::Limit(which, count) => limit_line(alloc, source.file, which, count),
        SpecFault::Memory => Err(AllocError),
        _ => placed_words(alloc, source, fault),
    }
}

/// What is said of a fault that has a place.
fn placed_words(alloc: Global, source: Source<'_>, fault: SpecFault) -> Result<Vec<u8>, AllocError>
    ensures { IfOk result (λ words. SaysAt source.entry.file.now source.entry.text.now (byte_of source.entry.tokens.now fault) (IsSentence source.entry.text.now source.entry.tokens.now fault) words.items) }
{
    let sentence = sentence(alloc, source, fault)?;
    said_at(alloc, source, byte_of(source, fault), sentence.as_slice())
}

/// The byte at which a fault stands; 0 for one without a place.
fn byte_of(source: Source<'_>, fault: SpecFault) -> usize
    ensures { result ≡ byte_of source.entry.tokens.now fault }
{
    match fault {
        SpecFault::Lex(byte) => byte as usize,
        SpecFault::Deep(token)
        | SpecFault::Syntax(token)
        | SpecFault::Unknown(token)
        | SpecFault::Twice(token)
        | SpecFault::Kind(token)
        | SpecFault::Range(token) => source.start(token as usize),
        SpecFault::Limit(_, _) | SpecFault::Memory => 0,
    }
}

fn sentence(alloc: Global, source: Source<'_>, fault: SpecFault) -> Result<Vec<u8>, AllocError>
    ensures { IfOk result (λ words. IsSentence source.entry.text.now source.entry.tokens.now fault words.items) }
{
    match fault {
        SpecFault::Lex(byte) => byte_sentence(alloc, source.text, byte as usize),
        SpecFault::Deep(_) => deep_sentence(alloc),
        SpecFault::Syntax(token) => syntax_sentence(alloc, source, token as usize),
        SpecFault::Unknown(token) => unknown_sentence(alloc, source, token as usize),
        SpecFault::Twice(token) => twice_sentence(alloc, source, token as usize),
        SpecFault::Kind(token) => kind_sentence(alloc, source, token as usize),
        SpecFault::Range(token) => range_sentence(alloc, source, token as usize),
        SpecFault::Limit(_, _) | SpecFault::Memory => Ok(Vec::new(alloc)),
    }
}

/// The sentence on the byte of this number, which begins no token.
pub fn byte_sentence(alloc: Global, text: &[u8], byte: usize) -> Result<Vec<u8>, AllocError>
    ensures { IfOk result (λ words. words.items ≡ byte_sentence text.now byte) }
{
    match text.get(byte) {
        Some(found) => found_byte(alloc, *found),
        None => found_byte(alloc, 0),
    }
}

fn found_byte(alloc: Global, byte: u8) -> Result<Vec<u8>, AllocError>
    ensures { IfOk result (λ words. words.items ≡ found_byte byte) }
{
    let mut words = Vec::new(alloc);
    if byte.is_ascii_graphic() {
        put_around(&mut words, "`", &[byte], "` begins no token")?;
        Ok(words)
    } else {
        put_counted(
            &mut words,
            "the byte ",
            u64::from(byte),
            " begins no token outside a comment",
        )?;
        Ok(words)
    }
}

fn deep_sentence(alloc: Global) -> Result<Vec<u8>, AllocError>
    ensures { IfOk result (λ words. words.items ≡ deep_sentence) }
{
    let mut words = Vec::new(alloc);
    put_counted(
        &mut words,
        "more than ",
        u64::from(MOST_OPEN),
        " brackets `(` and `[` are open here",
    )?;
    Ok(words)
}

fn syntax_sentence(alloc: Global, source: Source<'_>, token: usize) -> Result<Vec<u8>, AllocError>
    ensures { IfOk result (λ words. words.items ≡ syntax_sentence source.entry.text.now (slice_get source.entry.tokens.now token)) }
{
    let mut words = Vec::new(alloc);
    if token < source.tokens.len() {
        put_found(&mut words, source, token)?;
        put(&mut words, " cannot stand here")?;
        Ok(words)
    } else {
        put(
            &mut words,
            "the text ends here, and its last statement is not complete",
        )?;
        Ok(words)
    }
}

/// Puts what kind of token stands there, and how it is spelled.
pub fn put_found(out: &mut Vec<u8>, source: Source<'_>, token: usize) -> Result<(), AllocError>
    ensures { OnOk result (out.new.items ≡ out.old.items ++ found_words source.entry.text.now (slice_get source.entry.tokens.now token)) }
{
    match source.kind(token) {
        Some(kind) => put_around(out, kind_words(kind), source.word(token), "`"),
        None => Ok(()),
    }
}

fn kind_words(kind: TokenKind) -> &'static str
    ensures { result.now ≡ kind_words kind }
{
    match kind {
        TokenKind::Name => "the name `",
        TokenKind::Number => "the number `",
        TokenKind::Word(_) => "the reserved word `",
        TokenKind::Sign(_) => "`",
    }
}

fn unknown_sentence(alloc: Global, source: Source<'_>, token: usize) -> Result<Vec<u8>, AllocError>
    ensures { IfOk result (λ words. BeginsWith (codes "`" ++ word_of source.entry.text.now (slice_get source.entry.tokens.now token) ++ codes "` is not declared before this place") words.items) }
{
    let behind = behind_words(alloc, source, token)?;
    let mut words = Vec::new(alloc);
    put_around(
        &mut words,
        "`",
        source.word(token),
        "` is not declared before this place",
    )?;
    words.extend_from_slice(behind.as_slice())?;
    Ok(words)
}

/// Where a name is declared that is not declared before this token, if it is.
fn behind_words(alloc: Global, source: Source<'_>, token: usize) -> Result<Vec<u8>, AllocError> {
    let mut words = Vec::new(alloc);
    if let Some(found) = source.declared(source.word(token)) {
        put(&mut words, ", but behind it, at ")?;
        put_line_and_column(&mut words, source, source.start(found.token))?;
    }
    Ok(words)
}

fn twice_sentence(alloc: Global, source: Source<'_>, token: usize) -> Result<Vec<u8>, AllocError>
    ensures { IfOk result (λ words. BeginsWith (codes "`" ++ word_of source.entry.text.now (slice_get source.entry.tokens.now token) ++ codes "` is declared twice; ") words.items) }
{
    let first = first_words(alloc, source, token)?;
    let mut words = Vec::new(alloc);
    put_around(&mut words, "`", source.word(token), "` is declared twice; ")?;
    words.extend_from_slice(first.as_slice())?;
    Ok(words)
}

/// What a name that is declared twice was declared as before, and where.
fn first_words(alloc: Global, source: Source<'_>, token: usize) -> Result<Vec<u8>, AllocError> {
    let name = source.word(token);
    let mut words = Vec::new(alloc);
    match source.declared(name) {
        Some(found) => put_first(&mut words, source, found)?,
        None => put_outer(&mut words, source, token, name)?,
    }
    Ok(words)
}

fn kind_sentence(alloc: Global, source: Source<'_>, token: usize) -> Result<Vec<u8>, AllocError> {
    let mut words = Vec::new(alloc);
    put_kind(&mut words, source, token)?;
    Ok(words)
}

fn range_sentence(alloc: Global, source: Source<'_>, token: usize) -> Result<Vec<u8>, AllocError> {
    let mut words = Vec::new(alloc);
    put_range(&mut words, source, token)?;
    Ok(words)
}

fn put_first(out: &mut Vec<u8>, source: Source<'_>, found: Declared) -> Result<(), AllocError> {
    put(out, declared_words(found.class))?;
    put_line_and_column(out, source, source.start(found.token))
}

fn declared_words(class: Class) -> &'static str {
    match class {
        Class::Domain => "it is the domain of ",
        Class::Word => "it is the word of ",
        Class::Item => "it is the item of ",
        Class::Axiom => "it is the axiom of ",
        Class::Goal => "it is the goal of ",
    }
}

/// The variable of the same name in whose body this one stands.
fn put_outer(
    out: &mut Vec<u8>,
    source: Source<'_>,
    token: usize,
    name: &[u8],
) -> Result<(), AllocError> {
    put(out, "it is the variable of ")?;
    match source.variable_before(token, name) {
        Some(outer) => put_line_and_column(out, source, source.start(outer)),
        None => put(out, "another quantifier"),
    }
}
