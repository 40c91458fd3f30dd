//! What is said of a verdict, and of a value that is not known.
ghost use Rattle.std.specs.Prelude.{◌≡◌, ◌<◌, ◌+◌, ◌++◌, length, codes, decimal, slice_get, IfOk};
ghost use Rattle.trio_types.specs.Cells.{cells_of};
ghost use Rattle.trio_types.specs.Verdict.{world_of};
ghost use Rattle.explain_answers.specs.Sources.{is_of};
ghost use Rattle.explain_answers.specs.Said.{BeginsWith};
ghost use Rattle.explain_answers.specs.VerdictWords.{is_axiom, axiom_name_token, name_of, false_words, true_line, unknown_line};

use crate::excerpt::said_at;
use crate::source::Source;
use crate::timeline::{put_timeline, rows};
use crate::writing::{put, put_around, put_counted};
use history_table::{Table, row_name};
use std::alloc::{AllocError, Global};
use trio_text::{Reserved, Symbol, TokenKind};
use trio_types::Spec;

/// The line that says that a specification is true in a history.
pub fn true_line(alloc: Global, spec_name: &str, history_name: &str) -> Result<Vec<u8>, AllocError>
    ensures { IfOk result (λ words. words.items ≡ true_line spec_name.now history_name.now) }
{
    let mut words = Vec::new(alloc);
    put(&mut words, spec_name)?;
    put(&mut words, " is true in ")?;
    put(&mut words, history_name)?;
    put(&mut words, "\n")?;
    Ok(words)
}

/// The line on a cell whose value is not known.
pub fn unknown_line(
    alloc: Global,
    spec: &Spec,
    history_name: &str,
    cell: u32,
) -> Result<Vec<u8>, AllocError>
    requires { cell < length (cells_of (world_of spec.now)) }
    ensures { IfOk result (λ words. words.items ≡ unknown_line (world_of spec.now) history_name.now cell) }
{
    let name = row_name(alloc, spec, cell / spec.instants)?;
    let mut words = Vec::new(alloc);
    put(&mut words, history_name)?;
    put(&mut words, ": the value of `")?;
    put(&mut words, name.as_str())?;
    put_counted(
        &mut words,
        "` at instant ",
        u64::from(cell % spec.instants),
        " is not known, and `check` needs every value\n",
    )?;
    Ok(words)
}

/// Where the axiom of this number stands, that it is false at this instant of the history, and the history's picture.
pub fn false_words(
    alloc: Global,
    source: Source<'_>,
    spec: &Spec,
    table: &Table,
    number: u32,
    instant: u32,
) -> Result<Vec<u8>, AllocError>
    ensures { IfOk result (λ words. BeginsWith (false_words source.entry.file.now source.entry.text.now source.entry.tokens.now spec.now number instant) words.items) }
{
    let name = source.axiom_name(number);
    let picture = picture(alloc, source, spec, table, name, instant)?;
    let sentence = false_sentence(alloc, spec, number, instant)?;
    let mut words = said_at(alloc, source, source.start(name), sentence.as_slice())?;
    put_around(&mut words, "\n", picture.as_slice(), "")?;
    Ok(words)
}

fn false_sentence(
    alloc: Global,
    spec: &Spec,
    number: u32,
    instant: u32,
) -> Result<Vec<u8>, AllocError>
    ensures { IfOk result (λ words. words.items ≡ codes "axiom `" ++ name_of (slice_get spec.now.axioms number) ++ codes "` is false at instant " ++ decimal instant) }
{
    let mut words = Vec::new(alloc);
    put(&mut words, "axiom `")?;
    put(&mut words, axiom_name(spec, number))?;
    put_counted(&mut words, "` is false at instant ", u64::from(instant), "")?;
    Ok(words)
}

/// The name of the axiom of this number; empty where there is none.
fn axiom_name(spec: &Spec, number: u32) -> &str
    ensures { result.now ≡ name_of (slice_get spec.now.axioms number) }
{
    match spec.axioms.as_slice().get(number as usize) {
        Some(axiom) => axiom.name.as_str(),
        None => "",
    }
}

/// The picture of a history round an instant, with the items first that are read behind this token.
fn picture(
    alloc: Global,
    source: Source<'_>,
    spec: &Spec,
    table: &Table,
    token: usize,
    instant: u32,
) -> Result<Vec<u8>, AllocError> {
    let read = items_read(alloc, source, spec, token)?;
    let mut words = Vec::new(alloc);
    put_timeline(
        &mut words,
        spec,
        table,
        rows(alloc, spec)?.as_slice(),
        read.as_slice(),
        instant,
    )?;
    Ok(words)
}

/// For each item whether the statement in which this token stands reads it from here on.
fn items_read(
    alloc: Global,
    source: Source<'_>,
    spec: &Spec,
    token: usize,
) -> Result<Vec<bool>, AllocError> {
    let mut read = Vec::new(alloc);
    for item in spec.items.as_slice() {
        read.push(source.names(token, item.name.as_str().as_bytes()))?;
    }
    Ok(read)
}

impl Source<'_> {
    /// The token of the name of the axiom of this number, from 0.
    #[tactic(auto, using(crate::proofs::Scanned::axiom_found, crate::proofs::Scanned::axiom_end))]
    fn axiom_name(self, number: u32) -> usize
        ensures { result ≡ axiom_name_token self.entry.tokens.now number }
    {
        let mut left = number;
        for token in 0..self.tokens.len() {
            if self.is_axiom(token) {
                if left == 0 {
                    return token + 1;
                }
                left -= 1;
            }
        }
        self.tokens.len() + 1
    }

    fn is_axiom(self, token: usize) -> bool
        ensures { result ≡ is_of is_axiom (slice_get self.entry.tokens.now token) }
    {
        matches!(self.kind(token), Some(TokenKind::Word(Reserved::Axiom)))
    }

    /// Whether a name stands between this token and the end of its statement. No variable has the name of an item.
    fn names(self, token: usize, name: &[u8]) -> bool {
        for place in token..self.tokens.len() {
            if self.is_sign(place, Symbol::Semi) {
                return false;
            }
            if self.kind(place) == Some(TokenKind::Name) && self.word(place) == name {
                return true;
            }
        }
        false
    }
}
