//! Writes a list of histories, piece by piece.
ghost use Rattle.std.specs.Prelude.{◌≡◌, ◌+◌, ◌++◌, ◌∷◌, ℕ, List, Some, length, slice_get, IfOk, codes, decimal};
ghost use Rattle.trio_types.specs.Cells.{cells_of};
ghost use Rattle.trio_types.specs.Verdict.{world_of};
ghost use Rattle.history_table.specs.Texts.{numbered_text, list_text};
ghost use Rattle.trio_jobs.specs.Answer.{GivesOrWants};
ghost use Rattle.trio_jobs.specs.Text.{text_of};
ghost use Rattle.trio_jobs.specs.declared.status.Status.{Status};

use crate::answer::{Answer, give};
use crate::fault::Fault;
use crate::status::Status;
use history_table::{Table, Tables, table_text};
use std::alloc::{AllocError, Global};
use trio_io::Sink;
use trio_types::Spec;

/// Writes how many tables there are, and the text of each behind its number. All memory is taken before the first write.
pub fn give_list<K: Sink>(
    alloc: Global,
    out: &mut K,
    spec: &Spec,
    tables: Tables,
) -> Result<Status, Fault>
    requires { (k : ℕ) (table : List ℕ) → slice_get tables k ≡ Some table → length table ≡ length (cells_of (world_of spec.now)) }
    ensures { GivesOrWants Status.Done (list_text (world_of spec.now) tables) (K.seen out.old) (K.seen out.new) result }
{
    match list_answer(alloc, spec, tables) {
        Ok(answer) => give(out, &answer),
        Err(_) => Err(Fault::Memory),
    }
}

/// The list as an answer, whose pieces are its first line and each table behind its number. Each table is let go as soon as its text is made, so
/// that the tables and the whole text never stand in memory together.
fn list_answer(alloc: Global, spec: &Spec, mut tables: Tables) -> Result<Answer, AllocError>
    requires { (k : ℕ) (table : List ℕ) → slice_get tables k ≡ Some table → length table ≡ length (cells_of (world_of spec.now)) }
    ensures status { IfOk result (λ answer. answer.status ≡ Status.Done) }
    ensures text { IfOk result (λ answer. text_of answer ≡ list_text (world_of spec.now) tables) }
{
    let count = tables.len();
    let mut pieces = Vec::new(alloc);
    while let Some(table) = tables.pop() {
        pieces.push(numbered(alloc, spec, tables.len() + 1, &table)?)?;
    }
    pieces.push(counted(alloc, "histories ", count)?)?;
    pieces.reverse();
    Ok(Answer {
        status: Status::Done,
        pieces,
    })
}

/// The text of a table behind its number.
fn numbered(alloc: Global, spec: &Spec, number: usize, table: &Table) -> Result<Vec<u8>, AllocError>
    requires { length table.now ≡ length (cells_of (world_of spec.now)) }
    ensures { IfOk result (λ piece. piece.items ≡ numbered_text (world_of spec.now) (number, table.now)) }
{
    let text = table_text(alloc, spec, table)?;
    let mut piece = counted(alloc, "history ", number)?;
    piece.extend_from_slice(text.as_slice())?;
    Ok(piece)
}

/// A line of words and a number.
fn counted(alloc: Global, words: &str, number: usize) -> Result<Vec<u8>, AllocError>
    ensures { IfOk result (λ line. line.items ≡ words.now ++ (decimal number ++ codes "\n")) }
{
    let line = format!(in alloc; "{words}{number}\n")?;
    Ok(line.into_bytes())
}
