//! Reads a text as a given history.
ghost use Rattle.std.specs.Prelude.{◌≡◌, ◌++◌, IfOk, OnOk};
ghost use Rattle.trio_types.specs.Verdict.{world_of};
ghost use Rattle.history_table.specs.History.{IsHistoryAnswer};
ghost use Rattle.history_table.specs.Fitting.{IsGiven};
ghost use Rattle.history_table.specs.Decoding.{line_places, IsJoined};

use crate::fault::HistFault;
use crate::given::Given;
use crate::lines::{FoundLines, read_lines};
use crate::rows::row_count;
use std::alloc::{AllocError, Global};
use trio_text::{LexFault, lexemes, tokens};
use trio_types::Spec;

/// The given history of the specification that a text is, or the text's first fault.
pub fn read_history(alloc: Global, spec: &Spec, text: &[u8]) -> Result<Given, HistFault>
    ensures answer { IsHistoryAnswer (world_of spec.now) text.now result }
    ensures fits { IfOk result (IsGiven (world_of spec.now)) }
{
    let tokens = match tokens(alloc, text) {
        Ok(tokens) => tokens,
        Err(LexFault::Byte(place)) => return Err(HistFault::Lex(place)),
        Err(LexFault::Memory) => return Err(HistFault::Memory),
    };
    let lexemes = lexemes(alloc, text, &tokens)?;
    let found = read_lines(alloc, spec, tokens.as_slice(), lexemes.as_slice())?;
    joined(alloc, spec, &found)
}

/// The given history of these lines without fault, or the first row that none of them is.
fn joined(alloc: Global, spec: &Spec, found: &FoundLines) -> Result<Given, HistFault>
    requires { found.now.places ≡ line_places (world_of spec.now) found.now.lines }
    ensures { IsJoined (world_of spec.now) found.now.lines result }
{
    let mut given = Vec::new(alloc);
    for row in 0..row_count(spec) {
        let Some(place) = *found.places.get(row as usize) else {
            return Err(HistFault::MissingRow(row));
        };
        append(&mut given, found.lines.get(place).cells.as_slice())?;
    }
    Ok(Given::from_vec(given))
}

fn append(given: &mut Vec<Option<u16>>, cells: &[Option<u16>]) -> Result<(), AllocError>
    ensures { OnOk result (given.new.items ≡ given.old.items ++ cells.now) }
{
    for cell in cells {
        given.push(*cell)?;
    }
    Ok(())
}
