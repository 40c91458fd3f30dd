//! Reads the lines of a history one after another.
ghost use Rattle.std.specs.Prelude.{◌≡◌, ◌==◌, ◌<◌, ◌≤◌, [], length, false, None, position, is_none, map, take_while, IsTrue, IfOk, IfErr};
ghost use Rattle.std.specs.List.{list_any};
ghost use Rattle.trio_types.specs.Verdict.{world_of};
ghost use Rattle.trio_types.specs.Cells.{takes};
ghost use Rattle.history_table.specs.History.{row_fault, read_fault, lines_fault};
ghost use Rattle.history_table.specs.Decoding.{line_of, lines_by, placed_of, IsFound, AreFound, has_row, row_from, line_places, IsFault};

use crate::fault::HistFault;
use crate::line::Line;
use crate::reading::line;
use crate::rows::{RowParts, first_outside, known_cells, named_row, row_count, row_number};
use std::alloc::{AllocError, Global};
use trio_base::List;
use trio_text::{Lexeme, Token};
use trio_types::Spec;

/// A line without fault: which row it is, and the index that it gives each cell, where it is known.
#[derive(Drop)]
pub struct Found {
    pub row: RowParts,
    pub cells: List<Option<u16>>,
}

/// Lines without fault in their order, and for each row, by its number, the place of the line that is that row, where there is one.
#[derive(Drop)]
pub struct FoundLines {
    pub lines: List<Found>,
    pub places: List<Option<usize>>,
}

/// The lines, each without fault, or the fault of the first faulty line.
pub fn read_lines(
    alloc: Global,
    spec: &Spec,
    tokens: &[Token],
    lexemes: &[Lexeme],
) -> Result<FoundLines, HistFault>
    requires { length lexemes.now ≡ length tokens.now }
    ensures found { IfOk result (λ found. AreFound (world_of spec.now) (placed_of (lines_by tokens.now lexemes.now)) found.lines) }
    ensures placed { IfOk result (λ found. found.places ≡ line_places (world_of spec.now) found.lines) }
    ensures sound { IfOk result (λ found. lines_fault (world_of spec.now) [] (placed_of (lines_by tokens.now lexemes.now)) ≡ None) }
    ensures fault { IfErr result (IsFault (lines_fault (world_of spec.now) [] (placed_of (lines_by tokens.now lexemes.now)))) }
{
    let mut found = FoundLines::none(alloc, spec)?;
    let mut tokens_left = tokens;
    let mut lexemes_left = lexemes;
    while let Some(first) = tokens_left.first() {
        let number = first.line;
        let count = run_length(tokens_left, number);
        let (here, behind) = lexemes_left.split_at(count);
        let line = read_line(alloc, spec, &found, number, here)?;
        found.push(spec, line)?;
        tokens_left = tokens_left.split_at(count).1;
        lexemes_left = behind;
    }
    Ok(found)
}

impl FoundLines {
    ghost use Rattle.std.specs.Prelude.{◌≡◌, ◌<◌, ◌++◌, ◌∷◌, [], length, false, IsTrue, IfOk, OnOk};
    ghost use Rattle.trio_types.specs.Verdict.{world_of};
    ghost use Rattle.trio_types.specs.Cells.{takes};
    ghost use Rattle.history_table.specs.Decoding.{has_row, row_from, line_places};

    /// No lines, so that no row has one.
    fn none(alloc: Global, spec: &Spec) -> Result<FoundLines, AllocError>
        ensures lines { IfOk result (λ found. found.lines ≡ []) }
        ensures placed { IfOk result (λ found. found.places ≡ line_places (world_of spec.now) []) }
    {
        let mut places = Vec::new(alloc);
        for _row in 0..row_count(spec) {
            places.push(None)?;
        }
        Ok(FoundLines {
            lines: List::new(alloc),
            places: List::from_vec(places),
        })
    }

    /// Whether one of the lines is this row.
    fn has_row(&self, spec: &Spec, row: &RowParts) -> bool
        requires item_in { row.now.item < length spec.now.items }
        requires args_in { IsTrue (takes (world_of spec.now) row.now.item row.now.args) }
        requires placed { self.now.places ≡ line_places (world_of spec.now) self.now.lines }
        ensures { result ≡ has_row self.now.lines (row_from row.now) }
    {
        let number = row_number(spec, row);
        self.places.get(number as usize).is_some()
    }

    /// Appends a line of a row that has none.
    fn push(&mut self, spec: &Spec, line: Found) -> Result<(), AllocError>
        requires item_in { line.row.item < length spec.now.items }
        requires args_in { IsTrue (takes (world_of spec.now) line.row.item line.row.args) }
        requires new { has_row self.old.lines (row_from line.row) ≡ false }
        requires placed { self.old.places ≡ line_places (world_of spec.now) self.old.lines }
        ensures lines { OnOk result (self.new.lines ≡ self.old.lines ++ line ∷ []) }
        ensures placed { OnOk result (self.new.places ≡ line_places (world_of spec.now) self.new.lines) }
    {
        let number = row_number(spec, &line.row);
        let place = self.lines.len();
        if let Err((_, error)) = self.lines.push(line) {
            return Err(error);
        }
        self.places.set(number as usize, Some(place));
        Ok(())
    }
}

/// How many tokens at the front are on this line.
fn run_length(tokens: &[Token], line: u64) -> usize
    ensures count { result ≡ length (take_while (λ token. token.line == line) tokens.now) }
    ensures within { result ≤ length tokens.now }
{
    tokens.iter().take_while(|token| token.line == line).count()
}

/// What a line gives its cells behind these earlier ones, or its first fault.
fn read_line(
    alloc: Global,
    spec: &Spec,
    earlier: &FoundLines,
    number: u64,
    lexemes: &[Lexeme],
) -> Result<Found, HistFault>
    requires { earlier.now.places ≡ line_places (world_of spec.now) earlier.now.lines }
    ensures found { IfOk result (IsFound (world_of spec.now) (line_of lexemes.now)) }
    ensures item_in { IfOk result (λ found. found.row.item < length spec.now.items) }
    ensures args_in { IfOk result (λ found. IsTrue (takes (world_of spec.now) found.row.item found.row.args)) }
    ensures new { IfOk result (λ found. has_row earlier.now.lines (row_from found.row) ≡ false) }
    ensures sound { IfOk result (λ found. read_fault (world_of spec.now) (has_row earlier.now.lines) number (line_of lexemes.now) ≡ None) }
    ensures fault { IfErr result (IsFault (read_fault (world_of spec.now) (has_row earlier.now.lines) number (line_of lexemes.now))) }
{
    let Some(line) = line(alloc, lexemes)? else {
        return Err(HistFault::Syntax(number));
    };
    let Some(row) = named_row(alloc, spec, &line)? else {
        return Err(HistFault::UnknownRow(number));
    };
    if earlier.has_row(spec, &row) {
        return Err(HistFault::TwiceRow(number));
    }
    if line.entries.len() != spec.instants as usize {
        return Err(HistFault::Length(number));
    }
    if let Some(place) = first_outside(spec, row.item, line.entries.as_slice()) {
        return Err(HistFault::Value(number, place as u64 + 1));
    }
    let cells = known_cells(alloc, spec, row.item, line.entries.as_slice())?;
    Ok(Found { row, cells })
}
