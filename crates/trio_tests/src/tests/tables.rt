//! Given histories that are made, and the tables that they are.
ghost use Rattle.std.specs.Prelude.{◌≡◌, ◌<◌, ◌++◌, ◌∷◌, [], length, IfSome};
ghost use Rattle.trio_types.specs.Verdict.{world_of};
ghost use Rattle.trio_types.specs.Cells.{cells_of, IsTable};
ghost use Rattle.history_table.specs.Fitting.{IsGiven};

use super::maker::Maker;
use history_table::{Given, Table, read_history};
use std::process::Abort;
use trio_types::{Spec, cell_count, cell_size};

/// A given history; where its values need not be known, a third of them is not.
pub fn made_given(
    rt: &(impl Abort + AllocGlobal),
    maker: &mut Maker,
    spec: &Spec,
    known: bool,
) -> Given
    ensures { length result ≡ length (cells_of (world_of spec.now)) }
{
    let mut given = Given::new(rt.alloc());
    for cell in 0..cell_count(spec) {
        let entry = made_entry(maker, cell_size(spec, cell), known);
        add_entry(rt, &mut given, entry);
    }
    given
}

/// An index below a size, or none.
fn made_entry(maker: &mut Maker, size: u32, known: bool) -> Option<u16> {
    if size == 0 || size > 64 || (!known && maker.number(3) == 0) {
        return None;
    }
    Some(maker.number(size as usize) as u16)
}

fn add_entry(rt: &impl Abort, given: &mut Given, entry: Option<u16>)
    ensures { given.new ≡ given.old ++ entry ∷ [] }
{
    match given.push(entry) {
        Ok(()) => {}
        Err(_) => panic!(rt; "memory"),
    }
}

/// A given history that leaves at most so many tables; in turn one cell in so many is not known where it may be.
pub fn made_open_given(
    rt: &(impl Abort + AllocGlobal),
    maker: &mut Maker,
    spec: &Spec,
    most: u32,
    chance: usize,
) -> Given
    requires { 0 < chance }
    ensures { length result ≡ length (cells_of (world_of spec.now)) }
{
    let mut given = Given::new(rt.alloc());
    let mut left = most;
    for cell in 0..cell_count(spec) {
        let entry = open_entry(maker, cell_size(spec, cell), &mut left, chance);
        add_entry(rt, &mut given, entry);
    }
    given
}

/// An index below a size; none in one case of so many, where so many times fewer tables may be left as there are indexes.
fn open_entry(maker: &mut Maker, size: u32, left: &mut u32, chance: usize) -> Option<u16>
    requires { 0 < chance }
{
    if size == 0 || *left < size || maker.number(chance) != 0 {
        return made_entry(maker, size, true);
    }
    *left /= size;
    None
}

/// A table of this many cells, each with the index 0.
fn blank_table(rt: &(impl Abort + AllocGlobal), cells: u32) -> Table
    ensures { length result ≡ cells }
{
    let mut table = Table::new(rt.alloc());
    for _cell in 0..cells {
        match table.push(0) {
            Ok(()) => {}
            Err(_) => panic!(rt; "memory"),
        }
    }
    table
}

/// The table that a given history is, where each value is known.
pub fn table_of(rt: &(impl Abort + AllocGlobal), spec: &Spec, given: &Given) -> Option<Table>
    requires { IsGiven (world_of spec.now) given.now }
    ensures { IfSome result (IsTable (world_of spec.now)) }
{
    let mut table = blank_table(rt, cell_count(spec));
    match given.whole(&mut table) {
        Ok(()) => Some(table),
        Err(_) => None,
    }
}

/// The table that a text is.
pub fn read_table(rt: &(impl Abort + AllocGlobal), spec: &Spec, text: &str) -> Table
    ensures { IsTable (world_of spec.now) result }
{
    let given = read_history(rt.alloc(), spec, text.as_bytes()).expect(rt, "history");
    table_of(rt, spec, &given).expect(rt, "known values")
}
