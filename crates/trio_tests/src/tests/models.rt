//! The models of a problem, found by the checker among all tables.
ghost use Rattle.std.specs.Prelude.{◌≡◌, ◌<◌, ◌++◌, ◌∷◌, [], IfSome};
ghost use Rattle.std.specs.List.{All};
ghost use Rattle.trio_types.specs.Verdict.{world_of};
ghost use Rattle.trio_types.specs.Cells.{IsTable};
ghost use Rattle.branch_state.specs.Posed.{world_of_problem};
ghost use Rattle.branch_state.specs.Branches.{Fits};

use branch_state::{Branch, Problem, holds};
use history_check::{Verdict, check};
use history_table::{Given, Table};
use std::process::Abort;
use trio_types::{Spec, cell_count, cell_size};

/// The tables that extend the given history of a problem, and that the checker finds true.
pub fn models_of(rt: &(impl Abort + AllocGlobal), problem: &Problem) -> Vec<Table>
    ensures { All (IsTable (world_of_problem problem.now)) result.items }
{
    let mut models = Vec::new(rt.alloc());
    for number in 0..table_count(&problem.spec, &problem.given) {
        let table = table_at(rt, &problem.spec, &problem.given, number);
        if is_true(rt, &problem.spec, &table) {
            models.push(table).expect(rt, "memory");
        }
    }
    models
}

/// Whether the checker finds a table true.
fn is_true(rt: &(impl Abort + AllocGlobal), spec: &Spec, table: &Table) -> bool
    requires { IsTable (world_of spec.now) table.now }
{
    let verdict = check(rt.alloc(), spec, table).expect(rt, "memory");
    verdict == Verdict::True
}

/// Of each table, whether a branch holds in it.
pub fn holding(
    rt: &(impl Abort + AllocGlobal),
    problem: &Problem,
    branch: &Branch,
    tables: &[Table],
) -> Vec<bool>
    requires fits { Fits problem.now branch.now }
    requires tables_fit { All (IsTable (world_of_problem problem.now)) tables.now }
{
    let mut found = Vec::new(rt.alloc());
    for table in tables {
        found
            .push(holds(problem, branch, table))
            .expect(rt, "memory");
    }
    found
}

/// How many tables extend a given history.
fn table_count(spec: &Spec, given: &Given) -> u32 {
    let mut count = 1_u32;
    for cell in 0..cell_count(spec) {
        if let Some(None) = given.as_slice().get(cell as usize) {
            count = count.saturating_mul(cell_size(spec, cell));
        }
    }
    count
}

/// The table of this number among those that extend a given history: the number is written with a digit for each cell that is not known.
fn table_at(rt: &(impl Abort + AllocGlobal), spec: &Spec, given: &Given, number: u32) -> Table
    ensures { IsTable (world_of spec.now) result }
{
    let mut table = Table::new(rt.alloc());
    let mut rest = number;
    for cell in 0..cell_count(spec) {
        let size = cell_size(spec, cell);
        let Some(index) = index_at(given, cell, &mut rest, size) else {
            panic!(rt; "no table has this number");
        };
        add_index(rt, &mut table, index);
    }
    table
}

/// The index of a cell: the given one, or else the last digit, which is taken off; none where that is no index below the size.
fn index_at(given: &Given, cell: u32, number: &mut u32, size: u32) -> Option<u16>
    ensures { IfSome result (λ index. index < size) }
{
    let index = match given.as_slice().get(cell as usize) {
        Some(Some(index)) => *index,
        _ => last_digit(number, size),
    };
    if u32::from(index) < size {
        Some(index)
    } else {
        None
    }
}

/// Takes the last digit off a number.
fn last_digit(number: &mut u32, base: u32) -> u16 {
    if base == 0 || base > 64 {
        return 0;
    }
    let digit = *number % base;
    *number /= base;
    digit as u16
}

fn add_index(rt: &impl Abort, table: &mut Table, index: u16)
    ensures { table.new ≡ table.old ++ index ∷ [] }
{
    match table.push(index) {
        Ok(()) => {}
        Err(_) => panic!(rt; "memory"),
    }
}
