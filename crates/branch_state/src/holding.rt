//! Whether a branch holds in a table.
ghost use Rattle.std.specs.Prelude.{◌≡◌, map};
ghost use Rattle.std.specs.List.{All, list_all};
ghost use Rattle.trio_types.specs.Cells.{IsTable};
ghost use Rattle.branch_state.specs.Posed.{world_of_problem};
ghost use Rattle.branch_state.specs.Branches.{single_set, lies_in, want_holds, keeps, WantFits, Fits};

use crate::branch::{Branch, Want};
use crate::problem::Problem;
use crate::sets::{has, single_set};
use history_table::Table;
use trio_base::limits::MOST_CELLS;
use trio_core::{Three, truth3_in};

/// Whether the values of a table lie in the sets of a branch, and every want of the branch holds in it. It takes no memory.
pub fn holds(problem: &Problem, branch: &Branch, table: &Table) -> bool
    requires branch_fits { Fits problem.now branch.now }
    requires table_fits { IsTable (world_of_problem problem.now) table.now }
    ensures { result ≡ keeps problem.now branch.now table.now }
{
    lies_in(problem, branch, table) && wants_hold(problem, branch, table)
}

/// Whether each index of the table is in the set of its cell.
fn lies_in(_problem: &Problem, branch: &Branch, table: &Table) -> bool
    requires branch_fits { Fits _problem.now branch.now }
    requires table_fits { IsTable (world_of_problem _problem.now) table.now }
    ensures { result ≡ lies_in branch.now.doms table.now }
{
    for cell in 0..table.len() {
        let index = u32::from(*table.get(cell));
        if !has(*branch.doms.get(cell), index) {
            return false;
        }
    }
    true
}

/// Whether every want holds in the table: the sets of its indexes alone decide each.
fn wants_hold(problem: &Problem, branch: &Branch, table: &Table) -> bool
    requires branch_fits { Fits problem.now branch.now }
    requires table_fits { IsTable (world_of_problem problem.now) table.now }
    ensures { result ≡ list_all (want_holds problem.now table.now) branch.now.wants }
{
    let mut singles = [0; MOST_CELLS as usize];
    for cell in 0..table.len() {
        singles[cell] = single_set(u32::from(*table.get(cell)));
    }
    want_all(
        problem,
        branch.wants.as_slice(),
        table,
        &singles[..table.len()],
    )
}

/// Whether every want holds in a table, by the single sets of its indexes.
fn want_all(problem: &Problem, wants: &[Want], table: &Table, singles: &[u64]) -> bool
    requires wants_fit { All (WantFits problem.now) wants.now }
    requires table_fits { IsTable (world_of_problem problem.now) table.now }
    requires are_single { singles.now ≡ map single_set table.now }
    ensures { result ≡ list_all (want_holds problem.now table.now) wants.now }
{
    for want in wants {
        if !want_holds(problem, want, table, singles) {
            return false;
        }
    }
    true
}

/// Whether a want holds in a table, by the single sets of its indexes.
fn want_holds(problem: &Problem, want: &Want, _table: &Table, singles: &[u64]) -> bool
    requires want_fits { WantFits problem.now want.now }
    requires table_fits { IsTable (world_of_problem problem.now) _table.now }
    requires are_single { singles.now ≡ map single_set _table.now }
    ensures { result ≡ want_holds problem.now _table.now want.entry.now }
{
    let core = problem.core();
    let values = want.env.as_slice();
    match truth3_in(core, want.node, want.from, want.now, values, singles) {
        Three::True => want.sign,
        Three::False => !want.sign,
        Three::Unknown => unreachable!(),
    }
}
