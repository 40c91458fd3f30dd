//! What becomes of a branch, and the branches that it is parted into.
ghost use Rattle.std.specs.Prelude.{◌≡◌, ◌<◌, [], ◌∷◌, reverse, length, IfOk, slice_set};
ghost use Rattle.trio_core.specs.Sets.{AreSets};
ghost use Rattle.trio_core.specs.Stands.{world_of_core};
ghost use Rattle.branch_state.specs.Posed.{IsPosed};
ghost use Rattle.branch_state.specs.Branches.{Fits, branch};
ghost use Rattle.decompose.specs.Rule.{Two, ruled, unwanted, cut_cell};
ghost use Rattle.decompose.specs.Told.{decision_told};

use crate::settlement::{Settled, settle};
use crate::values::{first_undecided, least_member, least_table};
use crate::why::Why;
use branch_state::{Branch, Problem, Want, Wants, copy_wants, single_set};
use history_table::Table;
use std::alloc::{AllocError, Global};
use trio_core::{Core, Doms, Three, spec_truth3};

/// What becomes of a branch.
#[derive(Drop)]
pub(crate) enum Decision {
    Closed(Why),
    Whole(Table),
    Two(Branch, Branch),
}

/// What becomes of a branch. Only want of memory refuses it.
pub(crate) fn decide(
    alloc: Global,
    problem: &Problem,
    branch: &Branch,
) -> Result<Decision, AllocError>
    requires { Fits problem.now branch.now }
    ensures rule { IfOk result (λ told. decision_told told ≡ ruled problem.now branch.now) }
    ensures posed { IsPosed problem.now }
{
    let core = problem.core();
    let sets = &branch.doms;
    if let Three::False = spec_truth3(core, sets) {
        return Ok(Decision::Closed(Why::False));
    }
    let mut stack = copy_wants(alloc, &branch.wants)?.reversed();
    match settle(alloc, problem, sets.as_slice(), &mut stack)? {
        Settled::Refuted => Ok(Decision::Closed(Why::Want)),
        Settled::Unwanted => Ok(cut_or_whole(alloc, core, sets)?),
        Settled::Parts(left, first, second) => Ok(parted(alloc, sets, stack, left, first, second)?),
        Settled::Cuts(Some(cell)) => Ok(cut(alloc, core, sets, stack.reversed(), cell)?),
        Settled::Cuts(None) => Ok(Decision::Closed(Why::Want)),
    }
}

/// Where nothing is wanted any more: the first cell with several values is cut, and where there is none one table is left.
fn cut_or_whole(alloc: Global, core: &Core, sets: &Doms) -> Result<Decision, AllocError>
    requires { AreSets (world_of_core core.now) sets.now }
    ensures { IfOk result (λ told. decision_told told ≡ unwanted (world_of_core core.now) sets.now) }
{
    match first_undecided(core, sets.as_slice()) {
        Some(cell) => Ok(cut(alloc, core, sets, Wants::new(alloc), cell)?),
        None => Ok(Decision::Whole(least_table(alloc, core, sets)?)),
    }
}

/// The branches in which a cell has its least value, and its other values.
fn cut(
    alloc: Global,
    _core: &Core,
    sets: &Doms,
    wants: Wants,
    cell: u32,
) -> Result<Decision, AllocError>
    requires sets_fit { AreSets (world_of_core _core.now) sets.now }
    requires cell_in { cell < length sets.now }
    ensures { IfOk result (λ told. decision_told told ≡ cut_cell (world_of_core _core.now) sets.now wants cell) }
{
    let set = *sets.get(cell as usize);
    let least = single_set(least_member(set));
    let left = Branch {
        doms: with_set(alloc, sets, cell, least)?,
        wants: copy_wants(alloc, &wants)?,
    };
    let right = Branch {
        doms: with_set(alloc, sets, cell, set - least)?,
        wants,
    };
    Ok(Decision::Two(left, right))
}

/// A copy of sets, in which a cell has this set.
fn with_set(alloc: Global, sets: &Doms, cell: u32, set: u64) -> Result<Doms, AllocError>
    requires { cell < length sets.now }
    ensures { IfOk result (λ made. made ≡ slice_set sets.now cell set) }
{
    let mut made = sets.copy(alloc)?;
    made.set(cell as usize, set);
    Ok(made)
}

/// The branches in which the first of these stands before the wants of a stack, and the two others.
fn parted(
    alloc: Global,
    sets: &Doms,
    stack: Wants,
    left: Want,
    first: Want,
    second: Want,
) -> Result<Decision, AllocError>
    ensures { IfOk result (λ told. decision_told told
        ≡ Two (branch sets.now (left ∷ reverse stack)) (branch sets.now (first ∷ second ∷ reverse stack))) }
{
    let mut left_stack = copy_wants(alloc, &stack)?;
    left_stack.add(left)?;
    let mut right_stack = stack;
    right_stack.add(second)?;
    right_stack.add(first)?;
    let left = Branch {
        doms: sets.copy(alloc)?,
        wants: left_stack.reversed(),
    };
    let right = Branch {
        doms: sets.copy(alloc)?,
        wants: right_stack.reversed(),
    };
    Ok(Decision::Two(left, right))
}
