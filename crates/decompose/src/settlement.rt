//! Settling the wants of a branch, one after the other.
ghost use Rattle.std.specs.Prelude.{◌≡◌, IfOk, reverse};
ghost use Rattle.trio_core.specs.Sets.{AreSets};
ghost use Rattle.trio_core.specs.Stands.{world_of_core};
ghost use Rattle.std.specs.List.{All};
ghost use Rattle.branch_state.specs.Branches.{WantFits};
ghost use Rattle.branch_state.specs.Posed.{IsPosed};
ghost use Rattle.decompose.specs.Rule.{settled};
ghost use Rattle.decompose.specs.Told.{settled_told, CutsInside};

use crate::fates::{Fate, fate_of};
use branch_state::{Problem, Want, Wants};
use std::alloc::{AllocError, Global};

/// Where settling ends: what becomes of the first want that is not settled, beside the wants that stand behind it.
#[derive(Drop)]
pub(crate) enum Settled {
    /// It does not hold.
    Refuted,
    /// There is none.
    Unwanted,
    /// On the left the first takes its place, on the right the two others.
    Parts(Want, Want, Want),
    /// It stands among the others, and the branch is parted by the values of this cell. There is one where a want is not known.
    Cuts(Option<u32>),
}

/// Settles the wants of a stack, the last of which comes first, and leaves those that stand behind. Only want of memory refuses it.
pub(crate) fn settle(
    alloc: Global,
    problem: &Problem,
    sets: &[u64],
    stack: &mut Wants,
) -> Result<Settled, AllocError>
    requires sets_fit { AreSets (world_of_core problem.now.core) sets.now }
    requires wants_fit { All (WantFits problem.now) (reverse stack.old) }
    ensures rule { IfOk result (λ told. settled_told (world_of_core problem.now.core) sets.now told (reverse stack.new) ≡ settled problem.now sets.now (reverse stack.old)) }
    ensures inside { IfOk result (CutsInside sets.now) }
{
    while let Some(want) = stack.pop() {
        match fate_of(alloc, problem, sets, &want)? {
            Fate::Refuted => return Ok(Settled::Refuted),
            Fate::Dropped => {}
            Fate::One(first) => stack.add(first)?,
            Fate::Both(first, second) => {
                stack.add(second)?;
                stack.add(first)?;
            }
            Fate::Parts(left, first, second) => return Ok(Settled::Parts(left, first, second)),
            Fate::Cuts(cell) => {
                stack.add(want)?;
                return Ok(Settled::Cuts(cell));
            }
        }
    }
    Ok(Settled::Unwanted)
}
