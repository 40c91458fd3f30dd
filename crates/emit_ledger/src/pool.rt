//! Regions that are taken out of their places one after the other.
ghost use Rattle.std.specs.Prelude.{◌≡◌, ◌↔◌, Some, map, IfOk, IsTrue, All, MatchOption};
ghost use Rattle.emit_ledger.specs.Pool.{StartsAt, Tells, IsMarked, IsTaken};

use crate::region::{Region, Regions};
use branch_state::{Branch, Problem, same, same_problem};
use std::alloc::{AllocError, Global};

/// Regions, each in its place until it is taken out.
pub(crate) type Pool<'p> = Vec<Option<Region<'p>>>;

/// All regions in their places; only want of memory refuses it.
pub(crate) fn pool_of<'p>(alloc: Global, regions: Regions<'p>) -> Result<Pool<'p>, AllocError>
    ensures { IfOk result (λ pool. pool.items ≡ map Some regions.entry) }
{
    let mut pool = Vec::new(alloc);
    for region in regions.into_vec() {
        pool.push(Some(region))?;
    }
    Ok(pool)
}

/// Which regions are of the problem. It compares the problems of each region once; only want of memory refuses it.
pub(crate) fn marks_of(
    alloc: Global,
    problem: &Problem,
    regions: &Regions<'_>,
) -> Result<Vec<bool>, AllocError>
    ensures { IfOk result (λ marks. IsMarked problem.now marks.items (map Some regions.now)) }
{
    let mut marks = Vec::new(alloc);
    for region in regions.as_slice() {
        marks.push(same_problem(region.problem(), problem))?;
    }
    Ok(marks)
}

/// Takes out the first region of the problem that starts at the branch; `None` exactly where there is none.
pub(crate) fn take_region<'p>(
    pool: &mut Pool<'p>,
    marks: &[bool],
    _problem: &Problem,
    branch: &Branch,
) -> Option<Region<'p>>
    requires { IsMarked _problem.now marks.now pool.old.items }
    ensures { MatchOption result ((pool.new.items ≡ pool.old.items) × All (λ slot. StartsAt _problem.now branch.now slot → ⊥) pool.old.items) (IsTaken _problem.now branch.now pool.old.items pool.new.items) }
{
    for place in 0..pool.len() {
        if starts_at(&pool[place], marks[place], _problem, branch) {
            return pool[place].take();
        }
    }
    None
}

/// Whether a region of the problem that starts at the branch is there. The mark says whether one that is there is of the problem.
fn starts_at(slot: &Option<Region<'_>>, ours: bool, _problem: &Problem, branch: &Branch) -> bool
    requires { Tells _problem.now ours slot.now }
    ensures { IsTrue result ↔ StartsAt _problem.now branch.now slot.now }
{
    match slot {
        Some(region) => ours && same(region.start(), branch),
        None => false,
    }
}
