//! What is put together from regions.
ghost use Rattle.std.specs.Prelude.{IfOk, All};
ghost use Rattle.branch_state.specs.Branches.{Fits, reps_all};
ghost use Rattle.emit_ledger.specs.Assembly.{InOrder, Covers, IsAssembled};

use crate::pool::{marks_of, pool_of, take_region};
use crate::region::{RegionParts, Regions};
use crate::sorting::sort_tables;
use branch_state::{Branches, List, Problem, Tables};
use std::alloc::{AllocError, Global};

/// What regions make of branches.
#[derive(Drop)]
pub struct Assembled {
    /// The tables that were found, in order.
    pub found: Tables,
    /// The branches for which there is no region.
    pub rest: Branches,
    /// How many regions were not used.
    pub dropped: u64,
}

/// Follows each start through the regions: where one that is not used has an equal problem and an equal start, it is used, its tables are
/// found, and its given branches are followed; else the branch is left. Only want of memory refuses it.
pub fn assemble<'p>(
    alloc: Global,
    problem: &'p Problem,
    starts: Branches,
    regions: Regions<'p>,
) -> Result<Assembled, AllocError>
    requires { All (Fits problem.now) starts }
    ensures assembled { IfOk result (λ made. IsAssembled problem.now starts regions.entry made.found made.rest made.dropped) }
    ensures covers { IfOk result (λ made. Covers problem.now (reps_all problem.now starts) made.found made.rest) }
    ensures sorted { IfOk result (λ made. InOrder made.found) }
{
    let followed = follow(alloc, problem, starts, regions)?;
    Ok(Assembled {
        found: sort_tables(followed.found),
        rest: followed.rest,
        dropped: followed.dropped,
    })
}

/// The same, with the tables in the order in which they were found.
fn follow<'p>(
    alloc: Global,
    problem: &'p Problem,
    starts: Branches,
    regions: Regions<'p>,
) -> Result<Assembled, AllocError>
    requires { All (Fits problem.now) starts }
    ensures assembled { IfOk result (λ made. IsAssembled problem.now starts regions.entry made.found made.rest made.dropped) }
    ensures covers { IfOk result (λ made. Covers problem.now (reps_all problem.now starts) made.found made.rest) }
{
    let mut unused = regions.len();
    let marks = marks_of(alloc, problem, &regions)?;
    let mut pool = pool_of(alloc, regions)?;
    let mut todo = starts;
    let mut all_found = List::new(alloc);
    let mut rest = List::new(alloc);
    while let Some(branch) = todo.pop() {
        match take_region(&mut pool, marks.as_slice(), problem, &branch) {
            Some(region) => {
                let RegionParts { found, given, .. } = region.into_parts();
                all_found.append(found)?;
                todo.append(given)?;
                unused -= 1;
            }
            None => rest.add(branch)?,
        }
    }
    Ok(Assembled {
        found: all_found,
        rest,
        dropped: unused as u64,
    })
}
