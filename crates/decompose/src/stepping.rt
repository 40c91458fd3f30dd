//! One step.
ghost use Rattle.std.specs.Prelude.{◌≡◌, ◌+◌, IfOk, MatchResult};
ghost use Rattle.branch_state.specs.Posed.{IsPosed};
ghost use Rattle.branch_state.specs.Branches.{Fits};
ghost use Rattle.decompose.specs.Rule.{ruled};
ghost use Rattle.decompose.specs.Told.{decision_told};
ghost use Rattle.decompose.specs.Stepped.{answer, IsStep};

use crate::decision::{Decision, decide};
use crate::fork::Fork;
use crate::leaf::Leaf;
use crate::shut::Shut;
use crate::steps::Steps;
use branch_state::{Branch, Problem, copy};
use std::alloc::{AllocError, Global};
use std::sync::ledger::Ledger;

/// What a step makes of a branch.
#[derive(Drop)]
pub enum Stepped<'p> {
    /// It represents no model.
    Closed(Shut<'p>),
    /// It represents one table alone.
    Whole(Leaf<'p>),
    /// It represents what two branches do, each model once; they stand beside the fork once more.
    Two(Fork<'p>, Branch, Branch),
}

/// One step, which is counted once, also where it is refused. The branch goes into the answer. Only want of memory refuses it, and then
/// the branch comes back unchanged.
pub fn step<'p, L: Ledger>(
    alloc: Global,
    problem: &'p Problem,
    branch: Branch,
    steps: &mut Steps<L>,
) -> Result<Stepped<'p>, (Branch, AllocError)>
    requires { Fits problem.now branch }
    ensures tick { steps.new ≡ steps.old + 1 }
    ensures rule { IfOk result (λ stepped. answer stepped ≡ ruled problem.now branch) }
    ensures held { MatchResult result (IsStep problem.now branch) (λ refused. refused.0 ≡ branch) }
{
    steps.tick();
    match decide(alloc, problem, &branch) {
        Ok(decision) => answered(alloc, problem, branch, decision),
        Err(refused) => Err((branch, refused)),
    }
}

/// The answer that a decision on a branch makes.
fn answered<'p>(
    alloc: Global,
    problem: &'p Problem,
    branch: Branch,
    decision: Decision,
) -> Result<Stepped<'p>, (Branch, AllocError)>
    requires fits { Fits problem.now branch }
    requires posed { IsPosed problem.now }
    requires rule { decision_told decision ≡ ruled problem.now branch }
    ensures rule { IfOk result (λ stepped. answer stepped ≡ ruled problem.now branch) }
    ensures held { MatchResult result (IsStep problem.now branch) (λ refused. refused.0 ≡ branch) }
{
    match decision {
        Decision::Closed(why) => Ok(Stepped::Closed(Shut::new(problem, branch, why))),
        Decision::Whole(table) => Ok(Stepped::Whole(Leaf::new(problem, branch, table))),
        Decision::Two(left, right) => match twice(alloc, &left, &right) {
            Ok((held_left, held_right)) => Ok(Stepped::Two(
                Fork::new(problem, branch, held_left, held_right),
                left,
                right,
            )),
            Err(refused) => Err((branch, refused)),
        },
    }
}

/// A copy of both branches.
fn twice(alloc: Global, left: &Branch, right: &Branch) -> Result<(Branch, Branch), AllocError>
    ensures { IfOk result (λ made. (made.0 ≡ left.now) × (made.1 ≡ right.now)) }
{
    let held_left = copy(alloc, left)?;
    let held_right = copy(alloc, right)?;
    Ok((held_left, held_right))
}
