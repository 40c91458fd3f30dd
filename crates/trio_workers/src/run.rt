//! Runs of one worker.
ghost use Rattle.std.specs.Prelude.{◌≡◌, ◌+◌, ◌≤◌, [], ◌++◌, All, IfOk};
ghost use Rattle.branch_state.specs.Branches.{Fits, reps_all};
ghost use Rattle.branch_state.specs.Weight.{bulk};
ghost use Rattle.emit_ledger.specs.Assembly.{InOrder, Covers};
ghost use Rattle.trio_workers.specs.declared.run.Stopped.TheVariants as stopped;

use crate::search::search;
use branch_state::{Branches, List, Problem, Tables};
use decompose::Steps;
use emit_ledger::sort_tables;
use std::alloc::{AllocError, Global};
use std::sync::ledger::Ledger;

/// Why a run has stopped.
#[derive(Clone, Copy, PartialEq, Eq)]
pub enum Stopped {
    /// Nothing is left.
    No,
    /// A bell rang.
    Bell,
    /// More tables than the limit were found.
    Limit,
}

/// What a run has found, and what it has left.
#[derive(Drop)]
pub struct Outcome {
    /// The tables, in order.
    pub found: Tables,
    /// The branches that are left.
    pub rest: Branches,
    /// Why it has stopped.
    pub stopped: Stopped,
}

/// Works the starts off in their order, each by steps on the branch that was given last until nothing is given. What is found are the kept
/// tables and the models of the starts, in order. The steps are at most the sum of `2 ^ (weight + 1) - 1` over the starts. Only want of
/// memory refuses it.
pub fn run_one<'p, L: Ledger>(
    alloc: Global,
    problem: &'p Problem,
    kept: Tables,
    starts: Branches,
    steps: &mut Steps<L>,
) -> Result<Outcome, AllocError>
    requires { All (Fits problem.now) starts }
    ensures covers { IfOk result (λ outcome. Covers problem.now (kept ++ reps_all problem.now starts) outcome.found outcome.rest) }
    ensures sorted { IfOk result (λ outcome. InOrder outcome.found) }
    ensures stopped { IfOk result (λ outcome. (outcome.stopped ≡ stopped.No) × (outcome.rest ≡ [])) }
    ensures steps { steps.new ≤ steps.old + bulk problem.now starts }
{
    let found = search(alloc, problem, kept, starts, steps)?;
    Ok(Outcome {
        found: sort_tables(found),
        rest: List::new(alloc),
        stopped: Stopped::No,
    })
}
