//! Branches are worked off.
ghost use Rattle.std.specs.Prelude.{◌≡◌, ◌+◌, ◌≤◌, [], ◌∷◌, ◌++◌, All, IfOk, OnOk};
ghost use Rattle.trio_lists.specs.Multisets.{Permutes};
ghost use Rattle.branch_state.specs.Branches.{Fits, reps_all};
ghost use Rattle.branch_state.specs.Weight.{bulk};
ghost use Rattle.trio_workers.specs.Runs.{IsAdvanced};

use branch_state::{Branch, Branches, List, Problem, Tables};
use decompose::laws::rule_keeps_the_law;
use decompose::{Stepped, Steps, step};
use std::alloc::{AllocError, Global};
use std::sync::ledger::Ledger;

/// The kept tables and the models that the starts represent, each once. Each start is worked off before the next one, always by a step on
/// the branch that was given last. Only want of memory refuses it.
pub(crate) fn search<'p, L: Ledger>(
    alloc: Global,
    problem: &'p Problem,
    kept: Tables,
    starts: Branches,
    steps: &mut Steps<L>,
) -> Result<Tables, AllocError>
    requires { All (Fits problem.now) starts }
    ensures found { IfOk result (λ found. Permutes found (kept ++ reps_all problem.now starts)) }
    ensures steps { steps.new ≤ steps.old + bulk problem.now starts }
{
    let mut found = kept;
    let mut given = starts.reversed();
    while let Some(branch) = given.pop() {
        advance(alloc, problem, branch, steps, &mut found, &mut given)?;
    }
    Ok(found)
}

/// Takes one step on a branch that stood behind those given. What the step answers takes its place: a table is found, or two branches are
/// given, the left one last. Only want of memory refuses it.
fn advance<'p, L: Ledger>(
    alloc: Global,
    problem: &'p Problem,
    branch: Branch,
    steps: &mut Steps<L>,
    found: &mut Tables,
    given: &mut Branches,
) -> Result<(), AllocError>
    requires { Fits problem.now branch }
    ensures tick { steps.new ≡ steps.old + 1 }
    ensures advanced { OnOk result (IsAdvanced problem.now branch found.old given.old found.new given.new) }
{
    rule_keeps_the_law();
    let _posed = problem.core();
    match step(alloc, problem, branch, steps) {
        Ok(Stepped::Closed(_)) => Ok(()),
        Ok(Stepped::Whole(leaf)) => found.add(leaf.into_parts().table),
        Ok(Stepped::Two(_, left, right)) => add_both(given, right, left),
        Err((_, refused)) => Err(refused),
    }
}

/// Appends two values; only want of memory refuses it.
fn add_both<T: Drop>(list: &mut List<T>, first: T, second: T) -> Result<(), AllocError>
    ensures { OnOk result (list.new ≡ (list.old ++ first ∷ []) ++ second ∷ []) }
{
    list.add(first)?;
    list.add(second)
}
