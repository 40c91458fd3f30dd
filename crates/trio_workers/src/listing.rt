//! All models of a problem.
ghost use Rattle.std.specs.Prelude.{◌≡◌, ◌<◌, ◌∷◌, [], IfOk};
ghost use Rattle.branch_state.specs.Branches.{root_branch};
ghost use Rattle.branch_state.specs.Models.{models};

use crate::laws::root_gives_all_models;
use crate::run::run_one;
use branch_state::laws::root_represents_the_models;
use branch_state::{Branches, List, Problem, Tables, root};
use decompose::Steps;
use std::alloc::{AllocError, Global};
use std::marker::Brand;
use std::sync::ledger::{Blank, Ledger};

/// All models of a problem, in order. Only want of memory refuses it.
pub fn all_models(alloc: Global, problem: &Problem) -> Result<Tables, AllocError>
    ensures { IfOk result (λ found. found ≡ models problem.now) }
{
    counted_models::<Brand>(alloc, problem, Blank::new(1))
}

/// The same, with its steps counted in this ledger.
fn counted_models<L: Ledger>(
    alloc: Global,
    problem: &Problem,
    blank: Blank,
) -> Result<Tables, AllocError>
    requires name { blank.name ≡ L.name }
    requires parts { blank.parts ≡ L.parts }
    requires some { 0 < L.parts }
    ensures { IfOk result (λ found. found ≡ models problem.now) }
{
    root_represents_the_models();
    root_gives_all_models();
    let _posed = problem.core();
    let starts = List::of_one(alloc, root(alloc, problem)?)?;
    let mut steps = Steps::<L>::start(blank);
    let outcome = run_one(alloc, problem, List::new(alloc), starts, &mut steps)?;
    Ok(outcome.found)
}
