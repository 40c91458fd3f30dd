//! Closed branches.
ghost use Rattle.std.specs.Prelude.{◌≡◌};
ghost use Rattle.decompose.specs.Held.{IsShut, shut_view};

use crate::why::Why;
use branch_state::{Branch, Problem};
use std::marker::Model;

/// A branch of a problem that represents no model.
#[derive(Drop)]
pub struct Shut<'p> {
    problem: &'p Problem,
    start: Branch,
    why: Why,
}

impl<'p> Model for Shut<'p> {
    ghost use Rattle.decompose.specs.Held.{ShutView, shut_view, shut_code, IsShut};

    ghost Value = { ShutView };

    ghost coded = { shut_code };

    ghost view = { λ it. shut_view it.problem.now it.start it.why };

    ghost invariant = { λ it. IsShut it.problem.now it.start };
}

/// A closed branch by its parts.
#[derive(Drop)]
pub struct ShutParts<'p> {
    pub problem: &'p Problem,
    pub start: Branch,
    pub why: Why,
}

impl<'p> Shut<'p> {
    pub(crate) fn new(problem: &'p Problem, start: Branch, why: Why) -> Shut<'p>
        requires { IsShut problem.now start }
        ensures { result ≡ shut_view problem.now start why }
    {
        Shut {
            problem,
            start,
            why,
        }
    }

    /// The problem. The branch represents none of its models.
    pub fn problem(&self) -> &'p Problem
        ensures is { result.now ≡ self.now.problem }
        ensures law { IsShut self.now.problem self.now.start }
    {
        self.problem
    }

    /// Why the branch is closed.
    pub fn why(&self) -> Why
        ensures { result ≡ self.now.why }
    {
        self.why
    }

    /// The branch that is closed.
    pub fn start(&self) -> &Branch
        ensures { result.now ≡ self.now.start }
    {
        &self.start
    }

    /// The parts. It takes no memory.
    pub fn into_parts(self) -> ShutParts<'p>
        ensures is { shut_view result.problem.now result.start result.why ≡ self.entry }
        ensures law { IsShut result.problem.now result.start }
    {
        let Shut {
            problem,
            start,
            why,
        } = self;
        ShutParts {
            problem,
            start,
            why,
        }
    }
}
