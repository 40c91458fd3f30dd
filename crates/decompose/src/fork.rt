//! Branches that are parted in two.
ghost use Rattle.std.specs.Prelude.{◌≡◌};
ghost use Rattle.decompose.specs.Held.{IsFork, fork_view};

use branch_state::{Branch, Problem};
use std::marker::Model;

/// A branch of a problem, and two lighter ones that represent its models together, each once.
#[derive(Drop)]
pub struct Fork<'p> {
    problem: &'p Problem,
    start: Branch,
    left: Branch,
    right: Branch,
}

impl<'p> Model for Fork<'p> {
    ghost use Rattle.decompose.specs.Held.{ForkView, fork_view, fork_code, IsFork};

    ghost Value = { ForkView };

    ghost coded = { fork_code };

    ghost view = { λ it. fork_view it.problem.now it.start it.left it.right };

    ghost invariant = { λ it. IsFork it.problem.now it.start it.left it.right };
}

/// A parted branch by its parts.
#[derive(Drop)]
pub struct ForkParts<'p> {
    pub problem: &'p Problem,
    pub start: Branch,
    pub left: Branch,
    pub right: Branch,
}

impl<'p> Fork<'p> {
    pub(crate) fn new(problem: &'p Problem, start: Branch, left: Branch, right: Branch) -> Fork<'p>
        requires { IsFork problem.now start left right }
        ensures { result ≡ fork_view problem.now start left right }
    {
        Fork {
            problem,
            start,
            left,
            right,
        }
    }

    /// The problem. The two branches represent those of its models that the parted one does.
    pub fn problem(&self) -> &'p Problem
        ensures is { result.now ≡ self.now.problem }
        ensures law { IsFork self.now.problem self.now.start self.now.left self.now.right }
    {
        self.problem
    }

    /// The branch that is parted.
    pub fn start(&self) -> &Branch
        ensures { result.now ≡ self.now.start }
    {
        &self.start
    }

    /// The left one of the two.
    pub fn left(&self) -> &Branch
        ensures { result.now ≡ self.now.left }
    {
        &self.left
    }

    /// The right one of the two.
    pub fn right(&self) -> &Branch
        ensures { result.now ≡ self.now.right }
    {
        &self.right
    }

    /// The parts. It takes no memory.
    pub fn into_parts(self) -> ForkParts<'p>
        ensures is { fork_view result.problem.now result.start result.left result.right ≡ self.entry }
        ensures law { IsFork result.problem.now result.start result.left result.right }
    {
        let Fork {
            problem,
            start,
            left,
            right,
        } = self;
        ForkParts {
            problem,
            start,
            left,
            right,
        }
    }
}
