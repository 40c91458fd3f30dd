//! Branches that represent one table.
ghost use Rattle.std.specs.Prelude.{◌≡◌};
ghost use Rattle.decompose.specs.Held.{IsLeaf, leaf_view};

use branch_state::{Branch, Problem};
use history_table::Table;
use std::marker::Model;

/// A branch of a problem that represents one table alone.
#[derive(Drop)]
pub struct Leaf<'p> {
    problem: &'p Problem,
    start: Branch,
    table: Table,
}

impl<'p> Model for Leaf<'p> {
    ghost use Rattle.decompose.specs.Held.{LeafView, leaf_view, leaf_code, IsLeaf};

    ghost Value = { LeafView };

    ghost coded = { leaf_code };

    ghost view = { λ it. leaf_view it.problem.now it.start it.table };

    ghost invariant = { λ it. IsLeaf it.problem.now it.start it.table };
}

/// A branch and its table by its parts.
#[derive(Drop)]
pub struct LeafParts<'p> {
    pub problem: &'p Problem,
    pub start: Branch,
    pub table: Table,
}

impl<'p> Leaf<'p> {
    pub(crate) fn new(problem: &'p Problem, start: Branch, table: Table) -> Leaf<'p>
        requires { IsLeaf problem.now start table }
        ensures { result ≡ leaf_view problem.now start table }
    {
        Leaf {
            problem,
            start,
            table,
        }
    }

    /// The problem. The branch represents the table alone among its models.
    pub fn problem(&self) -> &'p Problem
        ensures is { result.now ≡ self.now.problem }
        ensures law { IsLeaf self.now.problem self.now.start self.now.table }
    {
        self.problem
    }

    /// The table.
    pub fn table(&self) -> &Table
        ensures { result.now ≡ self.now.table }
    {
        &self.table
    }

    /// The branch that represents it.
    pub fn start(&self) -> &Branch
        ensures { result.now ≡ self.now.start }
    {
        &self.start
    }

    /// The parts. It takes no memory.
    pub fn into_parts(self) -> LeafParts<'p>
        ensures is { leaf_view result.problem.now result.start result.table ≡ self.entry }
        ensures law { IsLeaf result.problem.now result.start result.table }
    {
        let Leaf {
            problem,
            start,
            table,
        } = self;
        LeafParts {
            problem,
            start,
            table,
        }
    }
}
