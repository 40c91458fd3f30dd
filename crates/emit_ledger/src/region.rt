//! Regions.
ghost use Rattle.std.specs.Prelude.{◌≡◌, [], ◌∷◌, ◌-◌, length, slice_get, Some, IfOk, OnOk, OnErr, IfErr};
ghost use Rattle.branch_state.specs.Branches.{Fits};
ghost use Rattle.emit_ledger.specs.Regions.{IsRegion, IsLighter, region_view, absorbed};

use crate::joining::join;
use branch_state::{Branch, Branches, List, Problem, Table, Tables, copy};
use decompose::{Fork, ForkParts, Leaf, LeafParts, Shut};
use std::alloc::{AllocError, Global};
use std::marker::Model;

/// A branch of a problem, the tables that were found of it, and the branches that are given for what is left of it. The models that the
/// branch represents are those found, and those that the given branches represent, each once.
#[derive(Drop)]
pub struct Region<'p> {
    problem: &'p Problem,
    start: Branch,
    found: Tables,
    given: Branches,
}

impl<'p> Model for Region<'p> {
    ghost use Rattle.emit_ledger.specs.Regions.{RegionView, region_view, region_code, IsRegion};

    ghost Value = { RegionView };

    ghost coded = { region_code };

    ghost view = { λ it. region_view it.problem.now it.start it.found it.given };

    ghost invariant = { λ it. IsRegion it.problem.now it.start it.found it.given };
}

/// Regions, in order.
pub type Regions<'p> = List<Region<'p>>;

/// A region by its parts.
#[derive(Drop)]
pub struct RegionParts<'p> {
    pub problem: &'p Problem,
    pub start: Branch,
    pub found: Tables,
    pub given: Branches,
}

impl<'p> Region<'p> {
    /// A branch of which nothing is done yet: it is given for itself. Only want of memory refuses it.
    pub fn give(
        alloc: Global,
        problem: &'p Problem,
        branch: &Branch,
    ) -> Result<Region<'p>, AllocError>
        requires { Fits problem.now branch.now }
        ensures { IfOk result (λ made. made ≡ region_view problem.now branch.now [] (branch.now ∷ [])) }
    {
        let start = copy(alloc, branch)?;
        let given = List::of_one(alloc, copy(alloc, branch)?)?;
        Ok(Region {
            problem,
            start,
            found: List::new(alloc),
            given,
        })
    }

    /// A branch that represents one table, which is found. Only want of memory refuses it.
    pub fn leaf(alloc: Global, leaf: Leaf<'p>) -> Result<Region<'p>, AllocError>
        ensures { IfOk result (λ made. made ≡ region_view leaf.entry.problem leaf.entry.start (leaf.entry.table ∷ []) []) }
    {
        let LeafParts {
            problem,
            start,
            table,
        } = leaf.into_parts();
        let found = List::of_one(alloc, table)?;
        Ok(Region {
            problem,
            start,
            found,
            given: List::new(alloc),
        })
    }

    /// A closed branch: nothing is found, and nothing is left. Only want of memory refuses it.
    pub fn shut(alloc: Global, shut: &Shut<'p>) -> Result<Region<'p>, AllocError>
        ensures { IfOk result (λ made. made ≡ region_view shut.now.problem shut.now.start [] []) }
    {
        let problem = shut.problem();
        let start = copy(alloc, shut.start())?;
        Ok(Region {
            problem,
            start,
            found: List::new(alloc),
            given: List::new(alloc),
        })
    }

    /// A branch that is parted in two: the right one is given, then the left one. Both weigh less. Only want of memory refuses it.
    pub fn fork(alloc: Global, fork: Fork<'p>) -> Result<Region<'p>, AllocError>
        ensures is { IfOk result (λ made. made ≡ region_view fork.entry.problem fork.entry.start [] (fork.entry.right ∷ fork.entry.left ∷ [])) }
        ensures lighter { IfOk result IsLighter }
    {
        let ForkParts {
            problem,
            start,
            left,
            right,
        } = fork.into_parts();
        let given = two(alloc, right, left)?;
        Ok(Region {
            problem,
            start,
            found: List::new(alloc),
            given,
        })
    }

    /// Puts a region of the last given branch in the place of that branch. Only want of memory refuses it, and then the part comes back
    /// and the region is as before.
    pub fn absorb(
        &mut self,
        alloc: Global,
        part: Region<'p>,
    ) -> Result<(), (Region<'p>, AllocError)>
        requires problem { part.problem ≡ self.old.problem }
        requires last { slice_get self.old.given (length self.old.given - 1) ≡ Some part.start }
        ensures ok { OnOk result (self.new ≡ absorbed self.old part.entry) }
        ensures err { OnErr result (self.new ≡ self.old) }
        ensures back { IfErr result (λ refused. refused.0 ≡ part.entry) }
    {
        let RegionParts {
            problem,
            start,
            found,
            given,
        } = part.into_parts();
        match join(alloc, &mut self.found, found, &mut self.given, given) {
            Ok(()) => Ok(()),
            Err((found, given, refused)) => {
                let part = Region {
                    problem,
                    start,
                    found,
                    given,
                };
                Err((part, refused))
            }
        }
    }

    /// The problem. The found tables and the given branches account for the models of the start.
    pub fn problem(&self) -> &'p Problem
        ensures is { result.now ≡ self.now.problem }
        ensures law { IsRegion self.now.problem self.now.start self.now.found self.now.given }
    {
        self.problem
    }

    /// The branch that is accounted for.
    pub fn start(&self) -> &Branch
        ensures { result.now ≡ self.now.start }
    {
        &self.start
    }

    /// The tables that were found.
    pub fn found(&self) -> &Tables
        ensures { result.now ≡ self.now.found }
    {
        &self.found
    }

    /// The branches that are given for what is left.
    pub fn given(&self) -> &Branches
        ensures { result.now ≡ self.now.given }
    {
        &self.given
    }

    /// The parts. It takes no memory.
    pub fn into_parts(self) -> RegionParts<'p>
        ensures is { region_view result.problem.now result.start result.found result.given ≡ self.entry }
        ensures law { IsRegion result.problem.now result.start result.found result.given }
    {
        let Region {
            problem,
            start,
            found,
            given,
        } = self;
        RegionParts {
            problem,
            start,
            found,
            given,
        }
    }
}

/// The list of two values.
fn two<T: Drop>(alloc: Global, first: T, second: T) -> Result<List<T>, AllocError>
    ensures { IfOk result (λ made. made ≡ first ∷ second ∷ []) }
{
    let mut made = List::of_one(alloc, first)?;
    made.add(second)?;
    Ok(made)
}
