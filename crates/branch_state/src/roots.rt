//! The branches that are made from a problem, and from a table.
ghost use Rattle.std.specs.Prelude.{◌≡◌, ◌++◌, ◌<◌, length, slice_get, Some, IfOk, OnOk};
ghost use Rattle.trio_types.specs.Cells.{IsTable};
ghost use Rattle.trio_core.specs.Stands.{world_of_core};
ghost use Rattle.branch_state.specs.Posed.{world_of_problem};
ghost use Rattle.branch_state.specs.Branches.{root_sets, root_want, wants_of_root, root_wants, root_branch, single_branch};

use crate::branch::{Branch, Want, Wants};
use crate::env::Env;
use crate::problem::Problem;
use crate::sets::{full_set, single_set};
use history_table::Table;
use std::alloc::{AllocError, Global};
use trio_core::{Core, Doms, Root};
use trio_types::{List, cell_size};

/// The branch that represents all models: every value is allowed where none is given, and each axiom is wanted at each of its instants,
/// axiom after axiom. Only want of memory refuses it.
pub fn root(alloc: Global, problem: &Problem) -> Result<Branch, AllocError>
    ensures { IfOk result (λ made. made ≡ root_branch problem.now) }
{
    let doms = root_sets(alloc, problem)?;
    let wants = root_wants(alloc, problem)?;
    Ok(Branch { doms, wants })
}

fn root_sets(alloc: Global, problem: &Problem) -> Result<Doms, AllocError>
    ensures { IfOk result (λ made. made ≡ root_sets problem.now) }
{
    let mut sets = Doms::new(alloc);
    for cell in 0..problem.given.len() {
        sets.add(root_set(problem, cell as u32))?;
    }
    Ok(sets)
}

/// The set that the root gives the cell of this number.
pub fn root_set(problem: &Problem, cell: u32) -> u64
    requires { cell < length problem.now.given }
    ensures { slice_get (root_sets problem.now) cell ≡ Some result }
{
    match *problem.given.get(cell as usize) {
        Some(index) => single_set(u32::from(index)),
        None => full_set(cell_size(&problem.spec, cell)),
    }
}

fn root_wants(alloc: Global, problem: &Problem) -> Result<Wants, AllocError>
    ensures { IfOk result (λ made. made ≡ root_wants problem.now) }
{
    let mut wants = Vec::new(alloc);
    let core = problem.core();
    for root in core.roots.as_slice() {
        add_wants(alloc, &mut wants, core, *root)?;
    }
    Ok(List::from_vec(wants))
}

/// Wants a root true at each of its instants.
fn add_wants(
    alloc: Global,
    wants: &mut Vec<Want>,
    core: &Core,
    root: Root,
) -> Result<(), AllocError>
    ensures { OnOk result (wants.new.items ≡ wants.old.items ++ wants_of_root (world_of_core core.now) root) }
{
    if let Some(instant) = root.at {
        wants.push(root_want(alloc, root, instant))?;
        return Ok(());
    }
    for instant in 0..core.instants {
        wants.push(root_want(alloc, root, instant))?;
    }
    Ok(())
}

fn root_want(alloc: Global, root: Root, instant: u32) -> Want
    ensures { result ≡ root_want root instant }
{
    Want {
        node: root.node,
        now: instant,
        env: Env::new(alloc),
        sign: true,
        from: 0,
    }
}

/// The branch of a table's single sets, with no want. Where the table is a model, it represents that model alone. Only want of memory
/// refuses it.
pub fn of_table(alloc: Global, _problem: &Problem, table: &Table) -> Result<Branch, AllocError>
    requires fits { IsTable (world_of_problem _problem.now) table.now }
    ensures { IfOk result (λ made. made ≡ single_branch table.now) }
{
    let mut doms = Doms::new(alloc);
    for index in table.as_slice() {
        doms.add(single_set(u32::from(*index)))?;
    }
    Ok(Branch {
        doms,
        wants: List::new(alloc),
    })
}
