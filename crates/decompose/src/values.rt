//! The values that sets leave to cells.
ghost use Rattle.std.specs.Prelude.{◌≡◌, ◌<◌, ℕ, length, ◌++◌, ◌∷◌, [], slice_get, Some, IsTrue, IfOk, OnOk};
ghost use Rattle.trio_core.specs.Sets.{AreSets, is_set, members};
ghost use Rattle.trio_core.specs.Stands.{world_of_core};
ghost use Rattle.decompose.specs.Reads.{is_undecided, first_undecided, all_cells};
ghost use Rattle.decompose.specs.Rule.{least_table};

use history_table::Table;
use std::alloc::{AllocError, Global};
use trio_core::{Core, Doms, sole_member};

/// The least member of a set that is not empty.
pub(crate) fn least_member(set: u64) -> u32
    requires { 0 < set }
    ensures { (size : ℕ) → IsTrue (is_set size set) → slice_get (members size set) 0 ≡ Some result }
{
    set.trailing_zeros()
}

/// Whether the cell of this number has several values.
pub(crate) fn is_undecided(_core: &Core, sets: &[u64], cell: u32) -> bool
    requires sets_fit { AreSets (world_of_core _core.now) sets.now }
    requires cell_in { cell < length sets.now }
    ensures { result ≡ is_undecided (world_of_core _core.now) sets.now cell }
{
    sole_member(sets[cell as usize]).is_none()
}

/// The first cell with several values, where there is one.
pub(crate) fn first_undecided(core: &Core, sets: &[u64]) -> Option<u32>
    requires { AreSets (world_of_core core.now) sets.now }
    ensures { result ≡ first_undecided (world_of_core core.now) sets.now (all_cells (world_of_core core.now)) }
{
    let cells = sets.len() as u32;
    for cell in 0..cells {
        if is_undecided(core, sets, cell) {
            return Some(cell);
        }
    }
    None
}

/// The table of the least values. Only want of memory refuses it.
pub(crate) fn least_table(alloc: Global, core: &Core, sets: &Doms) -> Result<Table, AllocError>
    requires { AreSets (world_of_core core.now) sets.now }
    ensures { IfOk result (λ table. table ≡ least_table (world_of_core core.now) sets.now) }
{
    let mut table = Table::new(alloc);
    for set in sets.as_slice() {
        add_value(&mut table, least_member(*set) as u16)?;
    }
    Ok(table)
}

fn add_value(table: &mut Table, index: u16) -> Result<(), AllocError>
    ensures { OnOk result (table.new ≡ table.old ++ index ∷ []) }
{
    match table.push(index) {
        Ok(()) => Ok(()),
        Err((_, refused)) => Err(refused),
    }
}
