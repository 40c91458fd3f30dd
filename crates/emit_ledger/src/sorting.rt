//! Tables in order.
ghost use Rattle.std.specs.List.Sorted.{IsPermutation};
ghost use Rattle.emit_ledger.specs.Assembly.{InOrder};

use branch_state::{List, Table, Tables};

/// The same tables in the order of lists of indexes. It takes no memory.
pub fn sort_tables(tables: Tables) -> Tables
    ensures permuted { IsPermutation tables result }
    ensures sorted { InOrder result }
{
    let mut tables = tables.into_vec();
    tables
        .as_mut_slice()
        .sort_unstable_by(|left, right| left.as_slice().cmp(right.as_slice()));
    List::from_vec(tables)
}
