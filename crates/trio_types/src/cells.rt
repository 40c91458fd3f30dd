//! The numbers of a specification's cells.
ghost use Rattle.std.specs.Prelude.{◌≡◌, ◌<◌, ◌≤◌, ℕ, length, take, slice_get, slice_index, Some, IsTrue, option_map};
ghost use Rattle.trio_types.specs.World.{size_of};
ghost use Rattle.trio_types.specs.Cells.{cells_of, the_cell, takes, cell_size};
ghost use Rattle.trio_types.specs.Verdict.{world_of};

use crate::spec::Spec;

/// What a cell is of: an item, the indexes of its arguments, of which the first `arity` count, and an instant.
#[derive(Clone, Copy)]
pub struct CellParts {
    pub item: u32,
    pub args: [u32; 4],
    pub arity: u32,
    pub instant: u32,
}

/// How many values the domain of this number has.
pub fn size_of(spec: &Spec, domain: u32) -> u32
    requires { domain < length spec.now.domains }
    ensures { result ≡ size_of spec.now.domains domain }
{
    spec.declarations().size_of(domain)
}

/// How many cells there are.
pub fn cell_count(spec: &Spec) -> u32
    ensures { result ≡ length (cells_of (world_of spec.now)) }
{
    spec.declarations().cell_count()
}

/// The number of the cell of an item at arguments, given by their indexes, and at an instant. It goes over the items once.
pub fn cell_of(spec: &Spec, item: u32, args: &[u32], instant: u32) -> u32
    requires item_in { item < length spec.now.items }
    requires args_in { IsTrue (takes (world_of spec.now) item args.now) }
    requires instant_in { instant < spec.now.instants }
    ensures { slice_get (cells_of (world_of spec.now)) result ≡ Some (the_cell item args.now instant) }
{
    spec.declarations().cell_of(item, args, instant)
}

/// What the cell of this number is of. Behind the first `arity` places of `args` stand zeros. It goes over the items once.
pub fn cell_parts(spec: &Spec, cell: u32) -> CellParts
    requires { cell < length (cells_of (world_of spec.now)) }
    ensures is { slice_get (cells_of (world_of spec.now)) cell
        ≡ Some (the_cell result.item (take result.arity result.args) result.instant) }
    ensures few { result.arity ≤ 4 }
    ensures rest { (k : ℕ) → result.arity ≤ k → slice_index result.args k ≡ 0 }
{
    spec.declarations().cell_parts(cell)
}

/// How many values the cell of this number can have.
pub fn cell_size(spec: &Spec, cell: u32) -> u32
    requires { cell < length (cells_of (world_of spec.now)) }
    ensures { option_map (cell_size (world_of spec.now)) (slice_get (cells_of (world_of spec.now)) cell) ≡ Some result }
{
    spec.declarations().cell_size(cell)
}
