//! Sets of value indexes as words.
ghost use Rattle.std.specs.Prelude.{◌≡◌, ◌<◌, ◌≤◌};
ghost use Rattle.trio_core.specs.Sets.{set_has};
ghost use Rattle.branch_state.specs.Branches.{full_set, single_set};

/// The set of one index alone.
pub fn single_set(index: u32) -> u64
    requires { index < 64 }
    ensures { result ≡ single_set index }
{
    1 << index
}

/// Whether an index is in a set.
pub(crate) fn has(set: u64, index: u32) -> bool
    requires { index < 64 }
    ensures { result ≡ set_has set index }
{
    set >> index & 1 == 1
}

/// The set of all indexes below a size.
pub(crate) fn full_set(size: u32) -> u64
    requires some { 0 < size }
    requires few { size ≤ 64 }
    ensures { result ≡ full_set size }
{
    if size < 64 { (1 << size) - 1 } else { u64::MAX }
}
