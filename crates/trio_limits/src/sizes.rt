//! How many values domains have, and how great they are.

ghost use Rattle.std.specs.Prelude.{◌≡◌, ◌≤◌, ◌<◌, true, map, length, nat_abs, slice_get};
ghost use Rattle.std.specs.Option.{option_copied};
ghost use Rattle.trio_types.specs.World.{values_of};
ghost use Rattle.trio_types.specs.WellFormed.{values_fit};
ghost use Rattle.trio_types.specs.Bounds.{greatest};

use trio_types::DomainKind;

/// The element at a place, where there is one.
pub fn element<T>(list: &[T], place: usize) -> Option<&T>
    ensures { option_copied result ≡ slice_get list.now place }
{
    if place < list.len() {
        Some(&list[place])
    } else {
        None
    }
}

/// How many values a domain has.
pub fn kind_size(kind: &DomainKind) -> u64
    requires { values_fit kind.now ≡ true }
    ensures is { result ≡ length (values_of kind.now) }
    ensures few { result ≤ 64 }
{
    match kind {
        DomainKind::Bool => 2,
        DomainKind::Range(low, high) => (*high - *low + 1) as u64,
        DomainKind::Words(words) => words.len() as u64,
    }
}

/// The greatest absolute value of a domain's values.
pub fn kind_bound(kind: &DomainKind) -> u64
    requires { values_fit kind.now ≡ true }
    ensures { result ≡ greatest (map nat_abs (values_of kind.now)) }
{
    match kind {
        DomainKind::Bool => 1,
        DomainKind::Range(low, high) => low.unsigned_abs().max(high.unsigned_abs()),
        DomainKind::Words(words) => words.len() as u64 - 1,
    }
}
