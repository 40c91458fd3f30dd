//! Kleene's tables, and operations on what is known of values.
ghost use Rattle.std.specs.Prelude.{◌≡◌, ◌<◌, ◌^◌, ◌+ℤ◌, ◌*ℤ◌, ℕ, pos, neg_ℤ, IsTrue, if◌then◌else◌};
ghost use Rattle.trio_core.specs.Sets.{is_set, members};
ghost use Rattle.trio_core.specs.Three.{known_both, known_map, relates3, sure, not3, and3, or3};
ghost use Rattle.trio_types.specs.Truth.{compares};
ghost use Rattle.trio_core.specs.Fits.{IsSole, IsKnownNear};

use crate::nodes::{Known, Three};
use trio_types::Rel;

/// The opposite.
pub(crate) fn opposite(value: Three) -> Three
    ensures { result ≡ not3 value }
{
    match value {
        Three::False => Three::True,
        Three::Unknown => Three::Unknown,
        Three::True => Three::False,
    }
}

/// Whether both are true.
pub(crate) fn both(left: Three, right: Three) -> Three
    ensures { result ≡ and3 left right }
{
    match (left, right) {
        (Three::False, _) | (_, Three::False) => Three::False,
        (Three::True, Three::True) => Three::True,
        _ => Three::Unknown,
    }
}

/// Whether one is true.
pub(crate) fn either(left: Three, right: Three) -> Three
    ensures { result ≡ or3 left right }
{
    match (left, right) {
        (Three::True, _) | (_, Three::True) => Three::True,
        (Three::False, Three::False) => Three::False,
        _ => Three::Unknown,
    }
}

/// The sum of two values.
pub(crate) fn plus(left: Known<i64>, right: Known<i64>) -> Known<i64>
    requires left_near { IsKnownNear left }
    requires right_near { IsKnownNear right }
    ensures { result ≡ known_both (λ x y. x +ℤ y) left right }
{
    match (left, right) {
        (Known::Nothing, _) | (_, Known::Nothing) => Known::Nothing,
        (Known::One(left), Known::One(right)) => Known::One(left + right),
        _ => Known::Several,
    }
}

/// A value, or its opposite.
pub(crate) fn signed(minus: bool, value: Known<i64>) -> Known<i64>
    requires { IsKnownNear value }
    ensures { result ≡ (if minus then known_map neg_ℤ value else value) }
{
    match value {
        Known::One(value) if minus => Known::One(-value),
        value => value,
    }
}

/// A number times a value.
pub(crate) fn times(number: u32, value: Known<i64>) -> Known<i64>
    requires near { IsKnownNear value }
    requires product_near { IsKnownNear (known_map (λ z. pos number *ℤ z) value) }
    ensures { result ≡ known_map (λ z. pos number *ℤ z) value }
{
    match value {
        Known::One(value) => Known::One(i64::from(number) * value),
        value => value,
    }
}

/// Whether two values stand in a relation.
pub(crate) fn compare(rel: Rel, left: Known<i64>, right: Known<i64>) -> Three
    ensures { result ≡ relates3 rel left right }
{
    match (left, right) {
        (Known::Nothing, _) | (_, Known::Nothing) => Three::False,
        (Known::One(left), Known::One(right)) => decided(stands(rel, left, right)),
        _ => Three::Unknown,
    }
}

/// A truth that is known.
fn decided(value: bool) -> Three
    ensures { result ≡ sure value }
{
    if value { Three::True } else { Three::False }
}

/// Whether two numbers stand in a relation.
fn stands(rel: Rel, left: i64, right: i64) -> bool
    ensures { result ≡ compares rel left right }
{
    match rel {
        Rel::Eq => left == right,
        Rel::Ne => left != right,
        Rel::Lt => left < right,
        Rel::Le => left <= right,
        Rel::Gt => left > right,
        Rel::Ge => left >= right,
    }
}

/// The only member of a set that is not empty, where it has no other.
pub fn sole_member(set: u64) -> Option<u32>
    requires { 0 < set }
    ensures { (size : ℕ) → IsTrue (is_set size set) → IsSole (members size set) result }
{
    let lowest = set.trailing_zeros();
    if set == 1 << lowest {
        Some(lowest)
    } else {
        None
    }
}
