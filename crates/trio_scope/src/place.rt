//! Places of faults.

ghost use Rattle.std.specs.Prelude.{◌≡◌};
ghost use Rattle.trio_scope.specs.Places.{least};
ghost use Rattle.trio_scope.specs.Places as spec;

/// The smaller of two places that may be there.
pub fn earlier(left: Option<usize>, right: Option<usize>) -> Option<usize>
    ensures { result ≡ spec.earlier left right }
{
    match (left, right) {
        (None, _) => right,
        (Some(_), None) => left,
        (Some(left), Some(right)) => Some(left.min(right)),
    }
}

/// The place of a fault that is there unless the test holds.
pub fn unless(holds: bool, place: usize) -> Option<usize>
    ensures { result ≡ least (spec.unless holds place) }
{
    if holds { None } else { Some(place) }
}
