//! Look-ups in lists.

ghost use Rattle.std.specs.Prelude.{◌≡◌, slice_get};
ghost use Rattle.std.specs.Option.{option_copied};

/// The element at a place, where there is one.
pub fn element<T>(list: &[T], place: usize) -> Option<&T>
    ensures { option_copied result ≡ slice_get list.now place }
{
    if place < list.len() {
        Some(&list[place])
    } else {
        None
    }
}
