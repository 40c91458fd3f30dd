//! The instants inside time that an operator speaks of: neighboring ones, from the first up to the last.
ghost use Rattle.std.specs.Prelude.{◌≡◌, ◌<◌, ◌+◌, ◌-◌, ◌^◌, ◌&&◌, pos, neg_ℤ, int_le, int_lt, option_map};
ghost use Rattle.trio_types.specs.Truth.{is_at_distance, is_not_negative, is_ahead, is_behind};
ghost use Rattle.history_check.specs.Fits.{Selects, IsNear, IsBetween};

use trio_types::Ends;

/// The instants from `from` on and before `to`.
#[derive(Clone, Copy)]
pub(crate) struct Window {
    pub from: u32,
    pub to: u32,
}

/// No instant.
const NONE: Window = Window { from: 0, to: 0 };

/// The instants inside time from one number on and before another.
fn inside(instants: u32, from: i64, to: i64) -> Window
    ensures { Selects instants result.from result.to (λ j. int_le from (pos j) && int_lt (pos j) to) }
{
    let last = i64::from(instants);
    Window {
        from: from.clamp(0, last) as u32,
        to: to.clamp(0, last) as u32,
    }
}

/// The instants between two, whichever of them is the first.
pub(crate) fn between(one: u32, other: u32) -> Window
    requires one_small { one < 2 ^ 32 - 1 }
    requires other_small { other < 2 ^ 32 - 1 }
    ensures { IsBetween one other result.from result.to }
{
    Window {
        from: one.min(other) + 1,
        to: one.max(other),
    }
}

/// The instant at a distance, where it is inside time.
pub(crate) fn at_distance(instants: u32, instant: u32, distance: Option<i64>) -> Window
    requires near { IsNear distance }
    ensures { Selects instants result.from result.to (is_at_distance instant distance) }
{
    match distance {
        Some(distance) => {
            let target = i64::from(instant) + distance;
            inside(instants, target, target + 1)
        }
        None => NONE,
    }
}

/// The instant at a distance ahead that is not negative.
pub(crate) fn in_future(instants: u32, instant: u32, distance: Option<i64>) -> Window
    requires near { IsNear distance }
    ensures { Selects instants result.from result.to (λ j. is_not_negative distance && is_at_distance instant distance j) }
{
    match distance {
        Some(ahead) if ahead >= 0 => at_distance(instants, instant, distance),
        _ => NONE,
    }
}

/// The instant at a distance back that is not negative.
pub(crate) fn in_past(instants: u32, instant: u32, distance: Option<i64>) -> Window
    requires near { IsNear distance }
    ensures { Selects instants result.from result.to (λ j. is_not_negative distance && is_at_distance instant (option_map neg_ℤ distance) j) }
{
    match distance {
        Some(back) if back >= 0 => at_distance(instants, instant, Some(-back)),
        _ => NONE,
    }
}

/// The instants from now on up to a distance ahead, with the ends that the suffix takes.
pub(crate) fn ahead(instants: u32, ends: Ends, instant: u32, distance: Option<i64>) -> Window
    requires near { IsNear distance }
    ensures { Selects instants result.from result.to (is_ahead ends instant distance) }
{
    let Some(distance) = distance else {
        return NONE;
    };
    let now = i64::from(instant);
    let far = now + distance;
    match ends {
        Ends::Bare => inside(instants, now + 1, far),
        Ends::Ii => inside(instants, now, far + 1),
        Ends::Ie => inside(instants, now, far),
        Ends::Ei => inside(instants, now + 1, far + 1),
    }
}

/// The instants from a distance back on up to now, with the ends that the suffix takes.
pub(crate) fn behind(instants: u32, ends: Ends, instant: u32, distance: Option<i64>) -> Window
    requires near { IsNear distance }
    ensures { Selects instants result.from result.to (is_behind ends instant distance) }
{
    let Some(distance) = distance else {
        return NONE;
    };
    let now = i64::from(instant);
    let far = now - distance;
    match ends {
        Ends::Bare => inside(instants, far + 1, now),
        Ends::Ii => inside(instants, far, now + 1),
        Ends::Ie => inside(instants, far + 1, now + 1),
        Ends::Ei => inside(instants, far, now),
    }
}
