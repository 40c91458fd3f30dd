//! The truth of formulas.
ghost use Rattle.std.specs.Prelude.{◌≡◌, ◌<◌, ◌≤◌, ◌-◌, ◌∷◌, ◌++◌, [], option_map, pos};
ghost use Rattle.std.specs.List.{list_all, list_any, range_with_len};
ghost use Rattle.trio_base.specs.declared.operators.PairOp.TheVariants as pair;
ghost use Rattle.trio_types.specs.declared.formula.Formula.TheVariants as formula_of;
ghost use Rattle.trio_types.specs.World.{values_in};
ghost use Rattle.trio_types.specs.Cells.{IsTable};
ghost use Rattle.trio_types.specs.Truth.{truth, is_value, relates, is_iff, far_truth};
ghost use Rattle.trio_types.specs.Verdict.{world_of};
ghost use Rattle.history_check.specs.Fits.{FormulaFits, AllFit, QuantifierFits, IsNear, IsWindowOf, IsFirst, IsLast, IsNearest};

use crate::interpretation::Interpretation;
use crate::terms::value_of;
use crate::window::{Window, ahead, at_distance, behind, between, in_future, in_past};
use trio_base::limits::MOST_OPEN;
use trio_types::{Ends, FarOp, Formula, OneOp, PairOp, Rel, Spec, size_of, value_at};

/// Whether a formula is true at an instant, under the values of the variables.
#[cycle(truth)]
pub(crate) fn holds(under: Interpretation<'_>, formula: &Formula, instant: u32) -> bool
    requires table_fits { IsTable (world_of under.spec.now) under.table.now }
    requires formula_fits { FormulaFits (world_of under.spec.now) formula.now under.values.now }
    requires instant_in { instant < under.spec.now.instants }
    ensures { result ≡ truth (world_of under.entry.spec.now) formula.now under.entry.values.now under.entry.table.now instant }
{
    match formula {
        Formula::Lone(term) => is_one(value_of(under, term, instant)),
        Formula::Compare(rel, left, right) => {
            let left = value_of(under, left, instant);
            let right = value_of(under, right, instant);
            stands(*rel, left, right)
        }
        Formula::Not(part) => !holds(under, part.get(), instant),
        Formula::And(parts) => all_hold(under, parts.as_slice(), instant),
        Formula::Or(parts) => any_holds(under, parts.as_slice(), instant),
        Formula::Implies(left, right) => {
            !holds(under, left.get(), instant) || holds(under, right.get(), instant)
        }
        Formula::Iff(left, right) => {
            let left = holds(under, left.get(), instant);
            let right = holds(under, right.get(), instant);
            agrees(left, right)
        }
        Formula::All(_, domain, part) => !for_some(under, *domain, part.get(), instant, false),
        Formula::Ex(_, domain, part) => for_some(under, *domain, part.get(), instant, true),
        Formula::One(operator, part) => {
            let (window, some) = window_of(under.spec, *operator, instant);
            agrees(some, somewhere(under, part.get(), window, some))
        }
        Formula::Far(operator, part, distance) => {
            let distance = value_of(under, distance, instant);
            far_holds(under, *operator, part.get(), instant, distance)
        }
        Formula::Pair(operator, left, right) => {
            match nearest_true(under, *operator, right.get(), instant) {
                Some(nearest) => !somewhere(under, left.get(), between(instant, nearest), false),
                None => false,
            }
        }
    }
}

/// Whether all formulas are true at an instant.
#[cycle(truth)]
fn all_hold(under: Interpretation<'_>, parts: &[Formula], instant: u32) -> bool
    requires table_fits { IsTable (world_of under.spec.now) under.table.now }
    requires parts_fit { AllFit (world_of under.spec.now) parts.now under.values.now }
    requires instant_in { instant < under.spec.now.instants }
    ensures { result ≡ list_all (λ f. truth (world_of under.entry.spec.now) f under.entry.values.now under.entry.table.now instant) parts.now }
{
    for part in parts {
        if !holds(under, part, instant) {
            return false;
        }
    }
    true
}

/// Whether one of the formulas is true at an instant.
#[cycle(truth)]
fn any_holds(under: Interpretation<'_>, parts: &[Formula], instant: u32) -> bool
    requires table_fits { IsTable (world_of under.spec.now) under.table.now }
    requires parts_fit { AllFit (world_of under.spec.now) parts.now under.values.now }
    requires instant_in { instant < under.spec.now.instants }
    ensures { result ≡ list_any (λ f. truth (world_of under.entry.spec.now) f under.entry.values.now under.entry.table.now instant) parts.now }
{
    for part in parts {
        if holds(under, part, instant) {
            return true;
        }
    }
    false
}

/// Whether a formula is as wanted for some value of one more variable.
#[cycle(truth)]
fn for_some(
    under: Interpretation<'_>,
    domain: u32,
    part: &Formula,
    instant: u32,
    wanted: bool,
) -> bool
    requires table_fits { IsTable (world_of under.spec.now) under.table.now }
    requires part_fits { QuantifierFits (world_of under.spec.now) domain part.now under.values.now }
    requires instant_in { instant < under.spec.now.instants }
    ensures { result
        ≡ list_any (λ z. is_iff wanted (truth (world_of under.entry.spec.now) part.now (under.entry.values.now ++ z ∷ []) under.entry.table.now instant)) (values_in under.entry.spec.now.domains domain) }
{
    let level = under.values.len();
    let mut inner = [0; MOST_OPEN as usize];
    inner[..level].copy_from_slice(under.values);
    for index in 0..size_of(under.spec, domain) {
        inner[level] = value_at(under.spec, domain, index);
        let further = Interpretation {
            values: &inner[..level + 1],
            ..under
        };
        if agrees(wanted, holds(further, part, instant)) {
            return true;
        }
    }
    false
}

/// Whether a formula is as wanted at some instant of a window.
#[cycle(truth)]
fn somewhere(under: Interpretation<'_>, part: &Formula, window: Window, wanted: bool) -> bool
    requires table_fits { IsTable (world_of under.spec.now) under.table.now }
    requires part_fits { FormulaFits (world_of under.spec.now) part.now under.values.now }
    requires inside { window.to ≤ under.spec.now.instants }
    ensures { result ≡ list_any (λ j. is_iff wanted (truth (world_of under.entry.spec.now) part.now under.entry.values.now under.entry.table.now j)) (range_with_len window.from (window.to - window.from)) }
{
    for instant in window.from..window.to {
        if agrees(wanted, holds(under, part, instant)) {
            return true;
        }
    }
    false
}

/// Whether an operator at a distance is true at an instant.
#[cycle(truth)]
fn far_holds(
    under: Interpretation<'_>,
    operator: FarOp,
    part: &Formula,
    instant: u32,
    distance: Option<i64>,
) -> bool
    requires table_fits { IsTable (world_of under.spec.now) under.table.now }
    requires part_fits { FormulaFits (world_of under.spec.now) part.now under.values.now }
    requires instant_in { instant < under.spec.now.instants }
    requires near { IsNear distance }
    ensures { result ≡ far_truth (world_of under.entry.spec.now) operator (truth (world_of under.entry.spec.now) part.now under.entry.values.now under.entry.table.now) instant distance }
{
    let time = under.spec.instants;
    match operator {
        FarOp::Dist => somewhere(under, part, at_distance(time, instant, distance), true),
        FarOp::Futr => somewhere(under, part, in_future(time, instant, distance), true),
        FarOp::Past => somewhere(under, part, in_past(time, instant, distance), true),
        FarOp::NextTime => {
            somewhere(under, part, in_future(time, instant, distance), true)
                && !somewhere(
                    under,
                    part,
                    ahead(time, Ends::Bare, instant, distance),
                    true,
                )
        }
        FarOp::LastTime => {
            somewhere(under, part, in_past(time, instant, distance), true)
                && !somewhere(
                    under,
                    part,
                    behind(time, Ends::Bare, instant, distance),
                    true,
                )
        }
        FarOp::Lasts(ends) => !somewhere(under, part, ahead(time, ends, instant, distance), false),
        FarOp::WithinF(ends) => somewhere(under, part, ahead(time, ends, instant, distance), true),
        FarOp::Lasted(ends) => !somewhere(
            under,
            part,
            behind(time, ends, instant, distance),
            false,
        ),
        FarOp::WithinP(ends) => somewhere(under, part, behind(time, ends, instant, distance), true),
    }
}

/// The first instant of a window at which a formula is true.
#[cycle(truth)]
fn first_true(under: Interpretation<'_>, part: &Formula, window: Window) -> Option<u32>
    requires table_fits { IsTable (world_of under.spec.now) under.table.now }
    requires part_fits { FormulaFits (world_of under.spec.now) part.now under.values.now }
    requires inside { window.to ≤ under.spec.now.instants }
    ensures { IsFirst (truth (world_of under.entry.spec.now) part.now under.entry.values.now under.entry.table.now) window.from window.to result }
{
    for instant in window.from..window.to {
        if holds(under, part, instant) {
            return Some(instant);
        }
    }
    None
}

/// The last instant before another at which a formula is true.
#[cycle(truth)]
fn last_true(under: Interpretation<'_>, part: &Formula, before: u32) -> Option<u32>
    requires table_fits { IsTable (world_of under.spec.now) under.table.now }
    requires part_fits { FormulaFits (world_of under.spec.now) part.now under.values.now }
    requires inside { before ≤ under.spec.now.instants }
    ensures { IsLast (truth (world_of under.entry.spec.now) part.now under.entry.values.now under.entry.table.now) before result }
{
    for instant in (0..before).rev() {
        if holds(under, part, instant) {
            return Some(instant);
        }
    }
    None
}

/// The instant nearest to another, on the side of it that the operator speaks of, at which a formula is true.
#[cycle(truth)]
fn nearest_true(
    under: Interpretation<'_>,
    operator: PairOp,
    part: &Formula,
    instant: u32,
) -> Option<u32>
    requires table_fits { IsTable (world_of under.spec.now) under.table.now }
    requires part_fits { FormulaFits (world_of under.spec.now) part.now under.values.now }
    requires instant_in { instant < under.spec.now.instants }
    ensures { IsNearest (world_of under.entry.spec.now) operator (truth (world_of under.entry.spec.now) part.now under.entry.values.now under.entry.table.now) instant result }
{
    match operator {
        PairOp::Until => first_true(under, part, between(instant, under.spec.instants)),
        PairOp::Since => last_true(under, part, instant),
    }
}

/// The instants that an operator on one formula speaks of, and whether it speaks of some of them or of each.
fn window_of(spec: &Spec, operator: OneOp, instant: u32) -> (Window, bool)
    requires { instant < spec.now.instants }
    ensures inside { result.0.to ≤ spec.now.instants }
    ensures is { IsWindowOf (world_of spec.now) operator instant result.0.from result.0.to result.1 }
{
    let all = Window {
        from: 0,
        to: spec.instants,
    };
    let after = Window {
        from: instant + 1,
        to: spec.instants,
    };
    let before = Window {
        from: 0,
        to: instant,
    };
    match operator {
        OneOp::Alw => (all, false),
        OneOp::Som => (all, true),
        OneOp::AlwF => (after, false),
        OneOp::SomF => (after, true),
        OneOp::AlwP => (before, false),
        OneOp::SomP => (before, true),
    }
}

/// Whether both are true or both are false.
fn agrees(wanted: bool, found: bool) -> bool
    ensures { result ≡ is_iff wanted found }
{
    wanted == found
}

/// Whether a value is there and is 1.
fn is_one(value: Option<i64>) -> bool
    ensures { result ≡ is_value (pos 1) value }
{
    match value {
        Some(value) => value == 1,
        None => false,
    }
}

/// Whether both values are there and stand in the relation.
fn stands(rel: Rel, left: Option<i64>, right: Option<i64>) -> bool
    ensures { result ≡ relates rel left right }
{
    let (Some(left), Some(right)) = (left, right) else {
        return false;
    };
    match rel {
        Rel::Eq => left == right,
        Rel::Ne => left != right,
        Rel::Lt => left < right,
        Rel::Le => left <= right,
        Rel::Gt => left > right,
        Rel::Ge => left >= right,
    }
}
