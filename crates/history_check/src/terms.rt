//! The values of terms.
ghost use Rattle.std.specs.Prelude.{◌≡◌, ◌<◌, ◌≤◌, neg_ℤ, nat_abs, if◌then◌else◌};
ghost use Rattle.trio_base.specs.declared.limits.TheConstants.{GREATEST_BOUND};
ghost use Rattle.trio_types.specs.declared.formula.Term.TheVariants as term_of;
ghost use Rattle.trio_types.specs.Cells.{IsTable};
ghost use Rattle.trio_types.specs.Values.{value};
ghost use Rattle.trio_types.specs.Verdict.{world_of};
ghost use Rattle.history_check.specs.Fits.{TermFits, IsBounded};

use crate::interpretation::Interpretation;
use trio_types::{SignedTerm, Term, cell_of, index_of, value_at};

/// The value of a term at an instant, under the values of the variables, where it has one.
#[cycle(value)]
pub(crate) fn value_of(under: Interpretation<'_>, term: &Term, instant: u32) -> Option<i64>
    requires table_fits { IsTable (world_of under.spec.now) under.table.now }
    requires term_fits { TermFits (world_of under.spec.now) term.now under.values.now }
    requires instant_in { instant < under.spec.now.instants }
    ensures is { result ≡ value (world_of under.entry.spec.now) term.now under.entry.values.now under.entry.table.now instant }
    ensures bounded { IsBounded (world_of under.entry.spec.now) term.now under.entry.values.now result }
{
    match term {
        Term::Number(number) => Some(i64::from(*number)),
        Term::Value(_, index) => Some(i64::from(*index)),
        Term::Var(level) => Some(under.values[*level as usize]),
        Term::Read(item, args) => read(under, *item, args.as_slice(), instant),
        Term::Sum(parts) => sum(under, parts.as_slice(), instant),
        Term::Times(number, factor) => {
            match value_of(under, factor.get(), instant) {
                Some(value) => Some(i64::from(*number) * value),
                None => None,
            }
        }
    }
}

/// The value of an item at its arguments; none where one is outside its domain.
#[cycle(value)]
fn read(under: Interpretation<'_>, item: u32, args: &[Term], instant: u32) -> Option<i64>
    requires table_fits { IsTable (world_of under.spec.now) under.table.now }
    requires term_fits { TermFits (world_of under.spec.now) (term_of.Read item args.now) under.values.now }
    requires instant_in { instant < under.spec.now.instants }
    ensures is { result ≡ value (world_of under.entry.spec.now) (term_of.Read item args.now) under.entry.values.now under.entry.table.now instant }
    ensures bounded { IsBounded (world_of under.entry.spec.now) (term_of.Read item args.now) under.entry.values.now result }
{
    let spec = under.spec;
    let declared = spec.items.get(item as usize);
    let domains = declared.args.as_slice();
    let mut indexes = [0; 4];
    for place in 0..args.len() {
        let Some(value) = value_of(under, &args[place], instant) else {
            return None;
        };
        let Some(index) = index_of(spec, domains[place], value) else {
            return None;
        };
        indexes[place] = index;
    }
    let cell = cell_of(spec, item, &indexes[..args.len()], instant);
    let index = *under.table.get(cell as usize);
    Some(value_at(spec, declared.value, u32::from(index)))
}

/// The sum of the parts, each with its sign; none where a part has no value.
#[cycle(value)]
fn sum(under: Interpretation<'_>, parts: &[SignedTerm], instant: u32) -> Option<i64>
    requires table_fits { IsTable (world_of under.spec.now) under.table.now }
    requires term_fits { TermFits (world_of under.spec.now) (term_of.Sum parts.now) under.values.now }
    requires instant_in { instant < under.spec.now.instants }
    ensures is { result ≡ value (world_of under.entry.spec.now) (term_of.Sum parts.now) under.entry.values.now under.entry.table.now instant }
    ensures bounded { IsBounded (world_of under.entry.spec.now) (term_of.Sum parts.now) under.entry.values.now result }
{
    let mut sum = 0;
    for part in parts {
        let Some(value) = value_of(under, &part.term, instant) else {
            return None;
        };
        sum += signed(part.minus, value);
    }
    Some(sum)
}

/// A value, or its opposite.
fn signed(minus: bool, value: i64) -> i64
    requires { nat_abs value ≤ GREATEST_BOUND }
    ensures { result ≡ (if minus then neg_ℤ value else value) }
{
    if minus { -value } else { value }
}
