//! What sets tell of the values of terms.
ghost use Rattle.std.specs.Prelude.{◌≡◌, ◌<◌, ℤ, List, [], Option, map, length, slice_get, Some};
ghost use Rattle.trio_types.specs.declared.formula.Term.TheVariants as term_of;
ghost use Rattle.trio_types.specs.Cells.{Cell, cells_of};
ghost use Rattle.trio_core.specs.Sets.{AreSets};
ghost use Rattle.trio_core.specs.declared.nodes.Known.TheVariants.{One};
ghost use Rattle.trio_core.specs.Three.{known_all, known_at, value3};
ghost use Rattle.trio_core.specs.Stands.{world_of_core};
ghost use Rattle.trio_core.specs.Fits.{NodeTermFits, IsCellRead, IsCellOf};

use crate::interpretation::Interpretation;
use crate::kleene::{plus, signed, sole_member, times};
use crate::nodes::{Core, Known};
use trio_types::{SignedTerm, Term};

/// The same as `term_value`, but terms without parts are answered here, with no recursive call.
#[inline]
pub(crate) fn quick_value(under: &Interpretation<'_>, term: &Term, instant: u32) -> Known<i64>
    requires sets_fit { AreSets (world_of_core under.now.core.now) under.now.doms.now }
    requires term_fits { NodeTermFits (world_of_core under.now.core.now) term.now under.now.values.now }
    requires instant_in { instant < under.now.core.now.instants }
    ensures { result ≡ value3 (world_of_core under.now.core.now) term.now under.now.values.now (known_at (world_of_core under.now.core.now) under.now.doms.now) instant }
{
    match term {
        Term::Number(number) => Known::One(i64::from(*number)),
        Term::Value(_, index) => Known::One(i64::from(*index)),
        Term::Var(level) => Known::One(under.values[*level as usize]),
        Term::Read(item, args) if args.is_empty() => bare_read(under, *item, instant),
        Term::Read(item, args) => read(*under, *item, args.as_slice(), instant),
        _ => term_value(*under, term, instant),
    }
}

/// What is known of the value of an item without arguments.
fn bare_read(under: &Interpretation<'_>, item: u32, instant: u32) -> Known<i64>
    requires sets_fit { AreSets (world_of_core under.now.core.now) under.now.doms.now }
    requires term_fits { NodeTermFits (world_of_core under.now.core.now) (term_of.Read item []) under.now.values.now }
    requires instant_in { instant < under.now.core.now.instants }
    ensures { result ≡ value3 (world_of_core under.now.core.now) (term_of.Read item []) under.now.values.now (known_at (world_of_core under.now.core.now) under.now.doms.now) instant }
{
    let cell = under.core.declarations().cell_of(item, &[], instant);
    cell_value(under.core, under.doms, item, cell)
}

/// What is known of the value of a cell of an item.
fn cell_value(core: &Core, doms: &[u64], item: u32, cell: u32) -> Known<i64>
    requires sets_fit { AreSets (world_of_core core.now) doms.now }
    requires cell_is { IsCellOf (world_of_core core.now) doms.now item cell }
    ensures { (c : Cell) → slice_get (cells_of (world_of_core core.now)) cell ≡ Some c → result ≡ known_at (world_of_core core.now) doms.now c }
{
    let domain = core.items.get(item as usize).value;
    match sole_member(set_of(doms, cell)) {
        Some(index) => Known::One(core.declarations().value_at(domain, index)),
        None => Known::Several,
    }
}

/// What is known of the value of a term at an instant.
#[cycle(value)]
pub fn term_value(under: Interpretation<'_>, term: &Term, instant: u32) -> Known<i64>
    requires sets_fit { AreSets (world_of_core under.core.now) under.doms.now }
    requires term_fits { NodeTermFits (world_of_core under.core.now) term.now under.values.now }
    requires instant_in { instant < under.core.now.instants }
    ensures { result ≡ value3 (world_of_core under.entry.core.now) term.now under.entry.values.now (known_at (world_of_core under.entry.core.now) under.entry.doms.now) instant }
{
    match term {
        Term::Number(number) => Known::One(i64::from(*number)),
        Term::Value(_, index) => Known::One(i64::from(*index)),
        Term::Var(level) => Known::One(under.values[*level as usize]),
        Term::Read(item, args) => read(under, *item, args.as_slice(), instant),
        Term::Sum(parts) => sum(under, parts.as_slice(), instant),
        Term::Times(number, factor) => times(*number, term_value(under, factor.get(), instant)),
    }
}

/// What is known of the value of an item at its arguments; there is none where one is outside its domain.
#[cycle(value)]
fn read(under: Interpretation<'_>, item: u32, args: &[Term], instant: u32) -> Known<i64>
    requires sets_fit { AreSets (world_of_core under.core.now) under.doms.now }
    requires term_fits { NodeTermFits (world_of_core under.core.now) (term_of.Read item args.now) under.values.now }
    requires instant_in { instant < under.core.now.instants }
    ensures { result ≡ value3 (world_of_core under.entry.core.now) (term_of.Read item args.now) under.entry.values.now (known_at (world_of_core under.entry.core.now) under.entry.doms.now) instant }
{
    let Some(cell) = cell_read(under, item, args, instant) else {
        return Known::Nothing;
    };
    cell_value(under.core, under.doms, item, cell)
}

/// The number of the cell that an item is read from at its arguments; there is none where one is outside its domain.
#[cycle(value)]
pub fn cell_read(under: Interpretation<'_>, item: u32, args: &[Term], instant: u32) -> Option<u32>
    requires sets_fit { AreSets (world_of_core under.core.now) under.doms.now }
    requires term_fits { NodeTermFits (world_of_core under.core.now) (term_of.Read item args.now) under.values.now }
    requires instant_in { instant < under.core.now.instants }
    ensures { (zs : List (Option ℤ)) → known_all (map (λ a. value3 (world_of_core under.entry.core.now) a under.entry.values.now (known_at (world_of_core under.entry.core.now) under.entry.doms.now) instant) args.now) ≡ One zs
        → IsCellRead (world_of_core under.entry.core.now) item zs instant result }
{
    let declared = under.core.declarations();
    let domains = under.core.items.get(item as usize).args.as_slice();
    let mut indexes = [0; 4];
    for place in 0..args.len() {
        let Known::One(value) = term_value(under, &args[place], instant) else {
            unreachable!()
        };
        let index = declared.index_of(domains[place], value)?;
        indexes[place] = index;
    }
    Some(declared.cell_of(item, &indexes[..args.len()], instant))
}

/// The set of a cell.
fn set_of(sets: &[u64], cell: u32) -> u64
    requires { cell < length sets.now }
    ensures { slice_get sets.now cell ≡ Some result }
{
    sets[cell as usize]
}

/// What is known of the sum of the parts, each with its sign.
#[cycle(value)]
fn sum(under: Interpretation<'_>, parts: &[SignedTerm], instant: u32) -> Known<i64>
    requires sets_fit { AreSets (world_of_core under.core.now) under.doms.now }
    requires term_fits { NodeTermFits (world_of_core under.core.now) (term_of.Sum parts.now) under.values.now }
    requires instant_in { instant < under.core.now.instants }
    ensures { result ≡ value3 (world_of_core under.entry.core.now) (term_of.Sum parts.now) under.entry.values.now (known_at (world_of_core under.entry.core.now) under.entry.doms.now) instant }
{
    let mut sum = Known::One(0);
    for part in parts {
        sum = plus(
            sum,
            signed(part.minus, term_value(under, &part.term, instant)),
        );
    }
    sum
}
