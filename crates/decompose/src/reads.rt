//! Which cell with several values an atom reads first.
ghost use Rattle.std.specs.Prelude.{◌≡◌, ◌<◌};
ghost use Rattle.trio_types.specs.declared.formula.Term.TheVariants as term_of;
ghost use Rattle.trio_core.specs.Sets.{AreSets};
ghost use Rattle.trio_core.specs.Three.{known_at};
ghost use Rattle.trio_core.specs.Stands.{world_of_core};
ghost use Rattle.trio_core.specs.Fits.{NodeTermFits};
ghost use Rattle.decompose.specs.Reads.{first_undecided, atom_cells, reading};

use crate::values::is_undecided;
use trio_core::{Interpretation, Term, cell_read};
use trio_types::SignedTerm;

/// The first cell with several values that an atom of two terms reads, where there is one.
pub(crate) fn undecided_of_atom(
    under: Interpretation<'_>,
    left: &Term,
    right: &Term,
    instant: u32,
) -> Option<u32>
    requires sets_fit { AreSets (world_of_core under.core.now) under.doms.now }
    requires left_fits { NodeTermFits (world_of_core under.core.now) left.now under.values.now }
    requires right_fits { NodeTermFits (world_of_core under.core.now) right.now under.values.now }
    requires instant_in { instant < under.core.now.instants }
    ensures { result
        ≡ first_undecided (world_of_core under.entry.core.now) under.entry.doms.now (atom_cells (world_of_core under.entry.core.now) left.now right.now under.entry.values.now under.entry.doms.now instant) }
{
    match undecided_of_term(under, left, instant) {
        Some(cell) => Some(cell),
        None => undecided_of_term(under, right, instant),
    }
}

/// The same of one term.
#[cycle(undecided)]
fn undecided_of_term(under: Interpretation<'_>, term: &Term, instant: u32) -> Option<u32>
    requires sets_fit { AreSets (world_of_core under.core.now) under.doms.now }
    requires term_fits { NodeTermFits (world_of_core under.core.now) term.now under.values.now }
    requires instant_in { instant < under.core.now.instants }
    ensures { result
        ≡ first_undecided (world_of_core under.entry.core.now) under.entry.doms.now (reading (world_of_core under.entry.core.now) term.now under.entry.values.now (known_at (world_of_core under.entry.core.now) under.entry.doms.now) instant).cells }
{
    match term {
        Term::Number(_) => None,
        Term::Value(_, _) => None,
        Term::Var(_) => None,
        Term::Read(item, args) => {
            let cell = cell_read(under, *item, args.as_slice(), instant)?;
            if is_undecided(under.core, under.doms, cell) {
                Some(cell)
            } else {
                None
            }
        }
        Term::Sum(parts) => undecided_of_parts(under, parts.as_slice(), instant),
        Term::Times(_, factor) => undecided_of_term(under, factor.get(), instant),
    }
}

/// The same of the parts of a sum.
#[cycle(undecided)]
fn undecided_of_parts(under: Interpretation<'_>, parts: &[SignedTerm], instant: u32) -> Option<u32>
    requires sets_fit { AreSets (world_of_core under.core.now) under.doms.now }
    requires term_fits { NodeTermFits (world_of_core under.core.now) (term_of.Sum parts.now) under.values.now }
    requires instant_in { instant < under.core.now.instants }
    ensures { result
        ≡ first_undecided (world_of_core under.entry.core.now) under.entry.doms.now (reading (world_of_core under.entry.core.now) (term_of.Sum parts.now) under.entry.values.now (known_at (world_of_core under.entry.core.now) under.entry.doms.now) instant).cells }
{
    for part in parts {
        if let Some(cell) = undecided_of_term(under, &part.term, instant) {
            return Some(cell);
        }
    }
    None
}
