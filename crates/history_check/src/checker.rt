//! The checker: the verdict of a table on a specification.
ghost use Rattle.std.specs.Prelude.{◌≡◌, [], find, not, Ok};
ghost use Rattle.trio_types.specs.Cells.{IsTable};
ghost use Rattle.trio_types.specs.Truth.{truth};
ghost use Rattle.trio_types.specs.Verdict.{world_of, instants_asked, first_false};
ghost use Rattle.history_check.specs.Answers.{verdict_of};
ghost use Rattle.history_check.specs.Fits.{FormulaFits, AskedInside};

use crate::interpretation::Interpretation;
use crate::truth::holds;
use history_table::Table;
use std::alloc::{AllocError, Global};
use trio_types::{Axiom, Spec};

/// What a table makes of a specification.
#[derive(Clone, Copy, PartialEq, Eq)]
pub enum Verdict {
    /// Every axiom is true at each of its instants.
    True,
    /// The number of the first axiom that is false at one of its instants, and the first such instant.
    False(u32, u32),
}

/// The verdict of a table that fits the specification. It takes no memory, and never answers want of it.
pub fn check(_alloc: Global, spec: &Spec, table: &Table) -> Result<Verdict, AllocError>
    requires fits { IsTable (world_of spec.now) table.now }
    ensures { result ≡ Ok (verdict_of (first_false spec.now table.now)) }
{
    for (number, axiom) in spec.axioms.as_slice().iter().enumerate() {
        if let Some(instant) = first_false_instant(spec, table, axiom) {
            return Ok(Verdict::False(number as u32, instant));
        }
    }
    Ok(Verdict::True)
}

/// The first instant at which an axiom has to hold and does not.
fn first_false_instant(spec: &Spec, table: &Table, axiom: &Axiom) -> Option<u32>
    requires table_fits { IsTable (world_of spec.now) table.now }
    requires formula_fits { FormulaFits (world_of spec.now) «axiom».now.formula [] }
    requires asked_inside { AskedInside (world_of spec.now) «axiom».now.at }
    ensures { result
        ≡ find (λ i. not (truth (world_of spec.now) «axiom».now.formula [] table.now i)) (instants_asked (world_of spec.now) «axiom».now.at) }
{
    let under = Interpretation {
        spec,
        table,
        values: &[],
    };
    match axiom.at {
        Some(instant) => (!holds(under, &axiom.formula, instant)).then_some(instant),
        None => (0..spec.instants).find(|instant| !holds(under, &axiom.formula, *instant)),
    }
}
