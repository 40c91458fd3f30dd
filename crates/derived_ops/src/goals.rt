//! Goals as axioms.
ghost use Rattle.std.specs.Prelude.{◌≡◌, ◌<◌, length, IfOk};
ghost use Rattle.trio_types.specs.Verdict.{parts_of};
ghost use Rattle.derived_ops.specs.Goals.{with_goal};

use std::alloc::{AllocError, Global};
use trio_types::copying::{copied_axioms, copied_domains, copied_items};
use trio_types::{List, Spec};

/// The same specification with the goal of this number moved to the end of the axioms. Only want of memory refuses it.
pub fn with_goal(alloc: Global, spec: &Spec, goal: u32) -> Result<Spec, AllocError>
    requires { goal < length spec.now.goals }
    ensures { IfOk result (λ made. parts_of made ≡ with_goal goal (parts_of spec.now)) }
{
    let domains = copied_domains(alloc, spec.domains.as_slice())?;
    let items = copied_items(alloc, spec.items.as_slice())?;
    let mut axioms = copied_axioms(alloc, spec.axioms.as_slice())?;
    let mut goals = copied_axioms(alloc, spec.goals.as_slice())?.into_vec();
    axioms.add(goals.remove(goal as usize))?;
    Ok(Spec {
        instants: spec.instants,
        domains,
        items,
        axioms,
        goals: List::from_vec(goals),
    })
}
