//! The core of a specification.
ghost use Rattle.std.specs.Prelude.{◌≡◌, IfOk};
ghost use Rattle.trio_core.specs.Stands.{StandsFor};
ghost use Rattle.derived_ops.specs.Rewritten.{IsRewriting};

use crate::writer::Writer;
use std::alloc::{AllocError, Global};
use trio_core::{Core, Root};
use trio_types::copying::{copied_domains, copied_items};
use trio_types::{List, Spec};

/// The core of the axioms, by the table of rewriting. Only want of memory refuses it, or that there are more nodes than are numbered.
pub fn rewrite(alloc: Global, spec: &Spec) -> Result<Core, AllocError>
    ensures exact { IfOk result (λ core. IsRewriting core spec.now) }
    ensures stands { IfOk result (λ core. StandsFor core spec.now) }
{
    let mut writer = Writer::new(alloc);
    let mut roots = Vec::new(alloc);
    for claim in spec.axioms.as_slice() {
        let node = writer.formula(spec, &claim.formula, 0)?;
        roots.push(Root { node, at: claim.at })?;
    }
    let domains = copied_domains(alloc, spec.domains.as_slice())?;
    let items = copied_items(alloc, spec.items.as_slice())?;
    let Writer { nodes, .. } = writer;
    Ok(Core {
        instants: spec.instants,
        domains,
        items,
        nodes: List::from_vec(nodes),
        roots: List::from_vec(roots),
    })
}
