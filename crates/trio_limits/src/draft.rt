//! The parts of a specification before they are known to be one.

use trio_types::{Axioms, Domains, Items};

/// Instants, domains, items, axioms and goals that may make a specification.
#[derive(Drop)]
pub struct Draft {
    pub instants: u32,
    pub domains: Domains,
    pub items: Items,
    pub axioms: Axioms,
    pub goals: Axioms,
}
