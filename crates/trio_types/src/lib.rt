//! Specifications, cells and tables, and what formulas mean in a table.
#![tactic(auto)]

mod cells;
pub mod comparing;
pub mod copying;
mod declarations;
mod formula;
pub mod laws;
mod spec;
mod values;

pub use cells::{CellParts, cell_count, cell_of, cell_parts, cell_size, size_of};
pub use formula::{Formula, Formulas, SignedTerm, SignedTerms, Term, Terms};
pub use spec::{
    Axiom, Axioms, Declarations, Domain, DomainKind, Domains, Goal, Ids, Item, Items, Names, Spec,
    Which,
};
pub use sqlite_items::Boxed;
pub use trio_base::{Bytes, Ends, FarOp, List, Name, OneOp, PairOp, Rel};
pub use values::{index_of, value_at};
