//! The core language of nodes, its truth in a table, and its three-valued truth under sets of values.
#![tactic(auto)]

pub mod comparing;
mod declarations;
mod doms;
mod interpretation;
mod kleene;
pub mod laws;
mod nodes;
mod terms;
mod truth;

pub use doms::Doms;
pub use interpretation::Interpretation;
pub use kleene::sole_member;
pub use nodes::{Core, Known, MOST_ROUND, Node, Nodes, Root, Roots, Three};
pub use terms::{cell_read, term_value};
pub use trio_types::{Domains, Items, List, Rel, Term};
pub use truth::{spec_truth3, truth3, truth3_in};
