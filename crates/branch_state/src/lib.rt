//! Problems, branches, and the tables that a branch represents.
#![tactic(auto)]

mod branch;
mod copying;
mod env;
mod equal;
mod holding;
pub mod laws;
mod problem;
mod roots;
mod sets;

pub use branch::{Branch, Branches, Want, Wants};
pub use copying::{copy, copy_want, copy_wants};
pub use env::Env;
pub use equal::{same, same_problem};
pub use history_table::{Given, Table, Tables};
pub use holding::holds;
pub use problem::{Problem, pose};
pub use roots::{of_table, root, root_set};
pub use sets::single_set;
pub use trio_core::{Core, Doms, Node};
pub use trio_types::{List, Spec};
