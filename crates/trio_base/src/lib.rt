//! What every crate of the repository shares: lists, names, bytes, the operators of formulas and the limits.
#![tactic(auto)]

pub mod limits;
mod list;
mod name;
mod operators;
mod results;

pub use list::List;
pub use name::Name;
pub use operators::{Ends, FarOp, OneOp, PairOp, Rel};
pub use results::{beside, followed};

/// A list of bytes, as an output text.
pub type Bytes = List<u8>;
