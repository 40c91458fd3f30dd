//! The counts of a specification that have limits.
#![tactic(auto)]

mod counts;
mod draft;
mod formulas;
mod ground;
mod limits;
mod sizes;
mod terms;
mod totals;

pub use draft::Draft;
pub use limits::first_above_limit;
