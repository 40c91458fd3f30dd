//! Specifications rewritten into cores, and goals moved among their axioms.
#![tactic(auto)]

mod cores;
mod distances;
mod formulas;
mod goals;
mod joint;
mod terms;
mod writer;

pub use cores::rewrite;
pub use goals::with_goal;
