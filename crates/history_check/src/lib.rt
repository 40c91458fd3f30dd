//! Whether a table makes a specification true.
#![tactic(auto)]

mod checker;
mod interpretation;
mod terms;
mod truth;
mod window;

pub use checker::{Verdict, check};
