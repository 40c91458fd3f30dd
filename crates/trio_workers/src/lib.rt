//! Runs: branches are worked off step by step until nothing is left.
#![tactic(auto)]

pub mod laws;
mod listing;
mod run;
mod search;

pub use listing::all_models;
pub use run::{Outcome, Stopped, run_one};
