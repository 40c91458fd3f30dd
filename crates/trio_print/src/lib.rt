//! Texts as they are printed, and that they read as what was printed.
#![tactic(auto)]

mod formulas;
mod pieces;
mod printer;
mod statements;
mod terms;
mod words;

pub use statements::spec_text;
pub use trio_types::Spec;
