//! The laws of printed texts, of specifications and of given histories: each reads as what was printed.
#![tactic(auto)]

mod laws;

pub use laws::{
    canonical_text_is_that_specification, nest_is_open_brackets, printed_history_is_that_history,
    printed_table_is_that_table,
};
pub use trio_types::Spec;
