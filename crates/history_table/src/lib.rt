//! Histories and tables as texts: their readers, and what they print.
#![tactic(auto)]

mod fault;
mod given;
mod laws;
mod line;
mod lines;
mod printing;
mod reader;
mod reading;
mod rows;
mod table;
mod texts;

pub use fault::HistFault;
pub use given::Given;
pub use laws::{
    given_values_stay_and_gaps_are_found, text_has_a_history_or_a_fault, text_has_one_history,
};
pub use printing::row_name;
pub use reader::read_history;
pub use table::{Table, Tables};
pub use texts::{given_text, list_text, table_text};
