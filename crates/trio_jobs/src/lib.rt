//! What the programs share: words, statuses, faults with their messages, files that are loaded, answers that are given, and `check`.
#![tactic(auto)]

mod answer;
mod check;
mod command;
mod fault;
mod listing;
mod loading;
mod message;
mod status;

pub use answer::{Answer, give};
pub use check::job_check;
pub use command::{Command, WordsFault, read_words};
pub use fault::{Fault, Text};
pub use listing::give_list;
pub use loading::{FileRefusal, HistoryFile, SpecFile, load, load_history_file, load_spec_file};
pub use message::say;
pub use status::Status;
