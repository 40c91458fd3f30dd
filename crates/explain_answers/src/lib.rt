//! What is said for people of the answers of `trio`: sentences, places in the texts, pictures of histories.
#![tactic(auto)]

mod command;
mod excerpt;
mod explain;
mod given_words;
mod history_words;
mod kind_words;
mod limit_words;
mod nesting;
mod place;
mod range_words;
mod row_form;
mod source;
mod spec_words;
mod status;
mod timeline;
mod verdict_words;
mod writing;

pub use explain::explained;
pub use status::Status;
