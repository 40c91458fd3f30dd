//! Texts that grow without an answer at each word.
use super::claims::holds;
use std::alloc::Global;
use std::fmt::Display;
use std::process::Abort;

/// A text, and whether memory ran out while it grew.
#[derive(Drop)]
pub struct Text {
    alloc: Global,
    text: String,
    is_short: bool,
}

impl Text {
    /// The empty text.
    pub fn new(alloc: Global) -> Text {
        Text {
            alloc,
            text: String::new(alloc),
            is_short: false,
        }
    }

    /// Puts words behind the text unless it is empty.
    pub fn put_between(&mut self, words: &str) {
        if !self.text.is_empty() {
            self.put(words);
        }
    }

    /// Puts words behind the text.
    pub fn put(&mut self, words: &str) {
        if self.text.push_str(words).is_err() {
            self.is_short = true;
        }
    }

    /// Puts a value behind the text, as it is shown.
    pub fn put_value<D: Display + Drop>(&mut self, value: D) {
        match format!(in self.alloc; "{value}") {
            Ok(shown) => self.put(shown.as_str()),
            Err(_) => self.is_short = true,
        }
    }

    /// The text; ends the test where memory ran out.
    pub fn whole(self, rt: &impl Abort) -> String {
        holds(rt, !self.is_short);
        self.text
    }
}
