//! The lines of a history text: which row they name, and the values that they give.
use trio_base::{List, Name};

/// A value as a line writes it.
#[derive(Drop)]
pub enum Value {
    Number(u32),
    /// A number behind `-`.
    Opposite(u32),
    Truth(bool),
    Word(Name),
}

/// A line of a history text: an item's name, arguments, and a value for each instant; none where `?` stands.
#[derive(Drop)]
pub struct Line {
    pub name: Name,
    pub args: List<Value>,
    pub entries: List<Option<Value>>,
}
