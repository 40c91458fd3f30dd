//! What prints a specification.
use trio_types::{Name, Spec};

/// A text that grows, and what is printed into it.
#[derive(Drop)]
pub struct Printer<'a> {
    pub spec: &'a Spec,
    /// The names of the variables in whose bodies it stands, from the outermost on.
    pub names: Vec<&'a Name>,
    pub text: String,
}
