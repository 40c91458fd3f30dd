//! The names of a specification's text: what they stand for, which are not known, and which are declared twice.
#![tactic(auto)]

mod meaning;
mod names;
mod place;
mod scope;
mod twice;
mod unknown;
mod walk;

pub use meaning::{Declared, Meaning};
pub use place::{earlier, unless};
pub use scope::Scope;
pub use twice::first_repeated;
pub use unknown::{first_unknown, is_variable};
pub use walk::{Binder, Role, Rule, first_in, first_in_claims, first_in_term, level_of};
