//! Why a branch is closed.

/// Why a branch is closed.
#[derive(Clone, Copy)]
pub enum Why {
    /// The specification is false under its sets.
    False,
    /// A want does not hold under its sets.
    Want,
}
