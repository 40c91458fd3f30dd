//! Why tokens are no specification.

/// Why tokens are no specification. A place is the number of a token, from 0.
#[derive(Clone, Copy)]
pub enum TreeFault {
    /// The first `(` or `[` with which more than 100 of the two are open.
    Deep(usize),
    /// The first token such that no text of the grammar begins with the tokens up to and including it, or their number where the text
    /// stops too early.
    Syntax(usize),
    /// Want of memory.
    Memory,
}
