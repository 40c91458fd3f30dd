//! What a declared name stands for.

/// What a name stands for. Domains are numbered with `bool` as 0, items from 0, the words of a domain by their indexes.
#[derive(Clone, Copy)]
pub enum Meaning {
    /// The domain of this number.
    Domain(u32),
    /// A word: its domain's number, and its index.
    Word(u32, u32),
    /// The item of this number.
    Item(u32),
    /// An axiom or a goal.
    Claim,
}

/// Where a name was declared, by the number of its token, and what it stands for.
#[derive(Clone, Copy)]
pub struct Declared {
    pub place: usize,
    pub meaning: Meaning,
}
