//! The relations and operators of formulas: words of texts stand for them, and formulas hold them.

/// A relation between two terms.
#[derive(Clone, Copy, PartialEq, Eq)]
pub enum Rel {
    Eq,
    Ne,
    Lt,
    Le,
    Gt,
    Ge,
}

/// An operator on one formula: at every instant, at some instant, or at those after or before now alone.
#[derive(Clone, Copy, PartialEq, Eq)]
pub enum OneOp {
    Alw,
    AlwF,
    AlwP,
    Som,
    SomF,
    SomP,
}

/// Which ends a ranged operator includes: the first letter is for now, the second for the instant at the distance; `i` includes it.
#[derive(Clone, Copy, PartialEq, Eq)]
pub enum Ends {
    /// Neither end: no suffix.
    Bare,
    Ii,
    Ie,
    Ei,
}

/// An operator on a formula and a distance.
#[derive(Clone, Copy, PartialEq, Eq)]
pub enum FarOp {
    /// The formula holds at the instant that far away, forward for a positive distance and back for a negative one.
    Dist,
    Futr,
    Past,
    NextTime,
    LastTime,
    Lasts(Ends),
    Lasted(Ends),
    WithinF(Ends),
    WithinP(Ends),
}

/// An operator on two formulas.
#[derive(Clone, Copy, PartialEq, Eq)]
pub enum PairOp {
    Until,
    Since,
}
