//! How parts are joined, and which way a distance goes.

/// A conjunction or a disjunction.
#[derive(Clone, Copy)]
pub enum Joint {
    And,
    Or,
}

/// Ahead in time or back.
#[derive(Clone, Copy)]
pub enum Way {
    Ahead,
    Back,
}
