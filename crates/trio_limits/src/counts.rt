//! What is counted of a term and of a formula. A count above the greatest number of 64 bits stays there.

/// What is counted of a term.
#[derive(Clone, Copy)]
pub struct TermCounts {
    /// Its own static bound.
    pub own: u64,
    /// The greatest static bound of a term in it.
    pub most: u64,
    /// The most brackets that are open in its text.
    pub plain: u64,
    /// The same where it is a part of a sum.
    pub as_part: u64,
    /// The same where it is a factor.
    pub as_factor: u64,
}

impl TermCounts {
    ghost use Rattle.std.specs.Prelude.{◌≡◌, max};
    ghost use Rattle.trio_limits.specs.Counting.{leaf};

    /// Those of a term that has no parts and this bound.
    pub fn of_leaf(bound: u64) -> TermCounts
        ensures { result ≡ leaf bound }
    {
        TermCounts {
            own: bound,
            most: bound,
            plain: 0,
            as_part: 0,
            as_factor: 0,
        }
    }
}

/// What is counted of a formula.
#[derive(Clone, Copy)]
pub struct Counts {
    /// The greatest static bound of a term in it.
    pub bound: u64,
    /// How many instances it stands for at an instant.
    pub instances: u64,
    /// The most brackets that are open in its text.
    pub plain: u64,
    /// The same where it is a group of another.
    pub grouped: u64,
}

impl Counts {
    ghost use Rattle.std.specs.Prelude.{◌≡◌};
    ghost use Rattle.trio_limits.specs.Counting.{bracketed, unbracketed};

    /// Those of a formula that stands in brackets where it is a group.
    pub fn bracketed(bound: u64, instances: u64, plain: u64) -> Counts
        ensures { result ≡ bracketed bound instances plain }
    {
        Counts {
            bound,
            instances,
            plain,
            grouped: plain.saturating_add(1),
        }
    }

    /// Those of a formula that is its own group.
    pub fn unbracketed(bound: u64, instances: u64, plain: u64) -> Counts
        ensures { result ≡ unbracketed bound instances plain }
    {
        Counts {
            bound,
            instances,
            plain,
            grouped: plain,
        }
    }
}

/// What is counted of arguments.
#[derive(Clone, Copy)]
pub struct ArgumentCounts {
    /// The greatest static bound of a term in them.
    pub most: u64,
    /// The most brackets that are open in their text, with those round it.
    pub plain: u64,
}

/// What is counted of the parts of a sum.
#[derive(Clone, Copy)]
pub struct PartCounts {
    /// The sum of their static bounds.
    pub own: u64,
    /// The greatest static bound of a term in them.
    pub most: u64,
    /// The most brackets that are open in the text of a part.
    pub as_part: u64,
}

/// What is counted of the parts of a conjunction or disjunction.
#[derive(Clone, Copy)]
pub struct ListCounts {
    /// The greatest static bound of a term in them.
    pub bound: u64,
    /// The sum of their instances.
    pub instances: u64,
    /// The most brackets that are open in the text of a part as a group.
    pub grouped: u64,
}

/// What is counted of axioms or goals.
#[derive(Clone, Copy)]
pub struct ClaimCounts {
    /// The greatest static bound of a term in them.
    pub bound: u64,
    /// How many instances they stand for at all instants.
    pub instances: u64,
    /// The most brackets that are open in their text.
    pub plain: u64,
}
