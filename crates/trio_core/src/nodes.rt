//! Nodes, and the core that they make.
ghost use Rattle.std.specs.Prelude.{IsTrue};
ghost use Rattle.trio_core.specs.CoreShape.{is_core};

use trio_types::{Domains, Items, List, Rel, Term};

/// The most Exists nodes that stand round a node: an array of as many numbers holds every environment.
pub const MOST_ROUND: u32 = 200;

/// A node: a formula whose parts are nodes that stand before it, each by its number.
#[derive(Drop)]
pub enum Node {
    /// Two terms, true where both have a value and the values stand in the relation.
    Atom(Rel, Term, Term),
    Not(u32),
    And(u32, u32),
    Or(u32, u32),
    /// True where the part is for some whole number from the first to the second, as one more variable.
    Exists(i64, i64, u32),
    /// True where the part is at the instant at this distance, if it is inside time.
    Dist(u32, Term),
}

pub type Nodes = List<Node>;

/// A node that has to hold, at every instant or at one.
#[derive(Clone, Copy)]
pub struct Root {
    pub node: u32,
    /// The one instant, where there is one.
    pub at: Option<u32>,
}

pub type Roots = List<Root>;

/// Nodes and roots over the instants, domains and items of a specification.
#[derive(Drop)]
pub struct Core {
    pub instants: u32,
    pub domains: Domains,
    pub items: Items,
    pub nodes: Nodes,
    pub roots: Roots,
    pub ghost shaped: { IsTrue (is_core (record { instants = instants; domains = domains; items = items; nodes = nodes; roots = roots })) },
}

/// Truth, or that it is not known.
#[derive(Clone, Copy, Debug, PartialEq, Eq)]
pub enum Three {
    False,
    Unknown,
    True,
}

/// What is known of a value.
#[derive(Clone, Copy)]
pub enum Known<T> {
    /// There is none.
    Nothing,
    /// It is one of several.
    Several,
    /// It is this one.
    One(T),
}
