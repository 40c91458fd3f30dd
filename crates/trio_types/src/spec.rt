//! Specifications, with their domains, items, axioms and goals.
ghost use Rattle.trio_types.specs.Parts.{declarations_of};
ghost use Rattle.trio_types.specs.WellFormed.{is_well_formed};
ghost use Rattle.std.specs.Prelude.{IsTrue};

use crate::formula::Formula;
use trio_base::{List, Name};

/// Numbers of domains or of other things that are numbered from 0.
pub type Ids = List<u32>;

pub type Names = List<Name>;

/// The values of a domain; there are 1 to 64. The index of a value is its place from 0.
#[derive(Drop)]
pub enum DomainKind {
    /// `false` and `true`, with the indexes 0 and 1.
    Bool,
    /// The whole numbers from the first to the second.
    Range(i64, i64),
    /// Words.
    Words(Names),
}

/// A domain with its name.
#[derive(Drop)]
pub struct Domain {
    pub name: Name,
    pub kind: DomainKind,
}

pub type Domains = List<Domain>;

/// A time-dependent item: for each tuple of its arguments and each instant it has a value.
#[derive(Drop)]
pub struct Item {
    pub name: Name,
    /// Whether it was declared as an input.
    pub input: bool,
    /// The domains of its arguments, 0 to 4.
    pub args: Ids,
    /// The domain of its values.
    pub value: u32,
}

pub type Items = List<Item>;

/// A formula that has to hold, at every instant or at one.
#[derive(Drop)]
pub struct Axiom {
    pub name: Name,
    /// The one instant, where there is one.
    pub at: Option<u32>,
    pub formula: Formula,
}

pub type Axioms = List<Axiom>;

pub type Goal = Axiom;

/// A specification. Instants are `0..instants`. Domain 0 is `bool`.
#[derive(Drop)]
pub struct Spec {
    pub instants: u32,
    pub domains: Domains,
    pub items: Items,
    pub axioms: Axioms,
    pub goals: Axioms,
    pub ghost well_formed: { IsTrue (is_well_formed (record { instants = instants; domains = domains; items = items; axioms = axioms; goals = goals })) },
}

/// The instants, domains and items of a specification.
#[derive(Clone, Copy)]
pub struct Declarations<'a> {
    pub instants: u32,
    pub domains: &'a Domains,
    pub items: &'a Items,
    pub ghost formed: { IsTrue (is_well_formed (declarations_of (record { instants = instants; domains = domains.now; items = items.now }))) },
}

/// What is counted of a specification, and has a limit.
#[derive(Clone, Copy, Debug)]
pub enum Which {
    /// The items.
    Items,
    /// The cells.
    Cells,
    /// The values that all cells can have, added up.
    Sizes,
    /// The greatest static bound of a term.
    Bound,
    /// The instance count.
    Instances,
    /// The most brackets `(` and `[` that are open at a token of the canonical text.
    Nest,
}
