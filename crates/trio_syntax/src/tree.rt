//! The trees of specification texts. A place is the number of a token, from 0.
use sqlite_items::Boxed;
use trio_base::{FarOp, List, Name, OneOp, PairOp, Rel};

/// A name as it is written, with its place.
#[derive(Drop)]
pub struct Mention {
    pub name: Name,
    pub place: usize,
}

/// A number as it is written, with its place.
#[derive(Clone, Copy)]
pub struct Written {
    pub number: u32,
    pub place: usize,
}

/// An occurrence of a term, with the place of its first token: that of the `[` where it stands in brackets.
#[cycle(term)]
#[derive(Drop)]
pub struct TermTree {
    pub place: usize,
    pub shape: TermShape,
}

/// What a term is. Brackets leave no trace.
#[cycle(term)]
#[derive(Drop)]
pub enum TermShape {
    Number(Written),
    /// `false` or `true`.
    Truth(bool),
    /// A name alone.
    Named(Mention),
    /// A name with arguments, one or more.
    Call(Mention, List<TermTree>),
    /// Parts with their signs: one with `-`, or two and more.
    Sum(List<PartTree>),
    /// A number `*` a factor.
    Times(Written, Boxed<TermTree>),
}

/// A part of a sum, with `-` before it or without; the term's place is that of the first token behind the sign.
#[cycle(term)]
#[derive(Drop)]
pub struct PartTree {
    pub minus: bool,
    pub term: TermTree,
}

/// What an argument, a value or a variable ranges over: `bool`, or the domain of a name.
#[derive(Drop)]
pub enum RefTree {
    Bool,
    Named(Mention),
}

/// Whether a formula is to hold for all values or for some.
#[derive(Clone, Copy)]
pub enum Quantifier {
    All,
    Ex,
}

/// A formula as it is written. Brackets leave no trace.
#[derive(Drop)]
pub enum FormulaTree {
    /// A term alone.
    Lone(TermTree),
    /// A relation of two terms, with its place.
    Compare(Rel, usize, TermTree, TermTree),
    Not(Boxed<FormulaTree>),
    /// Two parts or more.
    And(List<FormulaTree>),
    /// Two parts or more.
    Or(List<FormulaTree>),
    Implies(Boxed<FormulaTree>, Boxed<FormulaTree>),
    Iff(Boxed<FormulaTree>, Boxed<FormulaTree>),
    /// A formula for all or some values of a variable.
    Quantified(Quantifier, Mention, RefTree, Boxed<FormulaTree>),
    /// An operator on one formula.
    One(OneOp, Boxed<FormulaTree>),
    /// An operator on a formula and a distance.
    Far(FarOp, Boxed<FormulaTree>, TermTree),
    /// An operator on two formulas.
    Pair(PairOp, Boxed<FormulaTree>, Boxed<FormulaTree>),
}

/// A number with `-` before it or without.
#[derive(Clone, Copy)]
pub struct IntTree {
    pub minus: bool,
    pub number: Written,
}

/// The values of a domain: from the one number to the other, or words.
#[derive(Drop)]
pub enum ValuesTree {
    Range(IntTree, IntTree),
    Words(List<Mention>),
}

/// The declaration of a domain.
#[derive(Drop)]
pub struct DomainTree {
    pub name: Mention,
    pub values: ValuesTree,
}

/// The declaration of an item, with what its arguments range over.
#[derive(Drop)]
pub struct ItemTree {
    pub input: bool,
    pub name: Mention,
    pub args: List<RefTree>,
    pub value: RefTree,
}

/// A declaration of a domain or of an item.
#[derive(Drop)]
pub enum DeclarationTree {
    Domain(DomainTree),
    Item(ItemTree),
}

/// An axiom or a goal, with the number behind `at`.
#[derive(Drop)]
pub struct ClaimTree {
    pub goal: bool,
    pub name: Mention,
    pub at: Option<Written>,
    pub formula: FormulaTree,
}

/// A specification as it is written.
#[derive(Drop)]
pub struct SpecTree {
    pub instants: Written,
    pub declarations: List<DeclarationTree>,
    pub claims: List<ClaimTree>,
}
