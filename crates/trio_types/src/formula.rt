//! Terms and formulas.
use sqlite_items::Boxed;
use trio_base::{FarOp, List, Name, OneOp, PairOp, Rel};

/// A term: what atoms compare, and what distances and arguments are.
#[cycle(term)]
#[derive(Drop)]
pub enum Term {
    /// A whole number.
    Number(u32),
    /// A value of `bool` or of a list of words, by the domain's number and the value's index: `false` and `true` are 0 and 1 of domain 0.
    Value(u32, u32),
    /// A quantified variable, by the number of quantifiers that stand around its own.
    Var(u32),
    /// An item, by its number, read with these arguments at the current instant.
    Read(u32, Terms),
    /// A sum of parts, each with its sign.
    Sum(SignedTerms),
    /// A number times a term.
    Times(u32, Boxed<Term>),
}

/// A part of a sum, and whether it is subtracted.
#[cycle(term)]
#[derive(Drop)]
pub struct SignedTerm {
    pub minus: bool,
    pub term: Term,
}

pub type Terms = List<Term>;

pub type SignedTerms = List<SignedTerm>;

/// A formula, true or false at each instant.
#[derive(Drop)]
pub enum Formula {
    /// A term of kind bool, true where its value is 1.
    Lone(Term),
    /// Two terms of one kind, true where their values stand in the relation.
    Compare(Rel, Term, Term),
    Not(Boxed<Formula>),
    /// True where each part is; it has two parts or more.
    And(Formulas),
    /// True where a part is; it has two parts or more.
    Or(Formulas),
    Implies(Boxed<Formula>, Boxed<Formula>),
    Iff(Boxed<Formula>, Boxed<Formula>),
    /// True where the formula is for each value of the domain of this number, as the variable of this name.
    All(Name, u32, Boxed<Formula>),
    /// True where the formula is for some value of the domain of this number, as the variable of this name.
    Ex(Name, u32, Boxed<Formula>),
    /// An operator on one formula.
    One(OneOp, Boxed<Formula>),
    /// An operator on a formula and a distance.
    Far(FarOp, Boxed<Formula>, Term),
    /// An operator on two formulas.
    Pair(PairOp, Boxed<Formula>, Boxed<Formula>),
}

pub type Formulas = List<Formula>;
