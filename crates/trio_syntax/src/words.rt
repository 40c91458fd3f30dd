//! Which words and symbols stand for what: each operator, relation and choice is a line.
use crate::tree::Quantifier;
use trio_base::{Ends, FarOp, OneOp, PairOp, Rel};
use trio_text::{Reserved, Symbol};

pub const REL_SIGNS: [(Symbol, Rel); 6] = [
    (Symbol::Eq, Rel::Eq),
    (Symbol::Ne, Rel::Ne),
    (Symbol::Lt, Rel::Lt),
    (Symbol::Le, Rel::Le),
    (Symbol::Gt, Rel::Gt),
    (Symbol::Ge, Rel::Ge),
];

/// Whether a part of a sum is taken off.
pub const ADDING_SIGNS: [(Symbol, bool); 2] = [(Symbol::Plus, false), (Symbol::Minus, true)];

/// Whether an arrow goes both ways.
pub const ARROW_SIGNS: [(Symbol, bool); 2] = [(Symbol::Arrow, false), (Symbol::Both, true)];

pub const TRUTH_WORDS: [(Reserved, bool); 2] = [(Reserved::False, false), (Reserved::True, true)];

pub const QUANTIFIER_WORDS: [(Reserved, Quantifier); 2] = [
    (Reserved::All, Quantifier::All),
    (Reserved::Ex, Quantifier::Ex),
];

/// Whether an item is an input.
pub const ITEM_WORDS: [(Reserved, bool); 2] = [(Reserved::Item, false), (Reserved::Input, true)];

/// Whether a claim is a goal.
pub const CLAIM_WORDS: [(Reserved, bool); 2] = [(Reserved::Axiom, false), (Reserved::Goal, true)];

pub const ONE_WORDS: [(Reserved, OneOp); 6] = [
    (Reserved::Alw, OneOp::Alw),
    (Reserved::AlwF, OneOp::AlwF),
    (Reserved::AlwP, OneOp::AlwP),
    (Reserved::Som, OneOp::Som),
    (Reserved::SomF, OneOp::SomF),
    (Reserved::SomP, OneOp::SomP),
];

pub const FAR_WORDS: [(Reserved, FarOp); 21] = [
    (Reserved::Dist, FarOp::Dist),
    (Reserved::Futr, FarOp::Futr),
    (Reserved::Past, FarOp::Past),
    (Reserved::NextTime, FarOp::NextTime),
    (Reserved::LastTime, FarOp::LastTime),
    (Reserved::Lasts, FarOp::Lasts(Ends::Bare)),
    (Reserved::LastsIi, FarOp::Lasts(Ends::Ii)),
    (Reserved::LastsIe, FarOp::Lasts(Ends::Ie)),
    (Reserved::LastsEi, FarOp::Lasts(Ends::Ei)),
    (Reserved::Lasted, FarOp::Lasted(Ends::Bare)),
    (Reserved::LastedIi, FarOp::Lasted(Ends::Ii)),
    (Reserved::LastedIe, FarOp::Lasted(Ends::Ie)),
    (Reserved::LastedEi, FarOp::Lasted(Ends::Ei)),
    (Reserved::WithinF, FarOp::WithinF(Ends::Bare)),
    (Reserved::WithinFIi, FarOp::WithinF(Ends::Ii)),
    (Reserved::WithinFIe, FarOp::WithinF(Ends::Ie)),
    (Reserved::WithinFEi, FarOp::WithinF(Ends::Ei)),
    (Reserved::WithinP, FarOp::WithinP(Ends::Bare)),
    (Reserved::WithinPIi, FarOp::WithinP(Ends::Ii)),
    (Reserved::WithinPIe, FarOp::WithinP(Ends::Ie)),
    (Reserved::WithinPEi, FarOp::WithinP(Ends::Ei)),
];

pub const PAIR_WORDS: [(Reserved, PairOp); 2] = [
    (Reserved::Until, PairOp::Until),
    (Reserved::Since, PairOp::Since),
];
