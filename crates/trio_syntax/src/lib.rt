//! The grammar of specification texts: trees that know the places of their tokens, and their exact reader.
#![tactic(auto)]

mod depth;
mod fault;
mod formula;
mod laws;
mod parser;
mod reader;
mod refusal;
mod statement;
mod steps;
mod term;
mod tree;
mod words;

pub use fault::TreeFault;
pub use laws::{
    faulty_tokens_are_no_tree, tokens_are_one_tree, tokens_have_a_tree_or_a_fault,
    tokens_have_one_fault, trees_are_formed,
};
pub use reader::read_tree;
pub use tree::{
    ClaimTree, DeclarationTree, DomainTree, FormulaTree, IntTree, ItemTree, Mention, PartTree,
    Quantifier, RefTree, SpecTree, TermShape, TermTree, ValuesTree, Written,
};
