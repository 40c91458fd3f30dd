//! Wants and branches.
use crate::env::Env;
use trio_core::Doms;
use trio_types::List;

/// That a node, taken from an index, is true or false at an instant under values of the variables round it.
#[derive(Drop)]
pub struct Want {
    /// The node's number.
    pub node: u32,
    /// The instant.
    pub now: u32,
    /// The values of the quantifiers round the node.
    pub env: Env,
    /// Whether it is to be true.
    pub sign: bool,
    /// The index of the first value over which an Exists node still ranges, and 0 for another node.
    pub from: u32,
}

/// Wants, each of which is to hold.
pub type Wants = List<Want>;

/// Sets of values and wants: it represents the models whose values lie in the sets and in which every want holds.
#[derive(Drop)]
pub struct Branch {
    pub doms: Doms,
    pub wants: Wants,
}

/// Branches, in order.
pub type Branches = List<Branch>;
