//! Lists as multisets, and lists in order.
#![tactic(auto)]

pub mod laws;
