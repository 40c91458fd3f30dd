//! Tests that cross crates, on specifications and histories that are made from a stated number.
#![tactic(auto)]

#[cfg(test)]
mod tests;
