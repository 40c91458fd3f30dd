//! Regions, which account for every model of a branch, and what is put together from them.
#![tactic(auto)]

mod assembling;
mod joining;
pub mod laws;
mod pool;
mod region;
mod sorting;

pub use assembling::{Assembled, assemble};
pub use region::{Region, RegionParts, Regions};
pub use sorting::sort_tables;
