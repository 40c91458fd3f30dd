//! One step of a branch: it is closed, or it represents one table, or it is parted in two.
#![tactic(auto)]

mod decision;
mod fates;
mod fork;
pub mod laws;
mod leaf;
mod reads;
mod settlement;
mod shut;
mod stepping;
mod steps;
mod values;
mod why;

pub use fork::{Fork, ForkParts};
pub use leaf::{Leaf, LeafParts};
pub use shut::{Shut, ShutParts};
pub use stepping::{Stepped, step};
pub use steps::Steps;
pub use why::Why;
