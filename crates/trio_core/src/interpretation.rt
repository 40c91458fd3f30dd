//! What terms and nodes are read under.
use crate::nodes::Core;

/// A core, sets that fit it, and the values of the variables, those of the outermost Exists first.
#[derive(Clone, Copy)]
pub struct Interpretation<'a> {
    pub core: &'a Core,
    pub doms: &'a [u64],
    pub values: &'a [i64],
}
