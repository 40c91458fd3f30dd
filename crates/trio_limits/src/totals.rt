//! The six counts of a specification, and the first above its limit.

use trio_base::limits::{
    GREATEST_BOUND, MOST_CELLS, MOST_INSTANCES, MOST_ITEMS, MOST_OPEN, MOST_SIZES,
};
use trio_types::Which;

/// The counts that have limits. One above the greatest number of 64 bits stays there.
#[derive(Clone, Copy)]
pub struct Totals {
    pub items: u64,
    pub cells: u64,
    pub sizes: u64,
    pub bound: u64,
    pub instances: u64,
    pub nest: u64,
}

impl Totals {
    ghost use Rattle.std.specs.Prelude.{◌≡◌};
    ghost use Rattle.trio_limits.specs.Totals.{first_above};

    /// The first that is above its limit.
    pub fn first_above(&self) -> Option<(Which, u64)>
        ensures { result ≡ first_above self.now }
    {
        if self.items > u64::from(MOST_ITEMS) {
            Some((Which::Items, self.items))
        } else if self.cells > u64::from(MOST_CELLS) {
            Some((Which::Cells, self.cells))
        } else if self.sizes > u64::from(MOST_SIZES) {
            Some((Which::Sizes, self.sizes))
        } else if self.bound > GREATEST_BOUND {
            Some((Which::Bound, self.bound))
        } else if self.instances > u64::from(MOST_INSTANCES) {
            Some((Which::Instances, self.instances))
        } else if self.nest > u64::from(MOST_OPEN) {
            Some((Which::Nest, self.nest))
        } else {
            None
        }
    }
}
