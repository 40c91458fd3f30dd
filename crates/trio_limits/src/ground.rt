//! What counts stand on: instants, domains with their sizes and bounds, and items.

ghost use Rattle.std.specs.Prelude.{◌≡◌, true};
ghost use Rattle.std.specs.List.{list_all};
ghost use Rattle.trio_types.specs.WellFormed.{values_fit};

use crate::sizes::{element, kind_bound, kind_size};
use trio_types::{Domain, Item};

/// Instants, domains and items. Each domain has 1 to 64 values.
#[derive(Clone, Copy, Drop)]
pub struct Ground<'a> {
    pub instants: u32,
    pub domains: &'a [Domain],
    pub items: &'a [Item],
    ghost fit: { list_all (λ domain. values_fit domain.kind) domains.now ≡ true },
}

impl Ground<'_> {
    ghost use Rattle.std.specs.Prelude.{◌≡◌, ◌≤◌, slice_get};
    ghost use Rattle.trio_types.specs.World.{size_of};
    ghost use Rattle.trio_types.specs.Bounds.{domain_bound, item_bound, variable_bound};
    ghost use Rattle.trio_limits.specs.Ground.{world_of_ground};

    /// How many values the domain of this number has.
    pub fn size_of(&self, domain: u32) -> u64
        ensures is { result ≡ size_of self.now.domains.now domain }
        ensures few { result ≤ 64 }
    {
        match element(self.domains, domain as usize) {
            Some(found) => kind_size(&found.kind),
            None => 0,
        }
    }

    /// The greatest absolute value of the domain of this number.
    pub fn bound_of(&self, domain: u32) -> u64
        ensures is { result ≡ domain_bound (world_of_ground self.now) domain }
        ensures small { result ≤ 18446744073709551615 }
    {
        match element(self.domains, domain as usize) {
            Some(found) => kind_bound(&found.kind),
            None => 0,
        }
    }

    /// The greatest absolute value of the item of this number.
    pub fn item_bound(&self, item: u32) -> u64
        ensures is { result ≡ item_bound (world_of_ground self.now) (slice_get self.now.items.now item) }
        ensures small { result ≤ 18446744073709551615 }
    {
        match element(self.items, item as usize) {
            Some(found) => self.bound_of(found.value),
            None => 0,
        }
    }

    /// The greatest absolute value of the variable at a level, where these are the domains of variables.
    pub fn variable_bound(&self, variables: &[u32], level: u32) -> u64
        ensures is { result ≡ variable_bound (world_of_ground self.now) (slice_get variables.now level) }
        ensures small { result ≤ 18446744073709551615 }
    {
        match element(variables, level as usize) {
            Some(domain) => self.bound_of(*domain),
            None => 0,
        }
    }
}
