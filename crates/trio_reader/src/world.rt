//! The domains and items that a tree declares.

ghost use Rattle.trio_reader.specs.Erasure.{world_of_tree};
ghost use Rattle.std.specs.Prelude.{◌≡◌};

use crate::declaring::{domains_of, items_of};
use std::alloc::{AllocError, Global};
use trio_scope::Scope;
use trio_types::{Domains, Items};

/// What the formulas of a tree speak of.
#[derive(Drop)]
pub struct World<'a> {
    pub scope: &'a Scope<'a>,
    pub domains: Domains,
    pub items: Items,
    ghost has_domains: { domains ≡ (world_of_tree scope.now.tree.now).domains },
    ghost has_items: { items ≡ (world_of_tree scope.now.tree.now).items },
}

impl<'a> World<'a> {
    ghost use Rattle.std.specs.Prelude.{◌≡◌, IfOk};

    /// What a tree declares; only want of memory refuses it.
    pub fn new(alloc: Global, scope: &'a Scope<'a>) -> Result<World<'a>, AllocError>
        ensures { IfOk result (λ world. world.scope.now.tree.now ≡ scope.now.tree.now) }
    {
        let domains = domains_of(alloc, scope.tree.declarations.as_slice())?;
        let items = items_of(alloc, scope, scope.tree.declarations.as_slice())?;
        Ok(World {
            scope,
            domains,
            items,
        })
    }
}
