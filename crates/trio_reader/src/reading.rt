//! Reads a text as its specification.

ghost use Rattle.std.specs.Prelude.{◌≡◌, true, Err, MatchResult};
ghost use Rattle.trio_syntax.specs.Shape.{is_formed};
ghost use Rattle.trio_reader.specs.Reading.{IsTreeText, IsTreeFault, IsSpecOf, IsAnswer};

use crate::building::claims_of;
use crate::fault::SpecFault;
use crate::kinds::first_wrong_kind;
use crate::ranges::first_out_of_range;
use crate::world::World;
use std::alloc::Global;
use trio_limits::{Draft, first_above_limit};
use trio_scope::{Scope, first_repeated, first_unknown};
use trio_syntax::{SpecTree, TreeFault, read_tree};
use trio_text::{LexFault, lexemes, tokens};
use trio_types::Spec;

/// The specification that a text is, or its first fault.
pub fn read_spec(alloc: Global, text: &[u8]) -> Result<Spec, SpecFault>
    ensures { IsAnswer text.now result }
{
    let tree = tree_of(alloc, text)?;
    let scope = Scope::new(alloc, &tree)?;
    spec_of(alloc, &scope)
}

/// The tree that a text is by the grammar alone, or the first fault that the grammar finds.
fn tree_of(alloc: Global, text: &[u8]) -> Result<SpecTree, SpecFault>
    ensures { MatchResult result (IsTreeText text.now) (λ fault. IsAnswer text.now (Err fault)) }
{
    let tokens = match tokens(alloc, text) {
        Ok(tokens) => tokens,
        Err(LexFault::Byte(place)) => return Err(SpecFault::Lex(place)),
        Err(LexFault::Memory) => return Err(SpecFault::Memory),
    };
    let lexemes = lexemes(alloc, text, &tokens)?;
    match read_tree(alloc, lexemes.as_slice()) {
        Ok(tree) => Ok(tree),
        Err(TreeFault::Deep(place)) => Err(SpecFault::Deep(place as u64)),
        Err(TreeFault::Syntax(place)) => Err(SpecFault::Syntax(place as u64)),
        Err(TreeFault::Memory) => Err(SpecFault::Memory),
    }
}

/// The specification that a tree is, or the first fault of the phases over trees.
fn spec_of(alloc: Global, scope: &Scope<'_>) -> Result<Spec, SpecFault>
    requires { is_formed scope.now.tree.now ≡ true }
    ensures { MatchResult result (IsSpecOf scope.now.tree.now) (IsTreeFault scope.now.tree.now) }
{
    if let Some(place) = first_unknown(alloc, scope)? {
        return Err(SpecFault::Unknown(place as u64));
    }
    if let Some(place) = first_repeated(alloc, scope)? {
        return Err(SpecFault::Twice(place as u64));
    }
    let world = World::new(alloc, scope)?;
    if let Some(place) = first_wrong_kind(alloc, &world)? {
        return Err(SpecFault::Kind(place as u64));
    }
    if let Some(place) = first_out_of_range(alloc, scope.tree)? {
        return Err(SpecFault::Range(place as u64));
    }
    let draft = Draft {
        instants: scope.tree.instants.number,
        domains: world.domains,
        items: world.items,
        axioms: claims_of(alloc, scope, false)?,
        goals: claims_of(alloc, scope, true)?,
    };
    if let Some((which, count)) = first_above_limit(alloc, &draft)? {
        return Err(SpecFault::Limit(which, count));
    }
    Ok(Spec {
        instants: draft.instants,
        domains: draft.domains,
        items: draft.items,
        axioms: draft.axioms,
        goals: draft.goals,
    })
}
