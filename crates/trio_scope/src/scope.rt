//! The names of a text, with what they stand for.

ghost use Rattle.trio_scope.specs.Table.{TellsAll};

use crate::meaning::Declared;
use crate::names::Names;
use std::alloc::{AllocError, Global};
use trio_base::Name;
use trio_syntax::SpecTree;

/// A tree with the first declaration of each name, and how many domains and items it declares.
#[derive(Drop)]
pub struct Scope<'a> {
    pub tree: &'a SpecTree,
    names: Names<'a>,
    ghost exact: { TellsAll names tree.now },
}

impl<'a> Scope<'a> {
    ghost use Rattle.std.specs.Prelude.{◌≡◌, ◌+◌, ◌<◌, ◌^◌, length, IfOk, [], ◌∷◌};
    ghost use Rattle.trio_scope.specs.Places.{least};
    ghost use Rattle.trio_scope.specs.Names.{declarations, domains_in, items_in, declared_of, is_declared, repeated_behind};

    /// The names that a tree declares; only want of memory refuses it, or more domains, items or words than are numbered.
    pub fn new(alloc: Global, tree: &'a SpecTree) -> Result<Scope<'a>, AllocError>
        ensures { IfOk result (λ scope. scope.tree.now ≡ tree.now) }
    {
        let mut names = Names::new(alloc);
        names.statements(tree.declarations.as_slice())?;
        names.claims(tree.claims.as_slice())?;
        Ok(Scope { tree, names })
    }

    /// The first declaration of a name.
    pub fn declared(&self, name: &Name) -> Option<Declared>
        ensures { result ≡ declared_of (declarations self.now.tree.now) name.now }
    {
        self.names.declared(name.as_str())
    }

    /// Whether a name is declared.
    pub fn is_declared(&self, name: &Name) -> bool
        ensures { result ≡ is_declared (declarations self.now.tree.now) name.now }
    {
        self.declared(name).is_some()
    }

    /// How many domains there are, `bool` among them.
    pub fn domains(&self) -> u32
        ensures { result ≡ 1 + length (domains_in self.now.tree.now.declarations) }
    {
        self.names.domains
    }

    /// How many items there are.
    pub fn items(&self) -> u32
        ensures { result ≡ length (items_in self.now.tree.now.declarations) }
    {
        self.names.items
    }

    /// The first declaration whose name an earlier one has.
    pub fn repeated(&self) -> Option<usize>
        ensures { result ≡ least (repeated_behind [] (declarations self.now.tree.now)) }
    {
        self.names.repeated
    }
}
