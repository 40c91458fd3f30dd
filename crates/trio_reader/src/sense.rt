//! What names stand for in terms and where domains are named.

ghost use Rattle.std.specs.Prelude.{◌≡◌};
ghost use Rattle.trio_scope.specs.Gather.{variables_from};
ghost use Rattle.trio_reader.specs.Erasure as spec;

use trio_base::Name;
use trio_scope::{Binder, Meaning, Scope, level_of};
use trio_syntax::RefTree;

/// What a name stands for in a term.
#[derive(Clone, Copy)]
pub enum Sense {
    /// A variable, by its level.
    Variable(usize),
    /// A word: its domain's number, and its index.
    Word(u32, u32),
    /// The item of this number; the number of items stands for none.
    Item(u32),
}

impl Sense {
    /// The item that a name with arguments reads; the number of items stands for none.
    pub fn item(self, none: u32) -> u32
        ensures { result ≡ spec.sense_item none self }
    {
        match self {
            Sense::Item(number) => number,
            _ => none,
        }
    }
}

/// What a name stands for in a term, under these variables.
pub fn sense_of(scope: &Scope<'_>, around: &[Binder<'_>], name: &Name) -> Sense
    ensures { result ≡ spec.sense_of scope.now.tree.now (variables_from around.now) name.now }
{
    if let Some(level) = level_of(around, name) {
        return Sense::Variable(level);
    }
    match meaning_of(scope, name) {
        Some(Meaning::Word(domain, index)) => Sense::Word(domain, index),
        Some(Meaning::Item(number)) => Sense::Item(number),
        _ => Sense::Item(scope.items()),
    }
}

/// The number of the domain that is named; where the name is none of a domain, the number of domains.
pub fn domain_of(scope: &Scope<'_>, domain: &RefTree) -> u32
    ensures { result ≡ spec.domain_of scope.now.tree.now domain.now }
{
    match domain {
        RefTree::Bool => 0,
        RefTree::Named(mention) => match meaning_of(scope, &mention.name) {
            Some(Meaning::Domain(number)) => number,
            _ => scope.domains(),
        },
    }
}

/// What a name was declared as.
fn meaning_of(scope: &Scope<'_>, name: &Name) -> Option<Meaning>
    ensures { result ≡ spec.meaning_of scope.now.tree.now name.now }
{
    match scope.declared(name) {
        Some(declared) => Some(declared.meaning),
        None => None,
    }
}
