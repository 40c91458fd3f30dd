//! Names that are used and not declared before.

ghost use Rattle.std.specs.Prelude.{◌≡◌, [], IfOk};
ghost use Rattle.std.specs.List.{flat_map};
ghost use Rattle.trio_scope.specs.Places.{least, unless};
ghost use Rattle.trio_scope.specs.Gather.{variables_from};
ghost use Rattle.trio_scope.specs.Names.{declarations, declared_of};
ghost use Rattle.trio_scope.specs.Scope.{is_known, unknown_among, unknown_finding, names_of_ref, refs_of, unknown_places};
ghost use Rattle.trio_scope.specs.Scope as spec;

use crate::place::{earlier, unless};
use crate::scope::Scope;
use crate::walk::{Binder, Role, Rule, first_in_claims};
use std::alloc::{AllocError, Global};
use trio_base::{Name, Rel};
use trio_syntax::{DeclarationTree, Mention, RefTree, TermShape, TermTree};

/// The first name that is used and not declared before its use; only want of memory refuses it.
pub fn first_unknown(alloc: Global, scope: &Scope<'_>) -> Result<Option<usize>, AllocError>
    ensures { IfOk result (λ first. first ≡ least (unknown_places scope.now.tree.now)) }
{
    let in_claims = first_in_claims(alloc, &Known { scope }, scope.tree)?;
    Ok(earlier(first_in_statements(scope), in_claims))
}

fn first_in_statements(scope: &Scope<'_>) -> Option<usize>
    ensures { result ≡ least (flat_map (λ s. flat_map (λ r. unknown_among (declarations scope.now.tree.now) [] (names_of_ref r)) (refs_of s)) scope.now.tree.now.declarations) }
{
    let mut first = None;
    for statement in scope.tree.declarations.as_slice() {
        first = earlier(first, first_in_statement(scope, statement));
    }
    first
}

fn first_in_statement(scope: &Scope<'_>, statement: &DeclarationTree) -> Option<usize>
    ensures { result ≡ least (flat_map (λ r. unknown_among (declarations scope.now.tree.now) [] (names_of_ref r)) (refs_of statement.now)) }
{
    match statement {
        DeclarationTree::Domain(_) => None,
        DeclarationTree::Item(item) => {
            let arguments = first_in_refs(scope, item.args.as_slice());
            earlier(arguments, first_in_ref(scope, &[], &item.value))
        }
    }
}

fn first_in_refs(scope: &Scope<'_>, refs: &[RefTree]) -> Option<usize>
    ensures { result ≡ least (flat_map (λ r. unknown_among (declarations scope.now.tree.now) [] (names_of_ref r)) refs.now) }
{
    let mut first = None;
    for domain in refs {
        first = earlier(first, first_in_ref(scope, &[], domain));
    }
    first
}

fn first_in_ref(scope: &Scope<'_>, around: &[Binder<'_>], domain: &RefTree) -> Option<usize>
    ensures { result ≡ least (unknown_among (declarations scope.now.tree.now) (variables_from around.now) (names_of_ref domain.now)) }
{
    match domain {
        RefTree::Bool => None,
        RefTree::Named(mention) => first_at(scope, around, mention),
    }
}

/// The place of a name, where it is not known.
fn first_at(scope: &Scope<'_>, around: &[Binder<'_>], mention: &Mention) -> Option<usize>
    ensures { result ≡ least (unless (is_known (declarations scope.now.tree.now) (variables_from around.now) mention.now) mention.now.place) }
{
    let known = is_variable(around, &mention.name) || stands_before(scope, mention);
    unless(known, mention.place)
}

fn stands_before(scope: &Scope<'_>, mention: &Mention) -> bool
    ensures { result ≡ spec.stands_before (declared_of (declarations scope.now.tree.now) mention.now.name) mention.now.place }
{
    match scope.declared(&mention.name) {
        Some(declared) => declared.place < mention.place,
        None => false,
    }
}

/// Whether a name is that of one of these variables.
pub fn is_variable(around: &[Binder<'_>], name: &Name) -> bool
    ensures { result ≡ spec.is_variable (variables_from around.now) name.now }
{
    around
        .iter()
        .any(|binder| binder.variable.name.as_str() == name.as_str())
}

/// The rule that each name is known.
#[derive(Clone, Copy, Drop)]
struct Known<'a> {
    scope: &'a Scope<'a>,
}

impl Rule for Known<'_> {
    ghost finding = { λ s. unknown_finding (declarations s.scope.now.tree.now) };

    fn term(
        &self,
        around: &[Binder<'_>],
        _role: Role,
        _inside: bool,
        term: &TermTree,
    ) -> Option<usize> {
        match &term.shape {
            TermShape::Named(mention) => first_at(self.scope, around, mention),
            TermShape::Call(mention, _) => first_at(self.scope, around, mention),
            _ => None,
        }
    }

    fn compared(
        &self,
        _around: &[Binder<'_>],
        _rel: Rel,
        _place: usize,
        _left: &TermTree,
        _right: &TermTree,
    ) -> Option<usize> {
        None
    }

    fn variable(
        &self,
        around: &[Binder<'_>],
        _variable: &Mention,
        domain: &RefTree,
    ) -> Option<usize> {
        first_in_ref(self.scope, around, domain)
    }
}
