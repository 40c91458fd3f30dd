//! Names that are declared twice.

ghost use Rattle.std.specs.Prelude.{◌≡◌, IfOk};
ghost use Rattle.trio_scope.specs.Places.{least};
ghost use Rattle.trio_scope.specs.Names.{declarations};
ghost use Rattle.trio_scope.specs.Scope.{twice_finding, repeated_places};

use crate::place::{earlier, unless};
use crate::scope::Scope;
use crate::unknown::is_variable;
use crate::walk::{Binder, Role, Rule, first_in_claims};
use std::alloc::{AllocError, Global};
use trio_base::Rel;
use trio_syntax::{Mention, RefTree, TermTree};

/// The first declaration whose name an earlier one has, or variable whose name is declared anywhere or that of a variable round it; only want
/// of memory refuses it.
pub fn first_repeated(alloc: Global, scope: &Scope<'_>) -> Result<Option<usize>, AllocError>
    ensures { IfOk result (λ first. first ≡ least (repeated_places scope.now.tree.now)) }
{
    let in_claims = first_in_claims(alloc, &Single { scope }, scope.tree)?;
    Ok(earlier(scope.repeated(), in_claims))
}

/// The rule that each variable has a name of its own.
#[derive(Clone, Copy, Drop)]
struct Single<'a> {
    scope: &'a Scope<'a>,
}

impl Rule for Single<'_> {
    ghost finding = { λ s. twice_finding (declarations s.scope.now.tree.now) };

    fn term(
        &self,
        _around: &[Binder<'_>],
        _role: Role,
        _inside: bool,
        _term: &TermTree,
    ) -> Option<usize> {
        None
    }

    fn compared(
        &self,
        _around: &[Binder<'_>],
        _rel: Rel,
        _place: usize,
        _left: &TermTree,
        _right: &TermTree,
    ) -> Option<usize> {
        None
    }

    fn variable(
        &self,
        around: &[Binder<'_>],
        variable: &Mention,
        _domain: &RefTree,
    ) -> Option<usize> {
        let taken = self.scope.is_declared(&variable.name) || is_variable(around, &variable.name);
        unless(!taken, variable.place)
    }
}
