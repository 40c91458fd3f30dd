//! Terms with their variables at their levels in the core.
ghost use Rattle.std.specs.Prelude.{◌≡◌, map, slice_get, IfOk};
ghost use Rattle.derived_ops.specs.Rewriting.{variable_at, renamed, minus, towards};
ghost use Rattle.derived_ops.specs.Terms.{part_of};

use crate::joint::Way;
use std::alloc::{AllocError, Global};
use trio_types::{Boxed, List, SignedTerm, SignedTerms, Term, Terms};

/// A copy with each variable at its level; only want of memory refuses it.
#[cycle(terms)]
pub fn renamed(alloc: Global, levels: &[u32], term: &Term) -> Result<Term, AllocError>
    ensures { IfOk result (λ made. made ≡ renamed levels.now term.now) }
{
    match term {
        Term::Number(number) => Ok(Term::Number(*number)),
        Term::Value(domain, index) => Ok(Term::Value(*domain, *index)),
        Term::Var(level) => Ok(variable(levels, *level)),
        Term::Read(item, arguments) => {
            let arguments = renamed_terms(alloc, levels, arguments.as_slice())?;
            Ok(Term::Read(*item, arguments))
        }
        Term::Sum(parts) => {
            let parts = renamed_parts(alloc, levels, parts.as_slice())?;
            Ok(Term::Sum(parts))
        }
        Term::Times(number, factor) => {
            let factor = renamed(alloc, levels, factor.get())?;
            let factor = Boxed::new(alloc, factor)?;
            Ok(Term::Times(*number, factor))
        }
    }
}

#[cycle(terms)]
fn renamed_terms(alloc: Global, levels: &[u32], terms: &[Term]) -> Result<Terms, AllocError>
    ensures { IfOk result (λ made. made ≡ map (renamed levels.now) terms.now) }
{
    let mut made = Vec::new(alloc);
    for term in terms {
        made.push(renamed(alloc, levels, term)?)?;
    }
    Ok(List::from_vec(made))
}

#[cycle(terms)]
fn renamed_parts(
    alloc: Global,
    levels: &[u32],
    parts: &[SignedTerm],
) -> Result<SignedTerms, AllocError>
    ensures { IfOk result (λ made. made ≡ map (part_of levels.now) parts.now) }
{
    let mut made = Vec::new(alloc);
    for part in parts {
        made.push(SignedTerm {
            minus: part.minus,
            term: renamed(alloc, levels, &part.term)?,
        })?;
    }
    Ok(List::from_vec(made))
}

/// A variable at its level, and 0 where no quantifier of its number is round.
fn variable(levels: &[u32], number: u32) -> Term
    ensures { result ≡ variable_at (slice_get levels.now number) }
{
    match levels.get(number as usize) {
        Some(level) => Term::Var(*level),
        None => Term::Number(0),
    }
}

/// The opposite of a term; only want of memory refuses it.
fn minus(alloc: Global, term: Term) -> Result<Term, AllocError>
    ensures { IfOk result (λ made. made ≡ minus term) }
{
    let parts = List::of_one(alloc, SignedTerm { minus: true, term })?;
    Ok(Term::Sum(parts))
}

/// The distance ahead or back; only want of memory refuses it.
pub fn towards(alloc: Global, way: Way, term: Term) -> Result<Term, AllocError>
    ensures { IfOk result (λ made. made ≡ towards way term) }
{
    match way {
        Way::Ahead => Ok(term),
        Way::Back => minus(alloc, term),
    }
}
