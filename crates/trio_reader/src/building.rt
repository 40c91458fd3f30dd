//! Terms, formulas and claims of a specification from those of a tree.

ghost use Rattle.std.specs.Prelude.{◌≡◌, map, IfOk, OnOk};
ghost use Rattle.std.specs.Option.{option_map};
ghost use Rattle.trio_scope.specs.Gather.{variables_from};
ghost use Rattle.trio_reader.specs.Erasure.{sense_term, quantified_from, part_from, claims_from};
ghost use Rattle.trio_reader.specs.Erasure as spec;

use crate::sense::{Sense, domain_of, sense_of};
use sqlite_items::Boxed;
use std::alloc::{AllocError, Global};
use trio_scope::{Binder, Scope};
use trio_syntax::{ClaimTree, FormulaTree, PartTree, Quantifier, TermShape, TermTree, Written};
use trio_types::{
    Axiom, Axioms, Formula, Formulas, List, Rel, SignedTerm, SignedTerms, Term, Terms,
};

/// The axioms of a tree, or its goals; only want of memory refuses them.
pub fn claims_of(alloc: Global, scope: &Scope<'_>, goals: bool) -> Result<Axioms, AllocError>
    ensures { IfOk result (λ made. made ≡ claims_from scope.now.tree.now goals scope.now.tree.now.claims) }
{
    let mut around = Vec::new(alloc);
    let mut made = Vec::new(alloc);
    for claim in scope.tree.claims.as_slice() {
        if is_wanted(goals, claim) {
            made.push(Axiom {
                name: claim.name.name.copy(alloc)?,
                at: instant_of(&claim.at),
                formula: formula_of(alloc, scope, &mut around, &claim.formula)?,
            })?;
        }
    }
    Ok(List::from_vec(made))
}

/// Whether a claim is a goal, or an axiom.
fn is_wanted(goals: bool, claim: &ClaimTree) -> bool
    ensures { result ≡ spec.is_wanted goals claim.now }
{
    if goals { claim.goal } else { !claim.goal }
}

fn instant_of(at: &Option<Written>) -> Option<u32>
    ensures { result ≡ option_map (λ k. k.number) at.now }
{
    match at {
        Some(at) => Some(at.number),
        None => None,
    }
}

#[cycle(building)]
fn formula_of<'a>(
    alloc: Global,
    scope: &Scope<'_>,
    around: &mut Vec<Binder<'a>>,
    formula: &'a FormulaTree,
) -> Result<Formula, AllocError>
    ensures made { IfOk result (λ made. made ≡ spec.formula_of scope.now.tree.now formula.now (variables_from around.old.items)) }
    ensures kept { OnOk result (around.new.items ≡ around.old.items) }
{
    match formula {
        FormulaTree::Lone(term) => lone_of(alloc, scope, around.as_slice(), term),
        FormulaTree::Compare(rel, _, left, right) => {
            compared_of(alloc, scope, around.as_slice(), *rel, left, right)
        }
        FormulaTree::Not(part) => Ok(Formula::Not(boxed_of(alloc, scope, around, part.get())?)),
        FormulaTree::And(parts) => {
            Ok(Formula::And(formulas_of(alloc, scope, around, parts.as_slice())?))
        }
        FormulaTree::Or(parts) => {
            Ok(Formula::Or(formulas_of(alloc, scope, around, parts.as_slice())?))
        }
        FormulaTree::Implies(left, right) => {
            let left = boxed_of(alloc, scope, around, left.get())?;
            let (left, right) = behind_of(alloc, scope, around, right.get(), left)?;
            Ok(Formula::Implies(left, right))
        }
        FormulaTree::Iff(left, right) => {
            let left = boxed_of(alloc, scope, around, left.get())?;
            let (left, right) = behind_of(alloc, scope, around, right.get(), left)?;
            Ok(Formula::Iff(left, right))
        }
        FormulaTree::Quantified(quantifier, variable, domain, body) => {
            let binder = Binder { variable, domain };
            quantified_of(alloc, scope, around, *quantifier, binder, body.get())
        }
        FormulaTree::One(op, part) => {
            Ok(Formula::One(*op, boxed_of(alloc, scope, around, part.get())?))
        }
        FormulaTree::Far(op, part, distance) => {
            let part = boxed_of(alloc, scope, around, part.get())?;
            let distance = term_of(alloc, scope, around.as_slice(), distance)?;
            Ok(Formula::Far(*op, part, distance))
        }
        FormulaTree::Pair(op, left, right) => {
            let left = boxed_of(alloc, scope, around, left.get())?;
            let (left, right) = behind_of(alloc, scope, around, right.get(), left)?;
            Ok(Formula::Pair(*op, left, right))
        }
    }
}

/// A term alone.
fn lone_of(
    alloc: Global,
    scope: &Scope<'_>,
    around: &[Binder<'_>],
    term: &TermTree,
) -> Result<Formula, AllocError>
    ensures { IfOk result (λ made. made ≡ Formula.Lone (spec.term_of scope.now.tree.now term.now (variables_from around.now))) }
{
    Ok(Formula::Lone(term_of(alloc, scope, around, term)?))
}

/// A comparison of two terms.
fn compared_of(
    alloc: Global,
    scope: &Scope<'_>,
    around: &[Binder<'_>],
    rel: Rel,
    left: &TermTree,
    right: &TermTree,
) -> Result<Formula, AllocError>
    ensures { IfOk result (λ made. made ≡ Formula.Compare rel (spec.term_of scope.now.tree.now left.now (variables_from around.now)) (spec.term_of scope.now.tree.now right.now (variables_from around.now))) }
{
    let left = term_of(alloc, scope, around, left)?;
    let right = term_of(alloc, scope, around, right)?;
    Ok(Formula::Compare(rel, left, right))
}

#[cycle(building)]
fn boxed_of<'a>(
    alloc: Global,
    scope: &Scope<'_>,
    around: &mut Vec<Binder<'a>>,
    formula: &'a FormulaTree,
) -> Result<Boxed<Formula>, AllocError>
    ensures made { IfOk result (λ made. made ≡ spec.formula_of scope.now.tree.now formula.now (variables_from around.old.items)) }
    ensures kept { OnOk result (around.new.items ≡ around.old.items) }
{
    Boxed::new(alloc, formula_of(alloc, scope, around, formula)?)
}

/// A part of a formula, behind what was made of the part before it.
#[cycle(building)]
fn behind_of<'a>(
    alloc: Global,
    scope: &Scope<'_>,
    around: &mut Vec<Binder<'a>>,
    formula: &'a FormulaTree,
    before: Boxed<Formula>,
) -> Result<(Boxed<Formula>, Boxed<Formula>), AllocError>
    ensures first { IfOk result (λ made. made.0 ≡ before) }
    ensures made { IfOk result (λ made. made.1 ≡ spec.formula_of scope.now.tree.now formula.now (variables_from around.old.items)) }
    ensures kept { OnOk result (around.new.items ≡ around.old.items) }
{
    let part = boxed_of(alloc, scope, around, formula)?;
    Ok((before, part))
}

#[cycle(building)]
fn formulas_of<'a>(
    alloc: Global,
    scope: &Scope<'_>,
    around: &mut Vec<Binder<'a>>,
    formulas: &'a [FormulaTree],
) -> Result<Formulas, AllocError>
    ensures made { IfOk result (λ made. made ≡ map (λ f. spec.formula_of scope.now.tree.now f (variables_from around.old.items)) formulas.now) }
    ensures kept { OnOk result (around.new.items ≡ around.old.items) }
{
    let mut made = Vec::new(alloc);
    for formula in formulas {
        made.push(formula_of(alloc, scope, around, formula)?)?;
    }
    Ok(List::from_vec(made))
}

#[cycle(building)]
fn quantified_of<'a>(
    alloc: Global,
    scope: &Scope<'_>,
    around: &mut Vec<Binder<'a>>,
    quantifier: Quantifier,
    binder: Binder<'a>,
    body: &'a FormulaTree,
) -> Result<Formula, AllocError>
    ensures made { IfOk result (λ made. made ≡ quantified_from scope.now.tree.now (variables_from around.old.items) quantifier binder.entry.variable.now binder.entry.domain.now (spec.formula_of scope.now.tree.now body.now)) }
    ensures kept { OnOk result (around.new.items ≡ around.old.items) }
{
    let name = binder.variable.name.copy(alloc)?;
    let domain = domain_of(scope, binder.domain);
    around.push(binder)?;
    let body = boxed_of(alloc, scope, around, body)?;
    around.pop();
    match quantifier {
        Quantifier::All => Ok(Formula::All(name, domain, body)),
        Quantifier::Ex => Ok(Formula::Ex(name, domain, body)),
    }
}

#[cycle(terms)]
fn term_of(
    alloc: Global,
    scope: &Scope<'_>,
    around: &[Binder<'_>],
    term: &TermTree,
) -> Result<Term, AllocError>
    ensures { IfOk result (λ made. made ≡ spec.term_of scope.now.tree.now term.now (variables_from around.now)) }
{
    shape_of(alloc, scope, around, &term.shape)
}

#[cycle(terms)]
fn shape_of(
    alloc: Global,
    scope: &Scope<'_>,
    around: &[Binder<'_>],
    shape: &TermShape,
) -> Result<Term, AllocError>
    ensures { IfOk result (λ made. made ≡ spec.shape_of scope.now.tree.now shape.now (variables_from around.now)) }
{
    match shape {
        TermShape::Number(written) => Ok(Term::Number(written.number)),
        TermShape::Truth(value) => Ok(Term::Value(0, u32::from(*value))),
        TermShape::Named(mention) => named_of(alloc, sense_of(scope, around, &mention.name)),
        TermShape::Call(mention, arguments) => {
            let item = sense_of(scope, around, &mention.name).item(scope.items());
            let arguments = terms_of(alloc, scope, around, arguments.as_slice())?;
            Ok(Term::Read(item, arguments))
        }
        TermShape::Sum(parts) => {
            Ok(Term::Sum(parts_of(alloc, scope, around, parts.as_slice())?))
        }
        TermShape::Times(written, factor) => {
            let factor = term_of(alloc, scope, around, factor.get())?;
            Ok(Term::Times(written.number, Boxed::new(alloc, factor)?))
        }
    }
}

/// A name alone; only want of memory refuses it, or more variables round it than are numbered.
fn named_of(alloc: Global, sense: Sense) -> Result<Term, AllocError>
    ensures { IfOk result (λ made. made ≡ sense_term sense) }
{
    match sense {
        Sense::Variable(level) => match u32::try_from(level) {
            Ok(level) => Ok(Term::Var(level)),
            Err(_) => Err(AllocError),
        },
        Sense::Word(domain, index) => Ok(Term::Value(domain, index)),
        Sense::Item(number) => Ok(Term::Read(number, List::new(alloc))),
    }
}

#[cycle(terms)]
fn terms_of(
    alloc: Global,
    scope: &Scope<'_>,
    around: &[Binder<'_>],
    terms: &[TermTree],
) -> Result<Terms, AllocError>
    ensures { IfOk result (λ made. made ≡ map (λ t. spec.term_of scope.now.tree.now t (variables_from around.now)) terms.now) }
{
    let mut made = Vec::new(alloc);
    for term in terms {
        made.push(term_of(alloc, scope, around, term)?)?;
    }
    Ok(List::from_vec(made))
}

#[cycle(terms)]
fn parts_of(
    alloc: Global,
    scope: &Scope<'_>,
    around: &[Binder<'_>],
    parts: &[PartTree],
) -> Result<SignedTerms, AllocError>
    ensures { IfOk result (λ made. made ≡ map (λ p. part_from scope.now.tree.now p (variables_from around.now)) parts.now) }
{
    let mut made = Vec::new(alloc);
    for part in parts {
        made.push(SignedTerm {
            minus: part.minus,
            term: term_of(alloc, scope, around, &part.term)?,
        })?;
    }
    Ok(List::from_vec(made))
}
