//! Copies of specifications' parts. Each equals what was copied, and only want of memory refuses it.
ghost use Rattle.std.specs.Prelude.{◌≡◌, IfOk};
ghost use Rattle.trio_types.specs.declared.formula.Formula.TheVariants as Formula;

use crate::formula::{Formula, Formulas, SignedTerm, SignedTerms, Term, Terms};
use crate::spec::{Axiom, Axioms, Domain, DomainKind, Domains, Item, Items, Names};
use sqlite_items::Boxed;
use std::alloc::{AllocError, Global};
use trio_base::{List, Name, Rel};

/// A copy; only want of memory refuses it.
pub fn copied_domains(alloc: Global, domains: &[Domain]) -> Result<Domains, AllocError>
    ensures { IfOk result (λ made. made ≡ domains.now) }
{
    let mut made = Vec::new(alloc);
    for domain in domains {
        made.push(copied_domain(alloc, domain)?)?;
    }
    Ok(List::from_vec(made))
}

/// A copy; only want of memory refuses it.
pub fn copied_domain(alloc: Global, domain: &Domain) -> Result<Domain, AllocError>
    ensures { IfOk result (λ made. made ≡ domain.now) }
{
    let name = domain.name.copy(alloc)?;
    let kind = copied_kind(alloc, &domain.kind)?;
    Ok(Domain { name, kind })
}

fn copied_kind(alloc: Global, kind: &DomainKind) -> Result<DomainKind, AllocError>
    ensures { IfOk result (λ made. made ≡ kind.now) }
{
    match kind {
        DomainKind::Bool => Ok(DomainKind::Bool),
        DomainKind::Range(low, high) => Ok(DomainKind::Range(*low, *high)),
        DomainKind::Words(words) => {
            let words = copied_names(alloc, words.as_slice())?;
            Ok(DomainKind::Words(words))
        }
    }
}

/// A copy; only want of memory refuses it.
pub fn copied_names(alloc: Global, names: &[Name]) -> Result<Names, AllocError>
    ensures { IfOk result (λ made. made ≡ names.now) }
{
    let mut made = Vec::new(alloc);
    for name in names {
        made.push(name.copy(alloc)?)?;
    }
    Ok(List::from_vec(made))
}

/// A copy; only want of memory refuses it.
pub fn copied_items(alloc: Global, items: &[Item]) -> Result<Items, AllocError>
    ensures { IfOk result (λ made. made ≡ items.now) }
{
    let mut made = Vec::new(alloc);
    for item in items {
        made.push(copied_item(alloc, item)?)?;
    }
    Ok(List::from_vec(made))
}

/// A copy; only want of memory refuses it.
pub fn copied_item(alloc: Global, item: &Item) -> Result<Item, AllocError>
    ensures { IfOk result (λ made. made ≡ item.now) }
{
    let name = item.name.copy(alloc)?;
    let args = item.args.copy(alloc)?;
    Ok(Item {
        name,
        input: item.input,
        args,
        value: item.value,
    })
}

/// A copy; only want of memory refuses it.
pub fn copied_axioms(alloc: Global, axioms: &[Axiom]) -> Result<Axioms, AllocError>
    ensures { IfOk result (λ made. made ≡ axioms.now) }
{
    let mut made = Vec::new(alloc);
    for claim in axioms {
        made.push(copied_axiom(alloc, claim)?)?;
    }
    Ok(List::from_vec(made))
}

/// A copy; only want of memory refuses it.
pub fn copied_axiom(alloc: Global, claim: &Axiom) -> Result<Axiom, AllocError>
    ensures { IfOk result (λ made. made ≡ claim.now) }
{
    let name = claim.name.copy(alloc)?;
    let formula = copied_formula(alloc, &claim.formula)?;
    Ok(Axiom {
        name,
        at: claim.at,
        formula,
    })
}

fn copied_comparison(
    alloc: Global,
    rel: Rel,
    left: &Term,
    right: &Term,
) -> Result<Formula, AllocError>
    ensures { IfOk result (λ made. made ≡ Formula.Compare rel left.now right.now) }
{
    let left = copied_term(alloc, left)?;
    let right = copied_term(alloc, right)?;
    Ok(Formula::Compare(rel, left, right))
}

/// A copy; only want of memory refuses it.
#[cycle(copied_formulas)]
pub fn copied_formula(alloc: Global, formula: &Formula) -> Result<Formula, AllocError>
    ensures { IfOk result (λ made. made ≡ formula.now) }
{
    match formula {
        Formula::Lone(term) => Ok(Formula::Lone(copied_term(alloc, term)?)),
        Formula::Compare(rel, left, right) => copied_comparison(alloc, *rel, left, right),
        Formula::Not(part) => Ok(Formula::Not(copied_part(alloc, part.get())?)),
        Formula::And(parts) => Ok(Formula::And(copied_formulas(alloc, parts.as_slice())?)),
        Formula::Or(parts) => Ok(Formula::Or(copied_formulas(alloc, parts.as_slice())?)),
        Formula::Implies(left, right) => {
            let left = copied_part(alloc, left.get())?;
            let (left, right) = copied_behind(alloc, right.get(), left)?;
            Ok(Formula::Implies(left, right))
        }
        Formula::Iff(left, right) => {
            let left = copied_part(alloc, left.get())?;
            let (left, right) = copied_behind(alloc, right.get(), left)?;
            Ok(Formula::Iff(left, right))
        }
        Formula::All(name, domain, body) => {
            let (name, body) = copied_bound(alloc, body.get(), name)?;
            Ok(Formula::All(name, *domain, body))
        }
        Formula::Ex(name, domain, body) => {
            let (name, body) = copied_bound(alloc, body.get(), name)?;
            Ok(Formula::Ex(name, *domain, body))
        }
        Formula::One(op, part) => Ok(Formula::One(*op, copied_part(alloc, part.get())?)),
        Formula::Far(op, part, distance) => {
            let part = copied_part(alloc, part.get())?;
            let distance = copied_term(alloc, distance)?;
            Ok(Formula::Far(*op, part, distance))
        }
        Formula::Pair(op, first, second) => {
            let first = copied_part(alloc, first.get())?;
            let (first, second) = copied_behind(alloc, second.get(), first)?;
            Ok(Formula::Pair(*op, first, second))
        }
    }
}

#[cycle(copied_formulas)]
fn copied_part(alloc: Global, part: &Formula) -> Result<Boxed<Formula>, AllocError>
    ensures { IfOk result (λ made. made ≡ part.now) }
{
    Boxed::new(alloc, copied_formula(alloc, part)?)
}

/// A copy of a part, behind the copy of the part before it.
#[cycle(copied_formulas)]
fn copied_behind(
    alloc: Global,
    part: &Formula,
    before: Boxed<Formula>,
) -> Result<(Boxed<Formula>, Boxed<Formula>), AllocError>
    ensures { IfOk result (λ made. made ≡ (before, part.now)) }
{
    let part = copied_part(alloc, part)?;
    Ok((before, part))
}

#[cycle(copied_formulas)]
fn copied_bound(
    alloc: Global,
    body: &Formula,
    name: &Name,
) -> Result<(Name, Boxed<Formula>), AllocError>
    ensures { IfOk result (λ made. made ≡ (name.now, body.now)) }
{
    let name = name.copy(alloc)?;
    let body = copied_part(alloc, body)?;
    Ok((name, body))
}

/// A copy; only want of memory refuses it.
#[cycle(copied_formulas)]
pub fn copied_formulas(alloc: Global, formulas: &[Formula]) -> Result<Formulas, AllocError>
    ensures { IfOk result (λ made. made ≡ formulas.now) }
{
    let mut made = Vec::new(alloc);
    for formula in formulas {
        made.push(copied_formula(alloc, formula)?)?;
    }
    Ok(List::from_vec(made))
}

/// A copy; only want of memory refuses it.
#[cycle(copied_terms)]
pub fn copied_term(alloc: Global, term: &Term) -> Result<Term, AllocError>
    ensures { IfOk result (λ made. made ≡ term.now) }
{
    match term {
        Term::Number(number) => Ok(Term::Number(*number)),
        Term::Value(domain, index) => Ok(Term::Value(*domain, *index)),
        Term::Var(level) => Ok(Term::Var(*level)),
        Term::Read(item, arguments) => {
            let arguments = copied_terms(alloc, arguments.as_slice())?;
            Ok(Term::Read(*item, arguments))
        }
        Term::Sum(parts) => Ok(Term::Sum(copied_parts(alloc, parts.as_slice())?)),
        Term::Times(number, factor) => {
            let factor = copied_term(alloc, factor.get())?;
            Ok(Term::Times(*number, Boxed::new(alloc, factor)?))
        }
    }
}

/// A copy; only want of memory refuses it.
#[cycle(copied_terms)]
pub fn copied_terms(alloc: Global, terms: &[Term]) -> Result<Terms, AllocError>
    ensures { IfOk result (λ made. made ≡ terms.now) }
{
    let mut made = Vec::new(alloc);
    for term in terms {
        made.push(copied_term(alloc, term)?)?;
    }
    Ok(List::from_vec(made))
}

#[cycle(copied_terms)]
fn copied_parts(alloc: Global, parts: &[SignedTerm]) -> Result<SignedTerms, AllocError>
    ensures { IfOk result (λ made. made ≡ parts.now) }
{
    let mut made = Vec::new(alloc);
    for part in parts {
        made.push(SignedTerm {
            minus: part.minus,
            term: copied_term(alloc, &part.term)?,
        })?;
    }
    Ok(List::from_vec(made))
}
