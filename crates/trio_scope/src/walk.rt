//! The one walk over formulas and their terms: what a rule finds in them first.

ghost use Rattle.std.specs.Prelude.{◌≡◌, OnOk, IfOk, position};
ghost use Rattle.std.specs.Str.{bytes_eq};
ghost use Rattle.std.specs.List.{flat_map};
ghost use Rattle.trio_scope.specs.Places.{least};
ghost use Rattle.trio_scope.specs.Gather.{Finding, variables_from, places_in_term, places_in_shape, places_in_arguments, places_in_sum, in_comparison, under, places_in, places_in_claims};

use crate::place::earlier;
use std::alloc::{AllocError, Global};
use trio_base::{Name, Rel};
use trio_syntax::{FormulaTree, Mention, PartTree, RefTree, SpecTree, TermShape, TermTree};

/// A variable in whose body something stands, and what names its domain.
#[derive(Clone, Copy, Drop)]
pub struct Binder<'a> {
    pub variable: &'a Mention,
    pub domain: &'a RefTree,
}

/// What a term stands for where it stands.
#[derive(Clone, Copy)]
pub enum Role {
    /// A formula of a term alone.
    Alone,
    /// A side of a comparison.
    Compared,
    /// A distance.
    Distance,
    /// An argument of a read.
    Argument,
    /// A part of a sum.
    Part,
    /// The factor of a product.
    Factor,
}

/// A rule that a formula keeps, or breaks at places. `around` are the variables in whose body something stands.
pub trait Rule {
    /// The places at which it is broken.
    ghost finding: { Self → Finding };

    /// The first place at which this occurrence of a term breaks it, the places of its parts aside; `inside` where it stands inside of a
    /// distance or an argument.
    fn term(
        &self,
        around: &[Binder<'_>],
        role: Role,
        inside: bool,
        term: &TermTree,
    ) -> Option<usize>
        ensures { result ≡ least ((finding self.now).term (variables_from around.now) role inside term.now) };

    /// The first place at which a comparison breaks it, with the place of its relation; the places of its terms aside.
    fn compared(
        &self,
        around: &[Binder<'_>],
        rel: Rel,
        place: usize,
        left: &TermTree,
        right: &TermTree,
    ) -> Option<usize>
        ensures { result ≡ least ((finding self.now).compared (variables_from around.now) rel place left.now right.now) };

    /// The first place at which a variable's own name or what names its domain breaks it.
    fn variable(&self, around: &[Binder<'_>], variable: &Mention, domain: &RefTree) -> Option<usize>
        ensures { result ≡ least ((finding self.now).variable (variables_from around.now) variable.now domain.now) };
}

/// The first place at which a term in this role breaks a rule, under these variables.
#[cycle(terms)]
pub fn first_in_term<R: Rule>(
    rule: &R,
    around: &[Binder<'_>],
    role: Role,
    inside: bool,
    term: &TermTree,
) -> Option<usize>
    ensures { result ≡ least (places_in_term (R.finding rule.now) term.now (variables_from around.now) role inside) }
{
    let own = rule.term(around, role, inside, term);
    earlier(own, first_in_shape(rule, around, inside, &term.shape))
}

#[cycle(terms)]
fn first_in_shape<R: Rule>(
    rule: &R,
    around: &[Binder<'_>],
    inside: bool,
    shape: &TermShape,
) -> Option<usize>
    ensures { result ≡ least (places_in_shape (R.finding rule.now) shape.now (variables_from around.now) inside) }
{
    match shape {
        TermShape::Number(_) => None,
        TermShape::Truth(_) => None,
        TermShape::Named(_) => None,
        TermShape::Call(_, arguments) => first_in_arguments(rule, around, arguments.as_slice()),
        TermShape::Sum(parts) => first_in_sum(rule, around, inside, parts.as_slice()),
        TermShape::Times(_, factor) => {
            first_in_term(rule, around, Role::Factor, inside, factor.get())
        }
    }
}

#[cycle(terms)]
fn first_in_arguments<R: Rule>(
    rule: &R,
    around: &[Binder<'_>],
    arguments: &[TermTree],
) -> Option<usize>
    ensures { result ≡ least (places_in_arguments (R.finding rule.now) (variables_from around.now) arguments.now) }
{
    let mut first = None;
    for argument in arguments {
        first = earlier(
            first,
            first_in_term(rule, around, Role::Argument, true, argument),
        );
    }
    first
}

#[cycle(terms)]
fn first_in_sum<R: Rule>(
    rule: &R,
    around: &[Binder<'_>],
    inside: bool,
    parts: &[PartTree],
) -> Option<usize>
    ensures { result ≡ least (places_in_sum (R.finding rule.now) (variables_from around.now) inside parts.now) }
{
    let mut first = None;
    for part in parts {
        first = earlier(
            first,
            first_in_term(rule, around, Role::Part, inside, &part.term),
        );
    }
    first
}

/// The first place at which a formula breaks a rule, under these variables; only want of memory refuses it.
#[cycle(walk)]
pub fn first_in<'a, R: Rule>(
    rule: &R,
    around: &mut Vec<Binder<'a>>,
    formula: &'a FormulaTree,
) -> Result<Option<usize>, AllocError>
    ensures found { IfOk result (λ first. first ≡ least (places_in (R.finding rule.now) formula.now (variables_from around.old.items))) }
    ensures kept { OnOk result (around.new.items ≡ around.old.items) }
{
    match formula {
        FormulaTree::Lone(term) => Ok(first_in_term(
            rule,
            around.as_slice(),
            Role::Alone,
            false,
            term,
        )),
        FormulaTree::Compare(rel, place, left, right) => Ok(first_compared(
            rule,
            around.as_slice(),
            *rel,
            *place,
            left,
            right,
        )),
        FormulaTree::Not(part) | FormulaTree::One(_, part) => first_in(rule, around, part.get()),
        FormulaTree::And(parts) | FormulaTree::Or(parts) => {
            first_among(rule, around, parts.as_slice())
        }
        FormulaTree::Implies(left, right)
        | FormulaTree::Iff(left, right)
        | FormulaTree::Pair(_, left, right) => {
            let left = first_in(rule, around, left.get())?;
            let right = first_in(rule, around, right.get())?;
            Ok(earlier(left, right))
        }
        FormulaTree::Quantified(_, variable, domain, body) => {
            first_under(rule, around, Binder { variable, domain }, body.get())
        }
        FormulaTree::Far(_, part, distance) => {
            let part = first_in(rule, around, part.get())?;
            let distance = first_in_term(rule, around.as_slice(), Role::Distance, true, distance);
            Ok(earlier(part, distance))
        }
    }
}

fn first_compared<R: Rule>(
    rule: &R,
    around: &[Binder<'_>],
    rel: Rel,
    place: usize,
    left: &TermTree,
    right: &TermTree,
) -> Option<usize>
    ensures { result ≡ least (in_comparison (R.finding rule.now) (variables_from around.now) rel place left.now right.now) }
{
    let own = rule.compared(around, rel, place, left, right);
    let left = first_in_term(rule, around, Role::Compared, false, left);
    let right = first_in_term(rule, around, Role::Compared, false, right);
    earlier(own, earlier(left, right))
}

#[cycle(walk)]
fn first_among<'a, R: Rule>(
    rule: &R,
    around: &mut Vec<Binder<'a>>,
    formulas: &'a [FormulaTree],
) -> Result<Option<usize>, AllocError>
    ensures found { IfOk result (λ first. first ≡ least (flat_map (λ f. places_in (R.finding rule.now) f (variables_from around.old.items)) formulas.now)) }
    ensures kept { OnOk result (around.new.items ≡ around.old.items) }
{
    let mut first = None;
    for formula in formulas {
        first = earlier(first, first_in(rule, around, formula)?);
    }
    Ok(first)
}

#[cycle(walk)]
fn first_under<'a, R: Rule>(
    rule: &R,
    around: &mut Vec<Binder<'a>>,
    binder: Binder<'a>,
    body: &'a FormulaTree,
) -> Result<Option<usize>, AllocError>
    ensures found { IfOk result (λ first. first ≡ least (under (R.finding rule.now) (variables_from around.old.items) binder.entry.variable.now binder.entry.domain.now (places_in (R.finding rule.now) body.now))) }
    ensures kept { OnOk result (around.new.items ≡ around.old.items) }
{
    let own = rule.variable(around.as_slice(), binder.variable, binder.domain);
    around.push(binder)?;
    let inside = first_in(rule, around, body)?;
    around.pop();
    Ok(earlier(own, inside))
}

/// The first place at which the formulas of axioms and goals break a rule; only want of memory refuses it.
pub fn first_in_claims<R: Rule>(
    alloc: Global,
    rule: &R,
    tree: &SpecTree,
) -> Result<Option<usize>, AllocError>
    ensures { IfOk result (λ first. first ≡ least (places_in_claims (R.finding rule.now) tree.now)) }
{
    let mut around = Vec::new(alloc);
    let mut first = None;
    for claim in tree.claims.as_slice() {
        first = earlier(first, first_in(rule, &mut around, &claim.formula)?);
    }
    Ok(first)
}

/// The level of a variable: how many variables stand around its own.
pub fn level_of(around: &[Binder<'_>], name: &Name) -> Option<usize>
    ensures { result ≡ position (λ v. bytes_eq v.name name.now) (variables_from around.now) }
{
    around
        .iter()
        .position(|binder| binder.variable.name.as_str() == name.as_str())
}
