//! Whether values of specifications are equal. It takes no memory, and goes over the whole of both.
ghost use Rattle.std.specs.Prelude.{◌≡◌, ◌↔◌, IsTrue};

use crate::formula::{Formula, SignedTerm, Term};
use crate::spec::{Axiom, Domain, DomainKind, Item, Spec};
use trio_base::Name;

/// What contracts see of two values can be compared.
pub trait Same {
    /// Whether they are equal.
    fn same(&self, other: &Self) -> bool
        ensures { IsTrue result ↔ (self.now ≡ other.now) };
}

/// Whether two lists are equal.
pub fn same_all<T: Same>(left: &[T], right: &[T]) -> bool
    ensures { IsTrue result ↔ (left.now ≡ right.now) }
{
    if left.len() != right.len() {
        return false;
    }
    for place in 0..left.len() {
        if !left[place].same(&right[place]) {
            return false;
        }
    }
    true
}

/// Whether two specifications are equal.
pub fn same_spec(left: &Spec, right: &Spec) -> bool
    ensures { IsTrue result ↔ (left.now ≡ right.now) }
{
    left.instants == right.instants
        && same_all(left.domains.as_slice(), right.domains.as_slice())
        && same_all(left.items.as_slice(), right.items.as_slice())
        && same_all(left.axioms.as_slice(), right.axioms.as_slice())
        && same_all(left.goals.as_slice(), right.goals.as_slice())
}

impl Same for Name {
    fn same(&self, other: &Name) -> bool {
        self.as_str() == other.as_str()
    }
}

impl Same for Option<u16> {
    fn same(&self, other: &Option<u16>) -> bool {
        *self == *other
    }
}

impl Same for Domain {
    fn same(&self, other: &Domain) -> bool {
        self.name.same(&other.name) && same_kind(&self.kind, &other.kind)
    }
}

fn same_kind(left: &DomainKind, right: &DomainKind) -> bool
    ensures { IsTrue result ↔ (left.now ≡ right.now) }
{
    match (left, right) {
        (DomainKind::Bool, DomainKind::Bool) => true,
        (DomainKind::Range(low, high), DomainKind::Range(other_low, other_high)) => {
            *low == *other_low && *high == *other_high
        }
        (DomainKind::Words(words), DomainKind::Words(others)) => {
            same_all(words.as_slice(), others.as_slice())
        }
        _ => false,
    }
}

impl Same for Item {
    fn same(&self, other: &Item) -> bool {
        self.name.same(&other.name)
            && self.input == other.input
            && self.args.as_slice() == other.args.as_slice()
            && self.value == other.value
    }
}

impl Same for Axiom {
    fn same(&self, other: &Axiom) -> bool {
        self.name.same(&other.name)
            && self.at == other.at
            && same_formula(&self.formula, &other.formula)
    }
}

/// Whether two terms are equal.
#[cycle(terms)]
pub fn same_term(left: &Term, right: &Term) -> bool
    ensures { IsTrue result ↔ (left.now ≡ right.now) }
{
    match (left, right) {
        (Term::Number(one), Term::Number(other)) => *one == *other,
        (Term::Value(domain, index), Term::Value(other_domain, other)) => {
            *domain == *other_domain && *index == *other
        }
        (Term::Var(one), Term::Var(other)) => *one == *other,
        (Term::Read(item, args), Term::Read(other_item, others)) => {
            *item == *other_item && same_terms(args.as_slice(), others.as_slice())
        }
        (Term::Sum(parts), Term::Sum(others)) => same_parts(parts.as_slice(), others.as_slice()),
        (Term::Times(number, factor), Term::Times(other_number, other)) => {
            *number == *other_number && same_term(factor.get(), other.get())
        }
        _ => false,
    }
}

/// Whether lists of terms are equal.
#[cycle(terms)]
fn same_terms(left: &[Term], right: &[Term]) -> bool
    ensures { IsTrue result ↔ (left.now ≡ right.now) }
{
    if left.len() != right.len() {
        return false;
    }
    for place in 0..left.len() {
        if !same_term(&left[place], &right[place]) {
            return false;
        }
    }
    true
}

/// Whether the parts of sums are equal.
#[cycle(terms)]
fn same_parts(left: &[SignedTerm], right: &[SignedTerm]) -> bool
    ensures { IsTrue result ↔ (left.now ≡ right.now) }
{
    if left.len() != right.len() {
        return false;
    }
    for place in 0..left.len() {
        if !same_part(&left[place], &right[place]) {
            return false;
        }
    }
    true
}

/// Whether two parts of sums are equal.
#[cycle(terms)]
fn same_part(left: &SignedTerm, right: &SignedTerm) -> bool
    ensures { IsTrue result ↔ (left.now ≡ right.now) }
{
    left.minus == right.minus && same_term(&left.term, &right.term)
}

/// Whether two formulas are equal.
#[cycle(formulas)]
pub fn same_formula(left: &Formula, right: &Formula) -> bool
    ensures { IsTrue result ↔ (left.now ≡ right.now) }
{
    match (left, right) {
        (Formula::Lone(one), Formula::Lone(other)) => same_term(one, other),
        (Formula::Compare(rel, first, second), Formula::Compare(other, third, fourth)) => {
            *rel == *other && same_term(first, third) && same_term(second, fourth)
        }
        (Formula::Not(one), Formula::Not(other)) => same_formula(one.get(), other.get()),
        (Formula::And(parts), Formula::And(others)) | (Formula::Or(parts), Formula::Or(others)) => {
            same_formulas(parts.as_slice(), others.as_slice())
        }
        (Formula::Implies(first, second), Formula::Implies(third, fourth))
        | (Formula::Iff(first, second), Formula::Iff(third, fourth)) => {
            same_formula(first.get(), third.get()) && same_formula(second.get(), fourth.get())
        }
        (Formula::All(name, domain, body), Formula::All(other, number, part))
        | (Formula::Ex(name, domain, body), Formula::Ex(other, number, part)) => {
            name.same(other) && *domain == *number && same_formula(body.get(), part.get())
        }
        (Formula::One(op, one), Formula::One(other_op, other)) => {
            *op == *other_op && same_formula(one.get(), other.get())
        }
        (Formula::Far(op, one, distance), Formula::Far(other_op, other, far)) => {
            *op == *other_op && same_formula(one.get(), other.get()) && same_term(distance, far)
        }
        (Formula::Pair(op, first, second), Formula::Pair(other, third, fourth)) => {
            *op == *other
                && same_formula(first.get(), third.get())
                && same_formula(second.get(), fourth.get())
        }
        _ => false,
    }
}

/// Whether lists of formulas are equal.
#[cycle(formulas)]
fn same_formulas(left: &[Formula], right: &[Formula]) -> bool
    ensures { IsTrue result ↔ (left.now ≡ right.now) }
{
    if left.len() != right.len() {
        return false;
    }
    for place in 0..left.len() {
        if !same_formula(&left[place], &right[place]) {
            return false;
        }
    }
    true
}
