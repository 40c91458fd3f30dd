//! Numbers, words and arguments that are out of range.

ghost use Rattle.std.specs.Prelude.{◌≡◌, pos, ◌≤ℤ◌, IfOk};
ghost use Rattle.std.specs.List.{flat_map};
ghost use Rattle.trio_scope.specs.Places.{least};
ghost use Rattle.trio_reader.specs.Ranges.{instants_places, range_places, words_places, arguments_places, values_places, statement_places, at_places, range_finding, out_of_range};
ghost use Rattle.trio_reader.specs.Ranges as spec;

use crate::declaring::integer_of;
use crate::lookup::element;
use std::alloc::{AllocError, Global};
use trio_base::Rel;
use trio_base::limits::{GREATEST_NUMBER, MOST_ARGUMENTS, MOST_INSTANTS, MOST_VALUES};
use trio_scope::{Binder, Role, Rule, earlier, first_in_claims, unless};
use trio_syntax::{
    ClaimTree, DeclarationTree, IntTree, ItemTree, Mention, RefTree, SpecTree, TermShape, TermTree,
    ValuesTree, Written,
};

/// The first token that is out of range; only want of memory refuses it, or a place that is no number of a token.
pub fn first_out_of_range(alloc: Global, tree: &SpecTree) -> Result<Option<usize>, AllocError>
    ensures { IfOk result (λ first. first ≡ least (out_of_range tree.now)) }
{
    let instants = first_in_instants(tree.instants);
    let statements = first_in_statements(tree.declarations.as_slice())?;
    let named = first_named(tree.instants.number, tree.claims.as_slice());
    let numbers = first_in_claims(alloc, &Numbers {}, tree)?;
    Ok(earlier(instants, earlier(statements, earlier(named, numbers))))
}

/// No number is above a million.
fn if_large(written: Written) -> Option<usize>
    ensures { result ≡ least (spec.if_large written) }
{
    unless(written.number <= GREATEST_NUMBER, written.place)
}

fn first_in_instants(instants: Written) -> Option<usize>
    ensures { result ≡ least (instants_places instants) }
{
    unless(
        0 < instants.number && instants.number <= MOST_INSTANTS,
        instants.place,
    )
}

fn first_in_statements(statements: &[DeclarationTree]) -> Result<Option<usize>, AllocError>
    ensures { IfOk result (λ first. first ≡ least (flat_map statement_places statements.now)) }
{
    let mut first = None;
    for statement in statements {
        first = earlier(first, first_in_statement(statement)?);
    }
    Ok(first)
}

fn first_in_statement(statement: &DeclarationTree) -> Result<Option<usize>, AllocError>
    ensures { IfOk result (λ first. first ≡ least (statement_places statement.now)) }
{
    match statement {
        DeclarationTree::Domain(domain) => Ok(first_in_values(&domain.values)),
        DeclarationTree::Item(item) => first_in_arguments(item),
    }
}

fn first_in_values(values: &ValuesTree) -> Option<usize>
    ensures { result ≡ least (values_places values.now) }
{
    match values {
        ValuesTree::Range(low, high) => first_in_range(low, high),
        ValuesTree::Words(words) => first_in_words(words.as_slice()),
    }
}

/// A range has 1 to 64 numbers.
fn first_in_range(low: &IntTree, high: &IntTree) -> Option<usize>
    ensures { result ≡ least (range_places low.now high.now) }
{
    let fits = has_values(integer_of(low), integer_of(high));
    let last = earlier(if_large(high.number), unless(fits, high.number.place));
    earlier(if_large(low.number), last)
}

/// Whether there are 1 to 64 numbers from the one to the other.
fn has_values(low: i64, high: i64) -> bool
    requires above { low ≤ℤ pos 4294967295 }
    requires below { high ≤ℤ pos 4294967295 }
    ensures { result ≡ spec.has_values low high }
{
    low <= high && high + 1 <= low + i64::from(MOST_VALUES)
}

/// The first word behind 64 others.
fn first_in_words(words: &[Mention]) -> Option<usize>
    ensures { result ≡ least (words_places words.now) }
{
    match element(words, MOST_VALUES as usize) {
        Some(word) => Some(word.place),
        None => None,
    }
}

/// The fifth argument: each is one token, as is the comma before it.
fn first_in_arguments(item: &ItemTree) -> Result<Option<usize>, AllocError>
    ensures { IfOk result (λ first. first ≡ least (arguments_places item.now)) }
{
    if item.args.len() <= MOST_ARGUMENTS as usize {
        return Ok(None);
    }
    let behind = 2 * (MOST_ARGUMENTS as usize + 1);
    match item.name.place.checked_add(behind) {
        Some(place) => Ok(Some(place)),
        None => Err(AllocError),
    }
}

/// The first number behind `at` that is not that of an instant.
fn first_named(instants: u32, claims: &[ClaimTree]) -> Option<usize>
    ensures { result ≡ least (flat_map (λ c. at_places instants c.at) claims.now) }
{
    let mut first = None;
    for claim in claims {
        first = earlier(first, first_at(instants, &claim.at));
    }
    first
}

fn first_at(instants: u32, at: &Option<Written>) -> Option<usize>
    ensures { result ≡ least (at_places instants at.now) }
{
    match at {
        Some(at) => earlier(if_large(*at), unless(at.number < instants, at.place)),
        None => None,
    }
}

/// The rule that each number is at most a million.
#[derive(Clone, Copy, Drop)]
struct Numbers {}

impl Rule for Numbers {
    ghost finding = { λ _. range_finding };

    fn term(
        &self,
        _around: &[Binder<'_>],
        _role: Role,
        _inside: bool,
        term: &TermTree,
    ) -> Option<usize> {
        match &term.shape {
            TermShape::Number(written) => if_large(*written),
            TermShape::Times(written, _) => if_large(*written),
            _ => None,
        }
    }

    fn compared(
        &self,
        _around: &[Binder<'_>],
        _rel: Rel,
        _place: usize,
        _left: &TermTree,
        _right: &TermTree,
    ) -> Option<usize> {
        None
    }

    fn variable(
        &self,
        _around: &[Binder<'_>],
        _variable: &Mention,
        _domain: &RefTree,
    ) -> Option<usize> {
        None
    }
}
