//! What operators ask for: the distances of new variables, which way they go, and negations.
ghost use Rattle.std.specs.Prelude.{◌≡◌, ◌<◌, length, pos, neg_ℤ, ◌-ℤ◌};
ghost use Rattle.trio_types.specs.World.{size_of};
ghost use Rattle.trio_types.specs.Verdict.{world_of};
ghost use Rattle.derived_ops.specs.Rewriting.{last, least_of, relation_of, range_of_domain, way_of};
ghost use Rattle.derived_ops.specs.Distances.{lowest, highest};
ghost use Rattle.derived_ops.specs.Adding.{negations_of};

use crate::joint::Way;
use trio_types::{DomainKind, Ends, OneOp, PairOp, Rel, Spec, size_of};

/// The greatest distance inside time.
pub fn last(spec: &Spec) -> i64
    ensures { result ≡ last (world_of spec.now) }
{
    i64::from(spec.instants) - 1
}

/// The least distance of an operator on one formula.
pub fn lowest(spec: &Spec, op: OneOp) -> i64
    ensures { result ≡ lowest (world_of spec.now) op }
{
    match op {
        OneOp::AlwF | OneOp::SomF => 1,
        OneOp::Alw | OneOp::Som | OneOp::AlwP | OneOp::SomP => -last(spec),
    }
}

/// The greatest distance of an operator on one formula.
pub fn highest(spec: &Spec, op: OneOp) -> i64
    ensures { result ≡ highest (world_of spec.now) op }
{
    match op {
        OneOp::AlwP | OneOp::SomP => -1,
        OneOp::Alw | OneOp::Som | OneOp::AlwF | OneOp::SomF => last(spec),
    }
}

/// One negation where the operator speaks of every instant.
pub fn negations_of(op: OneOp) -> u32
    ensures { result ≡ negations_of op }
{
    match op {
        OneOp::Alw | OneOp::AlwF | OneOp::AlwP => 1,
        OneOp::Som | OneOp::SomF | OneOp::SomP => 0,
    }
}

/// The least distance of a range.
pub fn least_of(ends: Ends) -> i64
    ensures { result ≡ least_of ends }
{
    match ends {
        Ends::Ii | Ends::Ie => 0,
        Ends::Bare | Ends::Ei => 1,
    }
}

/// The relation of a distance of a range to the greatest.
pub fn relation_of(ends: Ends) -> Rel
    ensures { result ≡ relation_of ends }
{
    match ends {
        Ends::Ii | Ends::Ei => Rel::Le,
        Ends::Bare | Ends::Ie => Rel::Lt,
    }
}

/// Which way an operator on two formulas looks.
pub fn way_of(op: PairOp) -> Way
    ensures { result ≡ way_of op }
{
    match op {
        PairOp::Until => Way::Ahead,
        PairOp::Since => Way::Back,
    }
}

/// The first value of the domain of this number.
pub fn first_of_domain(spec: &Spec, domain: u32) -> i64
    ensures { result ≡ (range_of_domain (world_of spec.now) domain).low }
{
    if domain as usize >= spec.domains.len() {
        return 0;
    }
    match &spec.domains.get(domain as usize).kind {
        DomainKind::Range(low, _) => *low,
        DomainKind::Bool | DomainKind::Words(_) => 0,
    }
}

/// The last value of the domain of this number; it is below the first where there is no such domain.
pub fn last_of_domain(spec: &Spec, domain: u32) -> i64
    ensures { result ≡ (range_of_domain (world_of spec.now) domain).high }
{
    if domain as usize >= spec.domains.len() {
        return -1;
    }
    match &spec.domains.get(domain as usize).kind {
        DomainKind::Bool => 1,
        DomainKind::Range(_, high) => *high,
        DomainKind::Words(_) => last_index(spec, domain),
    }
}

/// The greatest index of a value.
fn last_index(spec: &Spec, domain: u32) -> i64
    requires { domain < length spec.now.domains }
    ensures { result ≡ pos (size_of spec.now.domains domain) -ℤ pos 1 }
{
    i64::from(size_of(spec, domain)) - 1
}
