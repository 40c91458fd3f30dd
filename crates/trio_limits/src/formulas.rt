//! The counts of formulas.

ghost use Rattle.std.specs.Prelude.{◌≡◌, ◌+◌, ◌*◌, max, IfOk, OnOk};
ghost use Rattle.trio_limits.specs.Given.{given_count};
ghost use Rattle.trio_limits.specs.Ground.{world_of_ground};
ghost use Rattle.trio_limits.specs.Counting.{quantified_of, formulas_of, bracketed, unbracketed};
ghost use Rattle.trio_limits.specs.Counting as spec;
ghost use Rattle.trio_types.specs.Instances as types;
ghost use Rattle.trio_types.specs.declared.formula.Formula.TheVariants as formula;

use crate::counts::{Counts, ListCounts};
use crate::ground::Ground;
use crate::terms::counts_of as term_counts_of;
use std::alloc::AllocError;
use trio_types::{FarOp, Formula, OneOp, Term};

/// The counts of a formula, where these are the domains of the variables in whose bodies it stands; only want of memory refuses them.
#[cycle(formulas)]
pub fn counts_of(
    ground: &Ground<'_>,
    variables: &mut Vec<u32>,
    formula: &Formula,
) -> Result<Counts, AllocError>
    ensures made { IfOk result (λ c. c ≡ spec.counts_of (world_of_ground ground.now) variables.old.items formula.now) }
    ensures kept { OnOk result (variables.new.items ≡ variables.old.items) }
{
    match formula {
        Formula::Lone(term) => {
            let term = term_counts_of(ground, variables.as_slice(), term);
            Ok(Counts::unbracketed(term.most, 1, term.plain))
        }
        Formula::Compare(_, left, right) => {
            let left = term_counts_of(ground, variables.as_slice(), left);
            let right = term_counts_of(ground, variables.as_slice(), right);
            let plain = left.plain.max(right.plain);
            Ok(Counts::bracketed(left.most.max(right.most), 1, plain))
        }
        Formula::Not(part) => {
            let part = counts_of(ground, variables, part.get())?;
            let instances = part.instances.saturating_add(1);
            Ok(Counts::bracketed(part.bound, instances, part.grouped))
        }
        Formula::And(parts) => joined(ground, variables, parts.as_slice()),
        Formula::Or(parts) => joined(ground, variables, parts.as_slice()),
        Formula::Implies(left, right) => {
            let left = counts_of(ground, variables, left.get())?;
            let right = counts_of(ground, variables, right.get())?;
            Ok(implication(left, right))
        }
        Formula::Iff(left, right) => {
            let left = counts_of(ground, variables, left.get())?;
            let right = counts_of(ground, variables, right.get())?;
            Ok(equivalence(left, right))
        }
        Formula::All(_, domain, body) => quantified(ground, variables, *domain, body.get()),
        Formula::Ex(_, domain, body) => quantified(ground, variables, *domain, body.get()),
        Formula::One(op, part) => everywhere(ground, variables, *op, part.get()),
        Formula::Far(op, part, distance) => far(ground, variables, *op, part.get(), distance),
        Formula::Pair(_, first, second) => {
            let first = counts_of(ground, variables, first.get())?;
            let second = counts_of(ground, variables, second.get())?;
            Ok(pair(u64::from(ground.instants), first, second))
        }
    }
}

/// The counts of an implication between formulas with these.
fn implication(left: Counts, right: Counts) -> Counts
    ensures { result ≡ bracketed (max left.bound right.bound) (given_count (given_count (left.instances + right.instances) + 1)) (max left.grouped right.grouped) }
{
    let instances = left.instances.saturating_add(right.instances);
    Counts::bracketed(
        left.bound.max(right.bound),
        instances.saturating_add(1),
        left.grouped.max(right.grouped),
    )
}

/// The counts of an equivalence of formulas with these, which asks each of them in both ways.
fn equivalence(left: Counts, right: Counts) -> Counts
    ensures { result ≡ bracketed (max left.bound right.bound) (given_count (2 * given_count (left.instances + right.instances) + 5)) (max left.grouped right.grouped) }
{
    let instances = left.instances.saturating_add(right.instances);
    Counts::bracketed(
        left.bound.max(right.bound),
        times_more(2, instances, 5),
        left.grouped.max(right.grouped),
    )
}

/// The counts of an operator that asks the formula at every instant.
#[cycle(formulas)]
fn everywhere(
    ground: &Ground<'_>,
    variables: &mut Vec<u32>,
    _op: OneOp,
    part: &Formula,
) -> Result<Counts, AllocError>
    ensures made { IfOk result (λ c. c ≡ spec.counts_of (world_of_ground ground.now) variables.old.items (formula.One _op part.now)) }
    ensures kept { OnOk result (variables.new.items ≡ variables.old.items) }
{
    let part = counts_of(ground, variables, part)?;
    Ok(Counts::unbracketed(
        part.bound,
        times_more(u64::from(ground.instants), part.instances, 1),
        part.plain.saturating_add(1),
    ))
}

/// The counts of an operator at a distance.
#[cycle(formulas)]
fn far(
    ground: &Ground<'_>,
    variables: &mut Vec<u32>,
    op: FarOp,
    part: &Formula,
    distance: &Term,
) -> Result<Counts, AllocError>
    ensures made { IfOk result (λ c. c ≡ spec.counts_of (world_of_ground ground.now) variables.old.items (formula.Far op part.now distance.now)) }
    ensures kept { OnOk result (variables.new.items ≡ variables.old.items) }
{
    let part = counts_of(ground, variables, part)?;
    let distance = term_counts_of(ground, variables.as_slice(), distance);
    Ok(Counts::unbracketed(
        part.bound.max(distance.most),
        far_instances(u64::from(ground.instants), op, part.instances),
        part.plain.max(distance.plain).saturating_add(1),
    ))
}

/// The counts of an operator on two formulas with these, over this many instants.
fn pair(instants: u64, first: Counts, second: Counts) -> Counts
    ensures { result ≡ unbracketed (max first.bound second.bound) (given_count (instants * (second.instances + instants * first.instances + 2) + 1)) (given_count (max first.plain second.plain + 1)) }
{
    Counts::unbracketed(
        first.bound.max(second.bound),
        pair_instances(instants, first.instances, second.instances),
        first.plain.max(second.plain).saturating_add(1),
    )
}

/// The counts of a conjunction or disjunction.
#[cycle(formulas)]
fn joined(
    ground: &Ground<'_>,
    variables: &mut Vec<u32>,
    parts: &[Formula],
) -> Result<Counts, AllocError>
    ensures made { IfOk result (λ c. c ≡ spec.connected_counts (world_of_ground ground.now) variables.old.items parts.now) }
    ensures kept { OnOk result (variables.new.items ≡ variables.old.items) }
{
    let counts = all_counts(ground, variables, parts)?;
    let between = (parts.len() as u64).saturating_sub(1);
    let instances = counts.instances.saturating_add(between);
    Ok(Counts::bracketed(counts.bound, instances, counts.grouped))
}

#[cycle(formulas)]
fn all_counts(
    ground: &Ground<'_>,
    variables: &mut Vec<u32>,
    formulas: &[Formula],
) -> Result<ListCounts, AllocError>
    ensures made { IfOk result (λ c. c ≡ formulas_of (world_of_ground ground.now) variables.old.items formulas.now) }
    ensures kept { OnOk result (variables.new.items ≡ variables.old.items) }
{
    let mut counts = ListCounts {
        bound: 0,
        instances: 0,
        grouped: 0,
    };
    for formula in formulas {
        let more = counts_of(ground, variables, formula)?;
        counts = ListCounts {
            bound: counts.bound.max(more.bound),
            instances: counts.instances.saturating_add(more.instances),
            grouped: counts.grouped.max(more.grouped),
        };
    }
    Ok(counts)
}

#[cycle(formulas)]
fn quantified(
    ground: &Ground<'_>,
    variables: &mut Vec<u32>,
    domain: u32,
    body: &Formula,
) -> Result<Counts, AllocError>
    ensures made { IfOk result (λ c. c ≡ quantified_of (world_of_ground ground.now) variables.old.items domain body.now) }
    ensures kept { OnOk result (variables.new.items ≡ variables.old.items) }
{
    variables.push(domain)?;
    let body = counts_of(ground, variables, body)?;
    variables.pop();
    Ok(Counts::unbracketed(
        body.bound,
        times_more(ground.size_of(domain), body.instances, 1),
        body.plain.saturating_add(1),
    ))
}

/// A number times a count, and this many more.
fn times_more(number: u64, count: u64, more: u64) -> u64
    ensures { result ≡ given_count (number * count + more) }
{
    number.saturating_mul(count).saturating_add(more)
}

/// The instances of an operator at a distance, over this many instants and a formula of so many.
fn far_instances(instants: u64, op: FarOp, count: u64) -> u64
    ensures { result ≡ given_count (types.far_instances instants op count) }
{
    match op {
        FarOp::Dist | FarOp::Futr | FarOp::Past => count.saturating_add(1),
        FarOp::NextTime | FarOp::LastTime => {
            times_more(instants.saturating_add(1), count.saturating_add(1), 2)
        }
        FarOp::Lasts(_) | FarOp::Lasted(_) | FarOp::WithinF(_) | FarOp::WithinP(_) => {
            times_more(instants, count, 1)
        }
    }
}

/// The instances of an operator on two formulas, over this many instants: the first holds up to where the second does.
fn pair_instances(instants: u64, first: u64, second: u64) -> u64
    ensures { result ≡ given_count (instants * (second + instants * first + 2) + 1) }
{
    let inside = times_more(instants, first, 2).saturating_add(second);
    times_more(instants, inside, 1)
}
