//! What becomes of the first want of a branch.
ghost use Rattle.std.specs.Prelude.{◌≡◌, ◌+◌, ◌^◌, ◌<◌, ℤ, IsTrue, IfOk, slice_get, not, true, false, [], ◌∷◌};
ghost use Rattle.trio_types.specs.WellFormed.{is_written};
ghost use Rattle.trio_core.specs.declared.nodes.Known.TheVariants.{One};
ghost use Rattle.trio_core.specs.declared.nodes.Three.TheVariants as three;
ghost use Rattle.trio_core.specs.Sets.{AreSets};
ghost use Rattle.trio_core.specs.Three.{known_at, value3};
ghost use Rattle.trio_core.specs.Stands.{world_of_core};
ghost use Rattle.trio_core.specs.Fits.{NodeTermFits};
ghost use Rattle.branch_state.specs.Branches.{WantFits};
ghost use Rattle.decompose.specs.Rule.{Refuted, Becomes, Parts, part, part_at, body, later, row, dist_row, fate, fate_by};
ghost use Rattle.decompose.specs.Told.{fate_told};

use crate::reads::undecided_of_atom;
use branch_state::{Problem, Want, copy_want};
use std::alloc::{AllocError, Global};
use trio_core::{Interpretation, Known, Node, Term, Three, term_value, truth3_in};

/// What becomes of the first want of a branch.
#[derive(Drop)]
pub(crate) enum Fate {
    /// It does not hold: the branch is closed.
    Refuted,
    /// It is dropped.
    Dropped,
    /// This takes its place.
    One(Want),
    /// These take its place, in this order.
    Both(Want, Want),
    /// The branch is parted: on the left the first takes its place, on the right the two others.
    Parts(Want, Want, Want),
    /// It stays, and the branch is parted by the values of this cell. There is one where the want is not known.
    Cuts(Option<u32>),
}

/// What becomes of a want. Only want of memory refuses it.
pub(crate) fn fate_of(
    alloc: Global,
    problem: &Problem,
    sets: &[u64],
    want: &Want,
) -> Result<Fate, AllocError>
    requires sets_fit { AreSets (world_of_core problem.now.core) sets.now }
    requires want_fits { WantFits problem.now want.now }
    ensures { IfOk result (λ told. fate_told told ≡ fate problem.now sets.now want.entry.now) }
{
    let values = want.env.as_slice();
    match truth3_in(problem.core(), want.node, want.from, want.now, values, sets) {
        Three::True => Ok(known(want.sign)),
        Three::False => Ok(known(!want.sign)),
        Three::Unknown => Ok(row(alloc, problem, sets, want)?),
    }
}

/// What becomes of a want of which it is known whether it holds.
fn known(holds: bool) -> Fate
    ensures { fate_told result ≡ fate_by three.True holds Refuted }
{
    if holds { Fate::Dropped } else { Fate::Refuted }
}

/// What becomes of a want of which that is not known, by its node and its sign.
fn row(alloc: Global, problem: &Problem, sets: &[u64], want: &Want) -> Result<Fate, AllocError>
    requires sets_fit { AreSets (world_of_core problem.now.core) sets.now }
    requires want_fits { WantFits problem.now want.now }
    ensures { IfOk result (λ told. fate_told told ≡ row (world_of_core problem.now.core) sets.now want.entry.now (slice_get problem.now.core.nodes want.entry.now.node)) }
{
    let under = Interpretation {
        core: problem.core(),
        doms: sets,
        values: want.env.as_slice(),
    };
    match (under.core.nodes.get(want.node as usize), want.sign) {
        (Node::Atom(_, left, right), _) => {
            Ok(Fate::Cuts(undecided_of_atom(under, left, right, want.now)))
        }
        (Node::Not(a), sign) => Ok(Fate::One(part(alloc, want, *a, !sign)?)),
        (Node::And(a, b), true) => Ok(both(alloc, want, *a, *b, true)?),
        (Node::And(a, b), false) => Ok(either(alloc, want, *a, *b, false)?),
        (Node::Or(a, b), true) => Ok(either(alloc, want, *a, *b, true)?),
        (Node::Or(a, b), false) => Ok(both(alloc, want, *a, *b, false)?),
        (Node::Exists(low, _, a), true) => Ok(for_some(alloc, want, *low, *a)?),
        (Node::Exists(low, _, a), false) => Ok(for_none(alloc, want, *low, *a)?),
        (Node::Dist(a, distance), _) => Ok(at_distance(alloc, under, want, *a, distance)?),
    }
}

/// Both parts are as said.
fn both(alloc: Global, want: &Want, a: u32, b: u32, sign: bool) -> Result<Fate, AllocError>
    ensures { IfOk result (λ told. fate_told told ≡ Becomes (part want.entry.now a sign ∷ part want.entry.now b sign ∷ [])) }
{
    Ok(Fate::Both(part(alloc, want, a, sign)?, part(alloc, want, b, sign)?))
}

/// The first part is as said, or it is not and the second is.
fn either(alloc: Global, want: &Want, a: u32, b: u32, sign: bool) -> Result<Fate, AllocError>
    ensures { IfOk result (λ told. fate_told told
        ≡ Parts (part want.entry.now a sign ∷ []) (part want.entry.now a (not sign) ∷ part want.entry.now b sign ∷ [])) }
{
    Ok(Fate::Parts(
        part(alloc, want, a, sign)?,
        part(alloc, want, a, !sign)?,
        part(alloc, want, b, sign)?,
    ))
}

/// The body is true for the first value, or it is not and it is for one of those behind.
fn for_some(alloc: Global, want: &Want, low: i64, a: u32) -> Result<Fate, AllocError>
    requires low_near { IsTrue (is_written low) }
    requires not_last { want.now.from + 1 < 2 ^ 32 }
    ensures { IfOk result (λ told. fate_told told
        ≡ Parts (body want.entry.now low a true ∷ []) (body want.entry.now low a false ∷ later want.entry.now ∷ [])) }
{
    Ok(Fate::Parts(
        body(alloc, want, low, a, true)?,
        body(alloc, want, low, a, false)?,
        later(alloc, want)?,
    ))
}

/// The body is false for the first value and for those behind.
fn for_none(alloc: Global, want: &Want, low: i64, a: u32) -> Result<Fate, AllocError>
    requires low_near { IsTrue (is_written low) }
    requires not_last { want.now.from + 1 < 2 ^ 32 }
    ensures { IfOk result (λ told. fate_told told ≡ Becomes (body want.entry.now low a false ∷ later want.entry.now ∷ [])) }
{
    Ok(Fate::Both(body(alloc, want, low, a, false)?, later(alloc, want)?))
}

/// The part is as wanted at the instant at a distance; outside time nothing is wanted.
fn at_distance(
    alloc: Global,
    under: Interpretation<'_>,
    want: &Want,
    a: u32,
    distance: &Term,
) -> Result<Fate, AllocError>
    requires sets_fit { AreSets (world_of_core under.core.now) under.doms.now }
    requires term_fits { NodeTermFits (world_of_core under.core.now) distance.now under.values.now }
    requires instant_in { want.now.now < under.core.now.instants }
    requires known { (z : ℤ) × (value3 (world_of_core under.core.now) distance.now under.values.now (known_at (world_of_core under.core.now) under.doms.now) want.now.now ≡ One z) }
    ensures { IfOk result (λ told. fate_told told
        ≡ dist_row (world_of_core under.entry.core.now) want.entry.now a (value3 (world_of_core under.entry.core.now) distance.now under.entry.values.now (known_at (world_of_core under.entry.core.now) under.entry.doms.now) want.entry.now.now)) }
{
    let Known::One(distance) = term_value(under, distance, want.now) else {
        unreachable!()
    };
    let target = i64::from(want.now) + distance;
    if target >= 0 && target < i64::from(under.core.instants) {
        Ok(Fate::One(part_at(alloc, want, a, target as u32)?))
    } else {
        Ok(Fate::Dropped)
    }
}

/// That a part is true or false.
fn part(alloc: Global, want: &Want, a: u32, sign: bool) -> Result<Want, AllocError>
    ensures { IfOk result (λ made. made ≡ part want.entry.now a sign) }
{
    let env = want.env.copy(alloc)?;
    Ok(Want {
        node: a,
        now: want.now,
        env,
        sign,
        from: 0,
    })
}

/// That a part is as wanted at another instant.
fn part_at(alloc: Global, want: &Want, a: u32, instant: u32) -> Result<Want, AllocError>
    ensures { IfOk result (λ made. made ≡ part_at want.entry.now a instant) }
{
    let env = want.env.copy(alloc)?;
    Ok(Want {
        node: a,
        now: instant,
        env,
        sign: want.sign,
        from: 0,
    })
}

/// That the body of an Exists is true or false for the first of its values that are left.
fn body(alloc: Global, want: &Want, low: i64, a: u32, sign: bool) -> Result<Want, AllocError>
    requires low_near { IsTrue (is_written low) }
    ensures { IfOk result (λ made. made ≡ body want.entry.now low a sign) }
{
    let mut env = want.env.copy(alloc)?;
    env.push(low + i64::from(want.from))?;
    Ok(Want {
        node: a,
        now: want.now,
        env,
        sign,
        from: 0,
    })
}

/// The same want over the values behind the first.
fn later(alloc: Global, want: &Want) -> Result<Want, AllocError>
    requires not_last { want.now.from + 1 < 2 ^ 32 }
    ensures { IfOk result (λ made. made ≡ later want.entry.now) }
{
    let mut made = copy_want(alloc, want)?;
    made.from += 1;
    Ok(made)
}
