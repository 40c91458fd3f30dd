//! The first count above its limit.

ghost use Rattle.std.specs.Prelude.{◌≡◌, ◌*◌, true, length, sum_by, map, IfOk};
ghost use Rattle.trio_types.specs.Cells.{tuples, cells_of, cell_size};
ghost use Rattle.trio_types.specs.Nest as nest_spec;
ghost use Rattle.trio_types.specs.Bounds.{greatest};
ghost use Rattle.trio_types.specs.WellFormed.{domains_fit};
ghost use Rattle.trio_limits.specs.Given.{given_count};
ghost use Rattle.trio_limits.specs.Draft.{parts_of_draft};
ghost use Rattle.trio_limits.specs.Ground.{world_of_ground};
ghost use Rattle.trio_limits.specs.Claims as claims_spec;
ghost use Rattle.trio_limits.specs.Limits.{count_fault};
ghost use Rattle.trio_limits.specs.Totals as totals_spec;

use crate::counts::ClaimCounts;
use crate::draft::Draft;
use crate::formulas::counts_of;
use crate::ground::Ground;
use crate::totals::Totals;
use std::alloc::{AllocError, Global};
use trio_types::{Axiom, Item, Which};

/// The first count of a draft that is above its limit, with the count; one that 64 bits do not hold is given as the greatest number that
/// they do. Only want of memory refuses it.
pub fn first_above_limit(alloc: Global, draft: &Draft) -> Result<Option<(Which, u64)>, AllocError>
    requires { domains_fit (parts_of_draft draft.now) ≡ true }
    ensures { IfOk result (λ found. found ≡ count_fault (parts_of_draft draft.now)) }
{
    let totals = totals_of(alloc, draft)?;
    Ok(totals.first_above())
}

fn totals_of(alloc: Global, draft: &Draft) -> Result<Totals, AllocError>
    requires { domains_fit (parts_of_draft draft.now) ≡ true }
    ensures { IfOk result (λ totals. totals ≡ totals_spec.totals_of (parts_of_draft draft.now)) }
{
    let ground = Ground {
        instants: draft.instants,
        domains: draft.domains.as_slice(),
        items: draft.items.as_slice(),
    };
    let axioms = claims_counts(alloc, &ground, draft.axioms.as_slice())?;
    let goals = claims_counts(alloc, &ground, draft.goals.as_slice())?;
    let nest = axioms.plain.max(goals.plain);
    Ok(Totals {
        items: draft.items.len() as u64,
        cells: cell_count(&ground),
        sizes: size_count(&ground),
        bound: axioms.bound.max(goals.bound),
        instances: axioms.instances.saturating_add(goals.instances),
        nest: item_nests(draft.items.as_slice()).max(nest),
    })
}

/// How many cells there are.
fn cell_count(ground: &Ground<'_>) -> u64
    ensures { result ≡ given_count (length (cells_of (world_of_ground ground.now))) }
{
    let mut rows: u64 = 0;
    for item in ground.items {
        rows = rows.saturating_add(tuple_count(ground, item.args.as_slice()));
    }
    rows.saturating_mul(u64::from(ground.instants))
}

/// The sum of the numbers of values of all cells.
fn size_count(ground: &Ground<'_>) -> u64
    ensures { result ≡ given_count (sum_by (cell_size (world_of_ground ground.now)) (cells_of (world_of_ground ground.now))) }
{
    let mut sizes: u64 = 0;
    for item in ground.items {
        let rows = tuple_count(ground, item.args.as_slice());
        sizes = sizes.saturating_add(rows.saturating_mul(ground.size_of(item.value)));
    }
    sizes.saturating_mul(u64::from(ground.instants))
}

/// How many tuples these argument domains have.
fn tuple_count(ground: &Ground<'_>, domains: &[u32]) -> u64
    ensures { result ≡ given_count (length (tuples ground.now.domains.now domains.now)) }
{
    let mut count: u64 = 1;
    for domain in domains {
        count = count.saturating_mul(ground.size_of(*domain));
    }
    count
}

/// The most brackets of the declarations of items.
fn item_nests(items: &[Item]) -> u64
    ensures { result ≡ greatest (map nest_spec.item_nest items.now) }
{
    let mut nest: u64 = 0;
    for item in items {
        nest = nest.max(item_nest(item));
    }
    nest
}

/// One where an item has arguments, which stand in brackets.
fn item_nest(item: &Item) -> u64
    ensures { result ≡ nest_spec.item_nest item.now }
{
    if item.args.is_empty() { 0 } else { 1 }
}

/// The greatest bound of the formulas of axioms or goals, their instances at all instants, and the most brackets of their texts.
fn claims_counts(
    alloc: Global,
    ground: &Ground<'_>,
    claims: &[Axiom],
) -> Result<ClaimCounts, AllocError>
    ensures { IfOk result (λ counts. counts ≡ claims_spec.claims_counts (world_of_ground ground.now) claims.now) }
{
    let mut variables = Vec::new(alloc);
    let mut counts = ClaimCounts {
        bound: 0,
        instances: 0,
        plain: 0,
    };
    for claim in claims {
        let more = counts_of(ground, &mut variables, &claim.formula)?;
        let instances = u64::from(ground.instants).saturating_mul(more.instances);
        counts = ClaimCounts {
            bound: counts.bound.max(more.bound),
            instances: counts.instances.saturating_add(instances),
            plain: counts.plain.max(more.plain),
        };
    }
    Ok(counts)
}
