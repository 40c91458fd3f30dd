//! The counts of terms.

ghost use Rattle.std.specs.Prelude.{◌≡◌};
ghost use Rattle.trio_limits.specs.Ground.{world_of_ground};
ghost use Rattle.trio_limits.specs.Counting.{term_counts_of};
ghost use Rattle.trio_limits.specs.Counting as spec;

use crate::counts::{ArgumentCounts, PartCounts, TermCounts};
use crate::ground::Ground;
use trio_types::{SignedTerm, Term};

/// The counts of a term, where these are the domains of the variables in whose bodies it stands.
#[cycle(terms)]
pub fn counts_of(ground: &Ground<'_>, variables: &[u32], term: &Term) -> TermCounts
    ensures { result ≡ term_counts_of (world_of_ground ground.now) variables.now term.now }
{
    match term {
        Term::Number(number) => TermCounts::of_leaf(u64::from(*number)),
        Term::Value(domain, _) => TermCounts::of_leaf(ground.bound_of(*domain)),
        Term::Var(level) => TermCounts::of_leaf(ground.variable_bound(variables, *level)),
        Term::Read(item, arguments) => {
            let own = ground.item_bound(*item);
            let arguments = arguments_of(ground, variables, arguments.as_slice());
            TermCounts {
                own,
                most: own.max(arguments.most),
                plain: arguments.plain,
                as_part: arguments.plain,
                as_factor: arguments.plain,
            }
        }
        Term::Sum(parts) => {
            let parts = parts_of(ground, variables, parts.as_slice());
            let bracketed = parts.as_part.saturating_add(1);
            TermCounts {
                own: parts.own,
                most: parts.own.max(parts.most),
                plain: parts.as_part,
                as_part: bracketed,
                as_factor: bracketed,
            }
        }
        Term::Times(number, factor) => {
            let factor = counts_of(ground, variables, factor.get());
            let own = u64::from(*number).saturating_mul(factor.own);
            TermCounts {
                own,
                most: own.max(factor.most),
                plain: factor.as_factor,
                as_part: factor.as_factor,
                as_factor: factor.as_factor.saturating_add(1),
            }
        }
    }
}

#[cycle(terms)]
fn arguments_of(ground: &Ground<'_>, variables: &[u32], arguments: &[Term]) -> ArgumentCounts
    ensures { result ≡ spec.arguments_of (world_of_ground ground.now) variables.now arguments.now }
{
    let mut counts = ArgumentCounts { most: 0, plain: 0 };
    for argument in arguments {
        let more = counts_of(ground, variables, argument);
        counts = ArgumentCounts {
            most: counts.most.max(more.most),
            plain: counts.plain.max(more.plain.saturating_add(1)),
        };
    }
    counts
}

#[cycle(terms)]
fn parts_of(ground: &Ground<'_>, variables: &[u32], parts: &[SignedTerm]) -> PartCounts
    ensures { result ≡ spec.part_counts (world_of_ground ground.now) variables.now parts.now }
{
    let mut counts = PartCounts {
        own: 0,
        most: 0,
        as_part: 0,
    };
    for part in parts {
        let more = counts_of(ground, variables, &part.term);
        counts = PartCounts {
            own: counts.own.saturating_add(more.own),
            most: counts.most.max(more.most),
            as_part: counts.as_part.max(more.as_part),
        };
    }
    counts
}
