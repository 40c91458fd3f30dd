//! The three-valued truth of nodes and of cores.
ghost use Rattle.std.specs.Prelude.{◌≡◌, ◌<◌, ◌∷◌, ◌++◌, [], IsTrue, drop, length};
ghost use Rattle.trio_types.specs.WellFormed.{is_written};
ghost use Rattle.trio_core.specs.Core.{numbers};
ghost use Rattle.trio_core.specs.CoreShape.{root_fits};
ghost use Rattle.trio_core.specs.Sets.{AreSets};
ghost use Rattle.trio_core.specs.Three.{core_truth3, any3};
ghost use Rattle.trio_core.specs.Stands.{world_of_core, NodeAsked, root_truth3, spec_truth3};
ghost use Rattle.trio_core.specs.Fits.{BodyFits};

use crate::doms::Doms;
use crate::interpretation::Interpretation;
use crate::kleene::{both, compare, either, opposite};
use crate::nodes::{Core, Known, MOST_ROUND, Node, Root, Three};
use crate::terms::quick_value;

/// The three-valued truth of a node at an instant under sets of values, where an Exists ranges over its values from an index on.
pub fn truth3(core: &Core, node: u32, from: u32, now: u32, env: &[i64], doms: &Doms) -> Three
    requires sets_fit { AreSets (world_of_core core.now) doms.now }
    requires asked { NodeAsked core.now node from now env.now }
    ensures { result ≡ core_truth3 (world_of_core core.now) core.now.nodes node from env.now doms.now now }
{
    truth3_in(core, node, from, now, env, doms.as_slice())
}

/// The same under the sets of a slice.
pub fn truth3_in(core: &Core, node: u32, from: u32, now: u32, env: &[i64], doms: &[u64]) -> Three
    requires sets_fit { AreSets (world_of_core core.now) doms.now }
    requires asked { NodeAsked core.now node from now env.now }
    ensures { result ≡ core_truth3 (world_of_core core.now) core.now.nodes node from env.now doms.now now }
{
    let under = Interpretation {
        core,
        doms,
        values: env,
    };
    node_truth(&under, node, from, now)
}

/// The three-valued truth of a core under sets of values: whether all roots are true at their instants.
pub fn spec_truth3(core: &Core, doms: &Doms) -> Three
    requires { AreSets (world_of_core core.now) doms.now }
    ensures { result ≡ spec_truth3 core.now doms.now }
{
    let mut found = Three::True;
    for root in core.roots.as_slice() {
        found = both(found, root_truth(core, *root, doms));
        if let Three::False = found {
            return found;
        }
    }
    found
}

/// Whether a root is true at its instants.
fn root_truth(core: &Core, root: Root, doms: &Doms) -> Three
    requires sets_fit { AreSets (world_of_core core.now) doms.now }
    requires root_fits { IsTrue (root_fits (world_of_core core.now) core.now.nodes root) }
    ensures { result ≡ root_truth3 core.now doms.now root }
{
    let under = Interpretation {
        core,
        doms: doms.as_slice(),
        values: &[],
    };
    if let Some(instant) = root.at {
        return node_truth(&under, root.node, 0, instant);
    }
    let mut found = Three::True;
    for instant in 0..core.instants {
        found = both(found, node_truth(&under, root.node, 0, instant));
        if let Three::False = found {
            return found;
        }
    }
    found
}

/// The truth of a node, where an Exists ranges over its values from an index on.
#[cycle(truth)]
fn node_truth(under: &Interpretation<'_>, node: u32, from: u32, instant: u32) -> Three
    requires sets_fit { AreSets (world_of_core under.now.core.now) under.now.doms.now }
    requires asked { NodeAsked under.now.core.now node from instant under.now.values.now }
    ensures { result ≡ core_truth3 (world_of_core under.now.core.now) under.now.core.now.nodes node from under.now.values.now under.now.doms.now instant }
{
    match under.core.nodes.get(node as usize) {
        Node::Atom(rel, left, right) => {
            let left = quick_value(under, left, instant);
            let right = quick_value(under, right, instant);
            compare(*rel, left, right)
        }
        Node::Not(part) => opposite(node_truth(under, *part, 0, instant)),
        Node::And(left, right) => match node_truth(under, *left, 0, instant) {
            Three::False => Three::False,
            Three::Unknown => both(Three::Unknown, node_truth(under, *right, 0, instant)),
            Three::True => node_truth(under, *right, 0, instant),
        },
        Node::Or(left, right) => match node_truth(under, *left, 0, instant) {
            Three::False => node_truth(under, *right, 0, instant),
            Three::Unknown => either(Three::Unknown, node_truth(under, *right, 0, instant)),
            Three::True => Three::True,
        },
        Node::Exists(low, high, part) => for_some(under, *low, *high, *part, from, instant),
        Node::Dist(part, distance) => {
            let Known::One(distance) = quick_value(under, distance, instant) else {
                unreachable!()
            };
            let target = i64::from(instant) + distance;
            if target >= 0 && target < i64::from(under.core.instants) {
                node_truth(under, *part, 0, target as u32)
            } else {
                Three::False
            }
        }
    }
}

/// Whether a node is true for one of the whole numbers from low to high, from an index on, as one more variable.
#[cycle(truth)]
fn for_some(
    under: &Interpretation<'_>,
    low: i64,
    high: i64,
    part: u32,
    from: u32,
    instant: u32,
) -> Three
    requires sets_fit { AreSets (world_of_core under.now.core.now) under.now.doms.now }
    requires body { BodyFits under.now.core.now low high part from instant under.now.values.now }
    ensures { result
        ≡ any3 (λ z. core_truth3 (world_of_core under.now.core.now) under.now.core.now.nodes part 0 (under.now.values.now ++ z ∷ []) under.now.doms.now instant) (drop from (numbers low high)) }
{
    let level = under.values.len();
    let mut inner = [0; MOST_ROUND as usize];
    inner[..level].copy_from_slice(under.values);
    let mut found = Three::False;
    for index in from..number_of(low, high) {
        inner[level] = low + i64::from(index);
        let further = Interpretation {
            values: &inner[..level + 1],
            ..*under
        };
        found = either(found, node_truth(&further, part, 0, instant));
        if let Three::True = found {
            return found;
        }
    }
    found
}

/// How many whole numbers there are from low to high.
fn number_of(low: i64, high: i64) -> u32
    requires low_near { IsTrue (is_written low) }
    requires high_near { IsTrue (is_written high) }
    ensures { result ≡ length (numbers low high) }
{
    if low <= high {
        (high - low + 1) as u32
    } else {
        0
    }
}
