//! Whether cores and their nodes are equal. It takes no memory, and goes over the whole of both.
ghost use Rattle.std.specs.Prelude.{◌≡◌, ◌↔◌, IsTrue};

use crate::nodes::{Core, Node, Root};
use trio_types::comparing::{Same, same_all, same_term};

/// Whether two cores are equal.
pub fn same_core(left: &Core, right: &Core) -> bool
    ensures { IsTrue result ↔ (left.now ≡ right.now) }
{
    left.instants == right.instants
        && same_all(left.domains.as_slice(), right.domains.as_slice())
        && same_all(left.items.as_slice(), right.items.as_slice())
        && same_all(left.nodes.as_slice(), right.nodes.as_slice())
        && same_all(left.roots.as_slice(), right.roots.as_slice())
}

impl Same for Node {
    fn same(&self, other: &Node) -> bool {
        match (self, other) {
            (Node::Atom(rel, first, second), Node::Atom(other, third, fourth)) => {
                *rel == *other && same_term(first, third) && same_term(second, fourth)
            }
            (Node::Not(part), Node::Not(other)) => *part == *other,
            (Node::And(first, second), Node::And(third, fourth)) => {
                *first == *third && *second == *fourth
            }
            (Node::Or(first, second), Node::Or(third, fourth)) => {
                *first == *third && *second == *fourth
            }
            (Node::Exists(low, high, part), Node::Exists(other_low, other_high, other)) => {
                *low == *other_low && *high == *other_high && *part == *other
            }
            (Node::Dist(part, distance), Node::Dist(other, far)) => {
                *part == *other && same_term(distance, far)
            }
            _ => false,
        }
    }
}

impl Same for Root {
    fn same(&self, other: &Root) -> bool {
        self.node == other.node && self.at == other.at
    }
}
