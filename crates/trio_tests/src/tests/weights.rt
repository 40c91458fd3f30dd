//! The weights of branches: what their sets have beside one value each, and the counts of their wants.
use branch_state::{Branch, Core, Node, Problem, Want};
use std::process::Abort;

/// The weight of a branch.
pub fn weight(rt: &(impl Abort + AllocGlobal), problem: &Problem, branch: &Branch) -> u64 {
    let core = problem.core();
    let counts = counts_of(rt, core);
    let sets = sets_weight(branch.doms.as_slice());
    let wants = wants_weight(core, counts.as_slice(), branch.wants.as_slice());
    sets.saturating_add(wants)
}

fn sets_weight(sets: &[u64]) -> u64 {
    let mut sum = 0_u64;
    for set in sets {
        let members = u64::from(set.count_ones());
        sum = sum.saturating_add(members.saturating_sub(1));
    }
    sum
}

fn wants_weight(core: &Core, counts: &[u64], wants: &[Want]) -> u64 {
    let mut sum = 0_u64;
    for want in wants {
        sum = sum.saturating_add(want_weight(core, counts, want));
    }
    sum
}

fn want_weight(core: &Core, counts: &[u64], want: &Want) -> u64 {
    match core.nodes.as_slice().get(want.node as usize) {
        Some(node) => count_of(counts, want.from, node),
        None => 1,
    }
}

/// The counts of the nodes in order.
fn counts_of(rt: &(impl Abort + AllocGlobal), core: &Core) -> Vec<u64> {
    let mut counts = Vec::new(rt.alloc());
    for node in core.nodes.as_slice() {
        let count = count_of(counts.as_slice(), 0, node);
        counts.push(count).expect(rt, "memory");
    }
    counts
}

/// The count of a node by those of the nodes before it; an Exists ranges over its values from this index on.
fn count_of(counts: &[u64], from: u32, node: &Node) -> u64 {
    match node {
        Node::Atom(_, _, _) => 1,
        Node::Not(part) => one_more(part_count(counts, *part)),
        Node::Dist(part, _) => one_more(part_count(counts, *part)),
        Node::And(left, right) => of_two(counts, *left, *right),
        Node::Or(left, right) => of_two(counts, *left, *right),
        Node::Exists(low, high, part) => {
            let each = one_more(part_count(counts, *part));
            let values = values_left(*low, *high, from);
            one_more(each.saturating_mul(values))
        }
    }
}

fn one_more(count: u64) -> u64 {
    count.saturating_add(1)
}

fn of_two(counts: &[u64], left: u32, right: u32) -> u64 {
    let left = part_count(counts, left);
    let right = part_count(counts, right);
    one_more(left.saturating_add(right))
}

fn part_count(counts: &[u64], part: u32) -> u64 {
    match counts.get(part as usize) {
        Some(count) => *count,
        None => 1,
    }
}

/// How many values there are from the first to the last, without so many.
fn values_left(first: i64, last: i64, passed: u32) -> u64 {
    match u64::try_from(last.saturating_sub(first)) {
        Ok(more) => one_more(more).saturating_sub(u64::from(passed)),
        Err(_) => 0,
    }
}
