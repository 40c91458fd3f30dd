//! Problems of texts, their branches and steps, and these as texts: the sets of a branch as numbers, and behind each `;` a want, by its node,
//! instant, sign and first index, and the values of variables.
ghost use Rattle.std.specs.Prelude.{◌≡◌, ◌<◌};
ghost use Rattle.branch_state.specs.Branches.{Fits};
ghost use Rattle.decompose.specs.Stepped.{IsStep};

use super::texts::Text;
use branch_state::laws::root_represents_the_models;
use branch_state::{Branch, Problem, Want, pose, root};
use decompose::{Fork, ForkParts, Stepped, Steps, Why, step};
use derived_ops::rewrite;
use history_table::{Table, read_history};
use std::marker::Brand;
use std::process::Abort;
use std::sync::ledger::{Blank, Ledger};
use trio_reader::read_spec;

/// The problem of a specification's text and a history's.
pub fn problem_of(rt: &(impl Abort + AllocGlobal), spec: &str, history: &[u8]) -> Problem {
    let alloc = rt.alloc();
    let spec = read_spec(alloc, spec.as_bytes()).expect(rt, "specification");
    let core = rewrite(alloc, &spec).expect(rt, "memory");
    let given = read_history(alloc, &spec, history).expect(rt, "history");
    pose(spec, core, given)
}

/// The root of a problem.
pub fn fitting_root(rt: &(impl Abort + AllocGlobal), problem: &Problem) -> Branch
    ensures { Fits problem.now result }
{
    root_represents_the_models();
    let _core = problem.core();
    match root(rt.alloc(), problem) {
        Ok(branch) => branch,
        Err(_) => panic!(rt; "memory"),
    }
}

/// A step, over a count of its own.
pub fn stepped<'p>(
    rt: &(impl Abort + AllocGlobal),
    problem: &'p Problem,
    branch: Branch,
) -> Stepped<'p>
    requires { Fits problem.now branch }
    ensures { IsStep problem.now branch result }
{
    counted::<Brand>(rt, problem, branch, Blank::new(1))
}

fn counted<'p, L: Ledger>(
    rt: &(impl Abort + AllocGlobal),
    problem: &'p Problem,
    branch: Branch,
    blank: Blank,
) -> Stepped<'p>
    requires fits { Fits problem.now branch }
    requires name { blank.name ≡ L.name }
    requires parts { blank.parts ≡ L.parts }
    requires some { 0 < blank.parts }
    ensures { IsStep problem.now branch result }
{
    let mut steps = Steps::<L>::start(blank);
    match step(rt.alloc(), problem, branch, &mut steps) {
        Ok(stepped) => stepped,
        Err(_) => panic!(rt; "memory"),
    }
}

/// The left or the right one of two halves.
pub fn half(problem: &Problem, fork: Fork<'_>, is_left: bool) -> Branch
    requires { fork.problem ≡ problem.now }
    ensures { Fits problem.now result }
{
    let ForkParts { left, right, .. } = fork.into_parts();
    if is_left { left } else { right }
}

/// The sets and wants of a branch.
pub fn branch_text(rt: &(impl Abort + AllocGlobal), branch: &Branch) -> String {
    let mut text = Text::new(rt.alloc());
    add_branch(&mut text, branch);
    text.whole(rt)
}

/// Puts the sets and wants of a branch behind a text.
pub fn add_branch(text: &mut Text, branch: &Branch) {
    add_sets(text, branch.doms.as_slice());
    for want in branch.wants.as_slice() {
        add_want(text, want);
    }
}

fn add_sets(text: &mut Text, sets: &[u64]) {
    let mut is_first = true;
    for set in sets {
        text.put(if is_first { "" } else { " " });
        text.put_value(*set);
        is_first = false;
    }
}

fn add_want(text: &mut Text, want: &Want) {
    text.put("; ");
    text.put_value(want.node);
    text.put(" ");
    text.put_value(want.now);
    text.put(if want.sign { " t " } else { " f " });
    text.put_value(want.from);
    for value in want.env.as_slice() {
        text.put(" ");
        text.put_value(*value);
    }
}

/// Why a branch is closed, or the indexes of its table, or its two halves with `|` between them.
pub fn step_text(rt: &(impl Abort + AllocGlobal), stepped: &Stepped<'_>) -> String {
    let mut text = Text::new(rt.alloc());
    match stepped {
        Stepped::Closed(shut) => match shut.why() {
            Why::False => text.put("closed false"),
            Why::Want => text.put("closed want"),
        },
        Stepped::Whole(leaf) => add_table(&mut text, leaf.table()),
        Stepped::Two(_, left, right) => {
            add_branch(&mut text, left);
            text.put(" | ");
            add_branch(&mut text, right);
        }
    }
    text.whole(rt)
}

fn add_table(text: &mut Text, table: &Table) {
    text.put("whole");
    for index in table.as_slice() {
        text.put(" ");
        text.put_value(*index);
    }
}
