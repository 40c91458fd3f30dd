//! Each call on problems and branches once, with ample memory.
ghost use Rattle.branch_state.specs.Branches.{Fits};

use super::branches::{branch_text, fitting_root, problem_of, stepped};
use super::claims::{holds, same as equal};
use super::tables::read_table;
use super::weights::weight;
use branch_state::{Branch, Env, Problem, copy, holds as holds_in, of_table, same, same_problem};
use decompose::{Fork, Stepped};
use derived_ops::with_goal;
use std::process::Abort;
use trio_reader::{read_spec, spec_text};
use trio_types::Bytes;

const LASTING: &str = "time 3; item p : bool; axiom A : Dist(true, 1) & p -> Futr(p, 1);";

/// The same with another name for the axiom.
const RENAMED: &str = "time 3; item p : bool; axiom B : Dist(true, 1) & p -> Futr(p, 1);";

const OPEN: &str = "p: ? ? ?";

/// Asserts what the root of the problem is and weighs.
fn root_is(rt: &(impl Abort + AllocGlobal), problem: &Problem) {
    let root = fitting_root(rt, problem);
    equal(rt, &weight(rt, problem, &root), &33);
    let text = branch_text(rt, &root);
    equal(rt, &text.as_str(), &"3 3 3; 9 0 t 0; 9 1 t 0; 9 2 t 0");
}

/// Whether the root of a problem holds in a table.
fn root_holds(rt: &(impl Abort + AllocGlobal), problem: &Problem, table: &str) -> bool {
    let root = fitting_root(rt, problem);
    let table = read_table(rt, &problem.spec, table);
    holds_in(problem, &root, &table)
}

/// Whether the root holds, table by table.
const IN_TABLES: [(&str, bool); 5] = [
    ("p: 0 0 1", true),
    ("p: 1 0 0", false),
    ("p: 0 0 0", true),
    ("p: 0 1 0", false),
    ("p: 1 1 1", true),
];

fn root_holds_in(rt: &(impl Abort + AllocGlobal), problem: &Problem) {
    for (table, want) in &IN_TABLES {
        assert_eq!(rt; root_holds(rt, problem, table), *want, "{table}");
    }
}

/// Asserts what the branch of a table is.
fn branch_of_table_is(rt: &(impl Abort + AllocGlobal), problem: &Problem) {
    let table = read_table(rt, &problem.spec, "p: 0 1 1");
    let branch = of_table(rt.alloc(), problem, &table).expect(rt, "memory");
    let text = branch_text(rt, &branch);
    equal(rt, &text.as_str(), &"1 2 2");
}

/// Asserts that a copy of the root is the root, and differs from its halves.
fn is_copied(rt: &(impl Abort + AllocGlobal), problem: &Problem) {
    let root = fitting_root(rt, problem);
    let copied = copy(rt.alloc(), &root).expect(rt, "memory");
    holds(rt, same(&root, &copied));
    parts_in_two(rt, problem, root, &copied);
}

/// Asserts that a branch is parted in two that differ, and that the fork holds it and the two.
fn parts_in_two(rt: &(impl Abort + AllocGlobal), problem: &Problem, branch: Branch, copied: &Branch)
    requires { Fits problem.now branch }
{
    match stepped(rt, problem, branch) {
        Stepped::Two(fork, left, right) => is_fork_of(rt, &fork, copied, &left, &right),
        _ => panic!(rt; "the branch has no halves"),
    }
}

fn is_fork_of(rt: &impl Abort, fork: &Fork<'_>, start: &Branch, left: &Branch, right: &Branch) {
    holds(rt, same(fork.start(), start));
    holds(rt, same(fork.left(), left));
    holds(rt, same(fork.right(), right));
    holds(rt, !same(left, right));
    holds(rt, !same(left, start));
}

/// Whether the problem of these texts is the same.
fn is_same(rt: &(impl Abort + AllocGlobal), problem: &Problem, spec: &str, given: &str) -> bool {
    let other = problem_of(rt, spec, given.as_bytes());
    same_problem(problem, &other)
}

/// Texts of problems, and whether they are the same as the problem of the first two.
const PROBLEMS: [(&str, &str, bool); 3] = [
    (LASTING, OPEN, true),
    (LASTING, "p: ? ? 0", false),
    (RENAMED, OPEN, false),
];

fn are_the_same(rt: &(impl Abort + AllocGlobal), problem: &Problem) {
    for (spec, given, want) in &PROBLEMS {
        assert_eq!(rt; is_same(rt, problem, spec, given), *want, "{spec} {given}");
    }
}

/// Asserts what each call gives on one problem.
fn calls_give(rt: &(impl Abort + AllocGlobal), problem: &Problem) {
    root_is(rt, problem);
    root_holds_in(rt, problem);
    branch_of_table_is(rt, problem);
    is_copied(rt, problem);
    are_the_same(rt, problem);
}

#[test]
fn the_calls_on_a_problem(rt: HostRuntime) {
    let problem = problem_of(&rt, LASTING, OPEN.as_bytes());
    calls_give(&rt, &problem);
}

/// The values 4, -1, 7, 2 and 3.
fn five_values(rt: &(impl Abort + AllocGlobal)) -> Env {
    let mut values = Env::from_slice(rt.alloc(), &[4, -1, 7]).expect(rt, "memory");
    values.push(2).expect(rt, "memory");
    values.push(3).expect(rt, "memory");
    values
}

#[test]
fn lists_of_values(rt: HostRuntime) {
    let mut values = five_values(&rt);
    assert!(rt; values.len() == 5);
    equal(&rt, &values.get(1), &-1);
    values.set(1, 9);
    let copied = values.copy(rt.alloc()).expect(&rt, "memory");
    equal(&rt, &values.pop(), &Some(3));
    equal(&rt, &values.as_slice(), &[4, 9, 7, 2].as_slice());
    equal(&rt, &copied.as_slice(), &[4, 9, 7, 2, 3].as_slice());
}

#[test]
fn an_empty_list_of_values(rt: HostRuntime) {
    let mut values = Env::new(rt.alloc());
    equal(&rt, &values.len(), &0);
    equal(&rt, &values.pop(), &None);
}

/// The text of a specification whose first goal is an axiom instead.
fn with_first_goal(rt: &(impl Abort + AllocGlobal), text: &str) -> Bytes {
    let spec = read_spec(rt.alloc(), text.as_bytes()).expect(rt, "specification");
    assert!(rt; spec.goals.len() == 2);
    let made = with_goal(rt.alloc(), &spec, 0).expect(rt, "memory");
    spec_text(rt.alloc(), &made).expect(rt, "memory")
}

#[test]
fn a_goal_as_an_axiom(rt: HostRuntime) {
    let text = with_first_goal(
        &rt,
        "time 1; item p : bool; axiom A : p; goal G : !p; goal H at 0 : p;",
    );
    equal(
        &rt,
        &text.as_slice(),
        &b"time 1;\nitem p : bool;\naxiom A : p;\naxiom G : !p;\ngoal H at 0 : p;\n".as_slice(),
    );
}
