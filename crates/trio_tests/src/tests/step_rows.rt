//! Worked rows of steps.
ghost use Rattle.branch_state.specs.Branches.{Fits};

use super::branches::{branch_text, fitting_root, half, problem_of, step_text, stepped};
use branch_state::{Branch, Problem};
use decompose::Stepped;
use std::process::Abort;

/// A specification and a given history; on a path of left and right halves from the root a branch, and what a step makes of it.
struct Row {
    spec: &'static str,
    given: &'static str,
    path: &'static str,
    branch: &'static str,
    step: &'static str,
}

const LASTING: &str = "time 3; item p : bool; axiom A : Dist(true, 1) & p -> Futr(p, 1);";

/// Where there is a next instant, `p` lasts to it.
const LASTING_ROWS: [Row; 5] = [
    Row {
        spec: LASTING,
        given: "p: ? ? ?",
        path: "",
        branch: "3 3 3; 9 0 t 0; 9 1 t 0; 9 2 t 0",
        step: "3 3 3; 4 0 t 0; 9 1 t 0; 9 2 t 0 | 3 3 3; 4 0 f 0; 8 0 t 0; 9 1 t 0; 9 2 t 0",
    },
    Row {
        spec: LASTING,
        given: "p: ? ? ?",
        path: "l",
        branch: "3 3 3; 4 0 t 0; 9 1 t 0; 9 2 t 0",
        step: "3 3 3; 1 0 f 0; 9 1 t 0; 9 2 t 0 | 3 3 3; 1 0 t 0; 2 0 f 0; 9 1 t 0; 9 2 t 0",
    },
    Row {
        spec: LASTING,
        given: "p: ? ? ?",
        path: "ll",
        branch: "3 3 3; 1 0 f 0; 9 1 t 0; 9 2 t 0",
        step: "closed want",
    },
    Row {
        spec: LASTING,
        given: "p: ? ? ?",
        path: "lr",
        branch: "3 3 3; 1 0 t 0; 2 0 f 0; 9 1 t 0; 9 2 t 0",
        step: "1 3 3; 2 0 f 0; 9 1 t 0; 9 2 t 0 | 2 3 3; 2 0 f 0; 9 1 t 0; 9 2 t 0",
    },
    Row {
        spec: LASTING,
        given: "p: ? ? ?",
        path: "lrl",
        branch: "1 3 3; 2 0 f 0; 9 1 t 0; 9 2 t 0",
        step: "1 3 3; 4 1 t 0; 9 2 t 0 | 1 3 3; 4 1 f 0; 8 1 t 0; 9 2 t 0",
    },
];

/// Negations, conjunctions and disjunctions, true and false.
const CONNECTIVES: [Row; 8] = [
    Row {
        spec: "time 1; item p : bool; item q : bool; axiom A : p & q;",
        given: "p: ?\nq: ?",
        path: "",
        branch: "3 3; 2 0 t 0",
        step: "1 3; 0 0 t 0; 1 0 t 0 | 2 3; 0 0 t 0; 1 0 t 0",
    },
    Row {
        spec: "time 1; item p : bool; item q : bool; axiom A : p & q;",
        given: "p: ?\nq: ?",
        path: "l",
        branch: "1 3; 0 0 t 0; 1 0 t 0",
        step: "closed false",
    },
    Row {
        spec: "time 1; item p : bool; item q : bool; axiom A : p & q;",
        given: "p: ?\nq: ?",
        path: "r",
        branch: "2 3; 0 0 t 0; 1 0 t 0",
        step: "2 1; 1 0 t 0 | 2 2; 1 0 t 0",
    },
    Row {
        spec: "time 1; item p : bool; item q : bool; axiom A : p & q;",
        given: "p: ?\nq: ?",
        path: "rr",
        branch: "2 2; 1 0 t 0",
        step: "whole 1 1",
    },
    Row {
        spec: "time 1; item p : bool; item q : bool; axiom A : !(p & q);",
        given: "p: ?\nq: ?",
        path: "",
        branch: "3 3; 3 0 t 0",
        step: "3 3; 0 0 f 0 | 3 3; 0 0 t 0; 1 0 f 0",
    },
    Row {
        spec: "time 1; item p : bool; item q : bool; axiom A : p | q;",
        given: "p: ?\nq: ?",
        path: "",
        branch: "3 3; 2 0 t 0",
        step: "3 3; 0 0 t 0 | 3 3; 0 0 f 0; 1 0 t 0",
    },
    Row {
        spec: "time 1; item p : bool; item q : bool; axiom A : !(p | q);",
        given: "p: ?\nq: ?",
        path: "",
        branch: "3 3; 3 0 t 0",
        step: "1 3; 0 0 f 0; 1 0 f 0 | 2 3; 0 0 f 0; 1 0 f 0",
    },
    Row {
        spec: "time 1; item p : bool; item q : bool; axiom A : !(!p);",
        given: "p: ?\nq: ?",
        path: "",
        branch: "3 3; 2 0 t 0",
        step: "1 3; 0 0 t 0 | 2 3; 0 0 t 0",
    },
];

/// Quantifiers, true and false, from each index.
const QUANTIFIERS: [Row; 15] = [
    Row {
        spec: "time 1; domain d = 0..2; item q(d) : bool; axiom A : ex x : d (q(x));",
        given: "q(0): ?\nq(1): ?\nq(2): ?",
        path: "",
        branch: "3 3 3; 1 0 t 0",
        step: "3 3 3; 0 0 t 0 0 | 3 3 3; 0 0 f 0 0; 1 0 t 1",
    },
    Row {
        spec: "time 1; domain d = 0..2; item q(d) : bool; axiom A : ex x : d (q(x));",
        given: "q(0): ?\nq(1): ?\nq(2): ?",
        path: "r",
        branch: "3 3 3; 0 0 f 0 0; 1 0 t 1",
        step: "1 3 3; 0 0 f 0 0; 1 0 t 1 | 2 3 3; 0 0 f 0 0; 1 0 t 1",
    },
    Row {
        spec: "time 1; domain d = 0..2; item q(d) : bool; axiom A : ex x : d (q(x));",
        given: "q(0): ?\nq(1): ?\nq(2): ?",
        path: "rr",
        branch: "2 3 3; 0 0 f 0 0; 1 0 t 1",
        step: "closed want",
    },
    Row {
        spec: "time 1; domain d = 0..2; item q(d) : bool; axiom A : ex x : d (q(x));",
        given: "q(0): ?\nq(1): ?\nq(2): ?",
        path: "rl",
        branch: "1 3 3; 0 0 f 0 0; 1 0 t 1",
        step: "1 3 3; 0 0 t 0 1 | 1 3 3; 0 0 f 0 1; 1 0 t 2",
    },
    Row {
        spec: "time 1; domain d = 0..2; item q(d) : bool; axiom A : ex x : d (q(x));",
        given: "q(0): ?\nq(1): ?\nq(2): ?",
        path: "rlrl",
        branch: "1 1 3; 0 0 f 0 1; 1 0 t 2",
        step: "1 1 3; 0 0 t 0 2 | 1 1 3; 0 0 f 0 2; 1 0 t 3",
    },
    Row {
        spec: "time 1; domain d = 0..2; item q(d) : bool; axiom A : ex x : d (q(x));",
        given: "q(0): ?\nq(1): ?\nq(2): ?",
        path: "rlrlr",
        branch: "1 1 3; 0 0 f 0 2; 1 0 t 3",
        step: "1 1 1; 0 0 f 0 2; 1 0 t 3 | 1 1 2; 0 0 f 0 2; 1 0 t 3",
    },
    Row {
        spec: "time 1; domain d = 0..2; item q(d) : bool; axiom A : ex x : d (q(x));",
        given: "q(0): ?\nq(1): ?\nq(2): ?",
        path: "rlrlrl",
        branch: "1 1 1; 0 0 f 0 2; 1 0 t 3",
        step: "closed false",
    },
    Row {
        spec: "time 1; domain d = 0..2; item q(d) : bool; axiom A : ex x : d (q(x));",
        given: "q(0): ?\nq(1): ?\nq(2): ?",
        path: "rlrlrr",
        branch: "1 1 2; 0 0 f 0 2; 1 0 t 3",
        step: "closed want",
    },
    Row {
        spec: "time 1; domain d = 0..2; item q(d) : bool; axiom A : !(ex x : d (q(x)));",
        given: "q(0): ?\nq(1): ?\nq(2): ?",
        path: "",
        branch: "3 3 3; 2 0 t 0",
        step: "1 3 3; 0 0 f 0 0; 1 0 f 1 | 2 3 3; 0 0 f 0 0; 1 0 f 1",
    },
    Row {
        spec: "time 1; domain d = 0..2; item q(d) : bool; axiom A : !(ex x : d (q(x)));",
        given: "q(0): ?\nq(1): ?\nq(2): ?",
        path: "l",
        branch: "1 3 3; 0 0 f 0 0; 1 0 f 1",
        step: "1 1 3; 0 0 f 0 1; 1 0 f 2 | 1 2 3; 0 0 f 0 1; 1 0 f 2",
    },
    Row {
        spec: "time 1; domain d = 0..2; item q(d) : bool; axiom A : !(ex x : d (q(x)));",
        given: "q(0): ?\nq(1): ?\nq(2): ?",
        path: "ll",
        branch: "1 1 3; 0 0 f 0 1; 1 0 f 2",
        step: "1 1 1; 0 0 f 0 2; 1 0 f 3 | 1 1 2; 0 0 f 0 2; 1 0 f 3",
    },
    Row {
        spec: "time 1; domain d = 0..2; item q(d) : bool; axiom A : !(ex x : d (q(x)));",
        given: "q(0): ?\nq(1): ?\nq(2): ?",
        path: "lll",
        branch: "1 1 1; 0 0 f 0 2; 1 0 f 3",
        step: "whole 0 0 0",
    },
    Row {
        spec: "time 1; domain d = 0..2; item q(d) : bool; axiom A : !(ex x : d (q(x)));",
        given: "q(0): ?\nq(1): ?\nq(2): ?",
        path: "llr",
        branch: "1 1 2; 0 0 f 0 2; 1 0 f 3",
        step: "closed false",
    },
    Row {
        spec: "time 1; domain d = -1..0; item n : d; axiom A : ex x : d (n = x);",
        given: "n: ?",
        path: "",
        branch: "3; 1 0 t 0",
        step: "3; 0 0 t 0 -1 | 3; 0 0 f 0 -1; 1 0 t 1",
    },
    Row {
        spec: "time 1; domain d = -1..0; item n : d; axiom A : ex x : d (n = x);",
        given: "n: ?",
        path: "rr",
        branch: "2; 0 0 f 0 -1; 1 0 t 1",
        step: "whole 1",
    },
];

/// Distances inside time and outside.
const DISTANCES: [Row; 7] = [
    Row {
        spec: "time 2; item p : bool; axiom A at 0 : Dist(p, 1);",
        given: "p: ? ?",
        path: "",
        branch: "3 3; 1 0 t 0",
        step: "3 1; 0 1 t 0 | 3 2; 0 1 t 0",
    },
    Row {
        spec: "time 2; item p : bool; axiom A at 1 : !Dist(p, -1);",
        given: "p: ? ?",
        path: "",
        branch: "3 3; 2 1 t 0",
        step: "1 3; 0 0 f 0 | 2 3; 0 0 f 0",
    },
    Row {
        spec: "time 2; item p : bool; axiom A at 1 : Dist(p, 1);",
        given: "p: ? ?",
        path: "",
        branch: "3 3; 1 1 t 0",
        step: "closed false",
    },
    Row {
        spec: "time 2; item p : bool; axiom A at 1 : !Dist(p, 1);",
        given: "p: ? ?",
        path: "",
        branch: "3 3; 2 1 t 0",
        step: "1 3 | 2 3",
    },
    Row {
        spec: "time 2; item p : bool; axiom A at 1 : Dist(p, 1) | p;",
        given: "p: ? ?",
        path: "",
        branch: "3 3; 3 1 t 0",
        step: "3 3; 1 1 t 0 | 3 3; 1 1 f 0; 2 1 t 0",
    },
    Row {
        spec: "time 2; item p : bool; axiom A at 1 : Dist(p, 1) | p;",
        given: "p: ? ?",
        path: "l",
        branch: "3 3; 1 1 t 0",
        step: "closed want",
    },
    Row {
        spec: "time 2; item p : bool; axiom A at 1 : Dist(p, 1) | p;",
        given: "p: ? ?",
        path: "r",
        branch: "3 3; 1 1 f 0; 2 1 t 0",
        step: "3 1; 2 1 t 0 | 3 2; 2 1 t 0",
    },
];

/// Atoms that read several cells, in the order of reading, and cells of several values.
const ATOMS: [Row; 10] = [
    Row {
        spec: "time 1; domain d = 0..1; item n(d) : d; axiom A : n(1) + n(0) = 1;",
        given: "n(0): ?\nn(1): ?",
        path: "",
        branch: "3 3; 0 0 t 0",
        step: "3 1; 0 0 t 0 | 3 2; 0 0 t 0",
    },
    Row {
        spec: "time 1; domain d = 0..1; item n(d) : d; axiom A : n(1) + n(0) = 1;",
        given: "n(0): ?\nn(1): ?",
        path: "l",
        branch: "3 1; 0 0 t 0",
        step: "1 1; 0 0 t 0 | 2 1; 0 0 t 0",
    },
    Row {
        spec: "time 1; domain d = 0..1; item n(d) : d; axiom A : n(1) < n(0);",
        given: "n(0): ?\nn(1): ?",
        path: "",
        branch: "3 3; 0 0 t 0",
        step: "3 1; 0 0 t 0 | 3 2; 0 0 t 0",
    },
    Row {
        spec: "time 1; domain d = 0..1; item n(d) : d; axiom A : n(1) < n(0);",
        given: "n(0): ?\nn(1): ?",
        path: "l",
        branch: "3 1; 0 0 t 0",
        step: "1 1; 0 0 t 0 | 2 1; 0 0 t 0",
    },
    Row {
        spec: "time 1; domain d = 0..1; item n(d) : d; axiom A : n(1) < n(0);",
        given: "n(0): ?\nn(1): ?",
        path: "r",
        branch: "3 2; 0 0 t 0",
        step: "1 2; 0 0 t 0 | 2 2; 0 0 t 0",
    },
    Row {
        spec: "time 1; domain d = 0..1; item n(d) : d; axiom A : n(1) < n(0);",
        given: "n(0): ?\nn(1): ?",
        path: "rl",
        branch: "1 2; 0 0 t 0",
        step: "closed false",
    },
    Row {
        spec: "time 1; domain d = 0..1; item n(d) : d; axiom A : !(n(1) < n(0));",
        given: "n(0): ?\nn(1): ?",
        path: "",
        branch: "3 3; 1 0 t 0",
        step: "3 1; 0 0 f 0 | 3 2; 0 0 f 0",
    },
    Row {
        spec: "time 1; domain d = 0..2; item n : d; axiom A : n = 2;",
        given: "n: ?",
        path: "",
        branch: "7; 0 0 t 0",
        step: "1; 0 0 t 0 | 6; 0 0 t 0",
    },
    Row {
        spec: "time 1; domain d = 0..2; item n : d; axiom A : n = 2;",
        given: "n: ?",
        path: "r",
        branch: "6; 0 0 t 0",
        step: "2; 0 0 t 0 | 4; 0 0 t 0",
    },
    Row {
        spec: "time 1; domain d = 0..2; item n : d; axiom A : n = 2;",
        given: "n: ?",
        path: "rr",
        branch: "4; 0 0 t 0",
        step: "whole 2",
    },
];

/// Branches without wants, without cells, and with given values; false specifications.
const ENDS: [Row; 11] = [
    Row {
        spec: "time 2; item p : bool;",
        given: "p: ? ?",
        path: "",
        branch: "3 3",
        step: "1 3 | 2 3",
    },
    Row {
        spec: "time 2; item p : bool;",
        given: "p: ? ?",
        path: "l",
        branch: "1 3",
        step: "1 1 | 1 2",
    },
    Row {
        spec: "time 2; item p : bool;",
        given: "p: ? ?",
        path: "lr",
        branch: "1 2",
        step: "whole 0 1",
    },
    Row {
        spec: "time 2; item p : bool;",
        given: "p: ? 1",
        path: "",
        branch: "3 2",
        step: "1 2 | 2 2",
    },
    Row {
        spec: "time 2; item p : bool;",
        given: "p: 1 0",
        path: "",
        branch: "2 1",
        step: "whole 1 0",
    },
    Row {
        spec: "time 1;",
        given: "",
        path: "",
        branch: "",
        step: "whole",
    },
    Row {
        spec: "time 1; axiom A : true;",
        given: "",
        path: "",
        branch: "; 0 0 t 0",
        step: "whole",
    },
    Row {
        spec: "time 1; axiom A : false;",
        given: "",
        path: "",
        branch: "; 0 0 t 0",
        step: "closed false",
    },
    Row {
        spec: "time 1; item p : bool; axiom A : p; axiom B : false;",
        given: "p: ?",
        path: "",
        branch: "3; 0 0 t 0; 1 0 t 0",
        step: "closed false",
    },
    Row {
        spec: "time 2; item p : bool; axiom A at 1 : p; axiom B : p;",
        given: "p: ? ?",
        path: "",
        branch: "3 3; 0 1 t 0; 1 0 t 0; 1 1 t 0",
        step: "3 1; 0 1 t 0; 1 0 t 0; 1 1 t 0 | 3 2; 0 1 t 0; 1 0 t 0; 1 1 t 0",
    },
    Row {
        spec: "time 2; item p : bool; axiom A at 1 : p; axiom B : p;",
        given: "p: ? ?",
        path: "r",
        branch: "3 2; 0 1 t 0; 1 0 t 0; 1 1 t 0",
        step: "1 2; 1 0 t 0; 1 1 t 0 | 2 2; 1 0 t 0; 1 1 t 0",
    },
];

/// Asserts what stands at the end of a path, and what a step makes of it.
fn check_row(rt: &(impl Abort + AllocGlobal), row: &Row) {
    let problem = problem_of(rt, row.spec, row.given.as_bytes());
    let branch = at_end(rt, &problem, row.path.as_bytes());
    check_step(rt, &problem, branch, row);
}

fn check_step(rt: &(impl Abort + AllocGlobal), problem: &Problem, branch: Branch, row: &Row)
    requires { Fits problem.now branch }
{
    let before = branch_text(rt, &branch);
    is_text(rt, row, before.as_str(), row.branch);
    let answer = stepped(rt, problem, branch);
    let after = step_text(rt, &answer);
    is_text(rt, row, after.as_str(), row.step);
}

fn is_text(rt: &impl Abort, row: &Row, text: &str, want: &str) {
    let path = row.path;
    let spec = row.spec;
    assert_eq!(rt; text, want, "{spec} {path}");
}

/// The branch at the end of a path.
fn at_end(rt: &(impl Abort + AllocGlobal), problem: &Problem, path: &[u8]) -> Branch
    ensures { Fits problem.now result }
{
    let mut branch = fitting_root(rt, problem);
    for turn in path {
        branch = next(rt, problem, branch, *turn == b'l');
    }
    branch
}

/// The left or the right half of a branch that is parted.
fn next(rt: &(impl Abort + AllocGlobal), problem: &Problem, branch: Branch, is_left: bool) -> Branch
    requires { Fits problem.now branch }
    ensures { Fits problem.now result }
{
    match stepped(rt, problem, branch) {
        Stepped::Two(fork, _, _) => half(problem, fork, is_left),
        _ => panic!(rt; "a path is too long"),
    }
}

fn check_rows(rt: &(impl Abort + AllocGlobal), rows: &[Row]) {
    for row in rows {
        check_row(rt, row);
    }
}

#[test]
fn steps_where_a_value_lasts(rt: HostRuntime) {
    check_rows(&rt, &LASTING_ROWS);
}

#[test]
fn steps_at_connectives(rt: HostRuntime) {
    check_rows(&rt, &CONNECTIVES);
}

#[test]
fn steps_at_quantifiers(rt: HostRuntime) {
    check_rows(&rt, &QUANTIFIERS);
}

#[test]
fn steps_at_distances(rt: HostRuntime) {
    check_rows(&rt, &DISTANCES);
}

#[test]
fn steps_at_atoms(rt: HostRuntime) {
    check_rows(&rt, &ATOMS);
}

#[test]
fn steps_without_wants_or_cells(rt: HostRuntime) {
    check_rows(&rt, &ENDS);
}
