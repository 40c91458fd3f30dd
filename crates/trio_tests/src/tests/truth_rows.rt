//! Worked rows of three-valued truth.
use super::sets::truth_under;
use derived_ops::rewrite;
use std::process::Abort;
use trio_core::Three::{self, False, True, Unknown};
use trio_reader::read_spec;

/// The sets of `p` at the three instants by their bits, and the truth of "where there is a next instant, `p` lasts to it".
const LASTING: [([u64; 3], Three); 9] = [
    ([3, 3, 3], Unknown),
    ([2, 1, 3], False),
    ([1, 1, 1], True),
    ([1, 3, 2], True),
    ([3, 2, 2], True),
    ([2, 3, 3], Unknown),
    ([3, 2, 1], False),
    ([3, 3, 1], Unknown),
    ([2, 2, 2], True),
];

/// What stands behind `time`, the sets of the three cells, and the truth.
const ROWS: [(&str, [u64; 3], Three); 23] = [
    ("3; item p : bool;", [3, 3, 3], True),
    ("3; item p : bool; goal G : p;", [1, 1, 1], True),
    ("3; item p : bool; axiom A : p | !p;", [3, 3, 3], Unknown),
    ("3; item p : bool; axiom A : p | !p;", [1, 2, 1], True),
    ("3; item p : bool; axiom A : p = p;", [2, 1, 3], Unknown),
    ("3; item p : bool; axiom A at 0 : p;", [2, 3, 3], True),
    (
        "3; item p : bool; axiom A at 0 : Dist(p, -1);",
        [3, 3, 3],
        False,
    ),
    (
        "3; item p : bool; axiom A at 1 : !Dist(p, 2);",
        [3, 3, 3],
        True,
    ),
    (
        "3; item p : bool; axiom A : p; axiom B : false;",
        [3, 3, 3],
        False,
    ),
    (
        "1; domain d = 0..2; item v(d) : d; axiom A : v(0) < 3;",
        [7, 7, 7],
        Unknown,
    ),
    (
        "1; domain d = 0..2; item v(d) : d; axiom A : v(0) + v(3) = 0;",
        [7, 7, 7],
        False,
    ),
    (
        "1; domain d = 0..2; item v(d) : d; axiom A : !(v(3) = v(3));",
        [7, 7, 7],
        True,
    ),
    (
        "1; domain d = 0..2; item v(d) : d; axiom A : v(3) + v(0) = 0;",
        [7, 7, 7],
        False,
    ),
    (
        "1; domain d = 0..2; item v(d) : d; axiom A : 2 * v(3) = v(0);",
        [7, 7, 7],
        False,
    ),
    (
        "1; domain d = 0..2; item v(d) : d; axiom A : v(0) != -v(3);",
        [7, 7, 7],
        False,
    ),
    (
        "1; domain d = 0..2; item v(d) : d; axiom A : !(v(0) < v(3));",
        [7, 7, 7],
        True,
    ),
    (
        "1; domain d = 0..2; item v(d) : d; axiom A : ex x : d (v(x) = 1);",
        [2, 7, 7],
        True,
    ),
    (
        "1; domain d = 0..2; item v(d) : d; axiom A : ex x : d (v(x) = 1);",
        [1, 1, 7],
        Unknown,
    ),
    (
        "1; domain d = 0..2; item v(d) : d; axiom A : ex x : d (v(x) = 1);",
        [1, 4, 1],
        False,
    ),
    (
        "1; domain d = 0..2; item v(d) : d; axiom A : all x : d (v(x) = v(0));",
        [2, 2, 2],
        True,
    ),
    (
        "1; domain d = 0..2; item v(d) : d; axiom A : all x : d (v(x) = v(0));",
        [1, 2, 7],
        False,
    ),
    (
        "1; domain d = 0..2; item v(d) : d; axiom A : all x : d (v(x) = v(0));",
        [1, 7, 2],
        False,
    ),
    (
        "1; domain d = 0..2; item v(d) : d; axiom A : all x : d (v(x) = v(0));",
        [1, 1, 3],
        Unknown,
    ),
];

fn check_row(rt: &(impl Abort + AllocGlobal), text: &str, words: &[u64], want: Three) {
    let alloc = rt.alloc();
    let text = format!(in alloc; "time {text}").expect(rt, "memory");
    let spec = read_spec(alloc, text.as_bytes()).expect(rt, "specification");
    let core = rewrite(alloc, &spec).expect(rt, "memory");
    let found = truth_under(rt, &spec, &core, words);
    assert_eq!(rt; found, Some(want), "{text} {words:?}");
}

#[test]
fn truth_where_a_value_lasts(rt: HostRuntime) {
    let text = "3; item p : bool; axiom A : (Dist(true, 1) & p) -> Futr(p, 1);";
    for (words, want) in &LASTING {
        check_row(&rt, text, words.as_slice(), *want);
    }
}

#[test]
fn truth_under_sets(rt: HostRuntime) {
    for (text, words, want) in &ROWS {
        check_row(&rt, text, words.as_slice(), *want);
    }
}
