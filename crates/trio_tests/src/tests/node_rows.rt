//! The nodes of each form of formula, by the table of rewriting. A formula stands before `~`, and its nodes behind it, in order.
use super::claims::same;
use super::nodes::shown;
use derived_ops::rewrite;
use std::process::Abort;
use trio_core::Core;
use trio_reader::read_spec;

/// Each operator.
const OPERATORS: [&str; 29] = [
    "Dist(p, 1) ~ p = true; 0 at 1",
    "Futr(p, 1) ~ 0 <= 1; p = true; 1 at 1; 0 & 2",
    "Past(p, 1) ~ 0 <= 1; p = true; 1 at [-1]; 0 & 2",
    "Alw(p) ~ p = true; !0; 1 at v0; ex -2..2 2; !3",
    "AlwF(p) ~ p = true; !0; 1 at v0; ex 1..2 2; !3",
    "AlwP(p) ~ p = true; !0; 1 at v0; ex -2..-1 2; !3",
    "Som(p) ~ p = true; 0 at v0; ex -2..2 1",
    "SomF(p) ~ p = true; 0 at v0; ex 1..2 1",
    "SomP(p) ~ p = true; 0 at v0; ex -2..-1 1",
    "Lasts(p, 1) ~ v0 < 1; p = true; !1; 2 at v0; 0 & 3; ex 1..2 4; !5",
    "Lasts_ii(p, 1) ~ v0 <= 1; p = true; !1; 2 at v0; 0 & 3; ex 0..2 4; !5",
    "Lasts_ie(p, 1) ~ v0 < 1; p = true; !1; 2 at v0; 0 & 3; ex 0..2 4; !5",
    "Lasts_ei(p, 1) ~ v0 <= 1; p = true; !1; 2 at v0; 0 & 3; ex 1..2 4; !5",
    "Lasted(p, 1) ~ v0 < 1; p = true; !1; 2 at [-v0]; 0 & 3; ex 1..2 4; !5",
    "Lasted_ii(p, 1) ~ v0 <= 1; p = true; !1; 2 at [-v0]; 0 & 3; ex 0..2 4; !5",
    "Lasted_ie(p, 1) ~ v0 < 1; p = true; !1; 2 at [-v0]; 0 & 3; ex 0..2 4; !5",
    "Lasted_ei(p, 1) ~ v0 <= 1; p = true; !1; 2 at [-v0]; 0 & 3; ex 1..2 4; !5",
    "WithinF(p, 1) ~ v0 < 1; p = true; 1 at v0; 0 & 2; ex 1..2 3",
    "WithinF_ii(p, 1) ~ v0 <= 1; p = true; 1 at v0; 0 & 2; ex 0..2 3",
    "WithinF_ie(p, 1) ~ v0 < 1; p = true; 1 at v0; 0 & 2; ex 0..2 3",
    "WithinF_ei(p, 1) ~ v0 <= 1; p = true; 1 at v0; 0 & 2; ex 1..2 3",
    "WithinP(p, 1) ~ v0 < 1; p = true; 1 at [-v0]; 0 & 2; ex 1..2 3",
    "WithinP_ii(p, 1) ~ v0 <= 1; p = true; 1 at [-v0]; 0 & 2; ex 0..2 3",
    "WithinP_ie(p, 1) ~ v0 < 1; p = true; 1 at [-v0]; 0 & 2; ex 0..2 3",
    "WithinP_ei(p, 1) ~ v0 <= 1; p = true; 1 at [-v0]; 0 & 2; ex 1..2 3",
    "Until(p, q) ~ q = true; 0 at v0; v1 < v0; p = true; !3; 4 at v1; 2 & 5; ex 1..2 6; !7; 1 & 8; ex 1..2 9",
    "Since(p, q) ~ q = true; 0 at [-v0]; v1 < v0; p = true; !3; 4 at [-v1]; 2 & 5; ex 1..2 6; !7; 1 & 8; ex 1..2 9",
    "NextTime(p, 1) ~ 0 <= 1; p = true; 1 at 1; 0 & 2; v0 < 1; p = true; !5; !6; 7 at v0; 4 & 8; ex 1..2 9; !10; 3 & 11",
    "LastTime(p, 1) ~ 0 <= 1; p = true; 1 at [-1]; 0 & 2; v0 < 1; p = true; !5; !6; 7 at [-v0]; 4 & 8; ex 1..2 9; !10; 3 & 11",
];

/// Each operator in the body of a quantifier, whose variable is the distance and stands in the part.
const UNDER_A_QUANTIFIER: [&str; 29] = [
    "ex x : d (Dist(n = x, x)) ~ n = v0; 0 at v0; ex 0..1 1",
    "ex x : d (Futr(n = x, x)) ~ 0 <= v0; n = v0; 1 at v0; 0 & 2; ex 0..1 3",
    "ex x : d (Past(n = x, x)) ~ 0 <= v0; n = v0; 1 at [-v0]; 0 & 2; ex 0..1 3",
    "ex x : d (Alw(n = x)) ~ n = v0; !0; 1 at v1; ex -2..2 2; !3; ex 0..1 4",
    "ex x : d (AlwF(n = x)) ~ n = v0; !0; 1 at v1; ex 1..2 2; !3; ex 0..1 4",
    "ex x : d (AlwP(n = x)) ~ n = v0; !0; 1 at v1; ex -2..-1 2; !3; ex 0..1 4",
    "ex x : d (Som(n = x)) ~ n = v0; 0 at v1; ex -2..2 1; ex 0..1 2",
    "ex x : d (SomF(n = x)) ~ n = v0; 0 at v1; ex 1..2 1; ex 0..1 2",
    "ex x : d (SomP(n = x)) ~ n = v0; 0 at v1; ex -2..-1 1; ex 0..1 2",
    "ex x : d (Lasts(n = x, x)) ~ v1 < v0; n = v0; !1; 2 at v1; 0 & 3; ex 1..2 4; !5; ex 0..1 6",
    "ex x : d (Lasts_ii(n = x, x)) ~ v1 <= v0; n = v0; !1; 2 at v1; 0 & 3; ex 0..2 4; !5; ex 0..1 6",
    "ex x : d (Lasts_ie(n = x, x)) ~ v1 < v0; n = v0; !1; 2 at v1; 0 & 3; ex 0..2 4; !5; ex 0..1 6",
    "ex x : d (Lasts_ei(n = x, x)) ~ v1 <= v0; n = v0; !1; 2 at v1; 0 & 3; ex 1..2 4; !5; ex 0..1 6",
    "ex x : d (Lasted(n = x, x)) ~ v1 < v0; n = v0; !1; 2 at [-v1]; 0 & 3; ex 1..2 4; !5; ex 0..1 6",
    "ex x : d (Lasted_ii(n = x, x)) ~ v1 <= v0; n = v0; !1; 2 at [-v1]; 0 & 3; ex 0..2 4; !5; ex 0..1 6",
    "ex x : d (Lasted_ie(n = x, x)) ~ v1 < v0; n = v0; !1; 2 at [-v1]; 0 & 3; ex 0..2 4; !5; ex 0..1 6",
    "ex x : d (Lasted_ei(n = x, x)) ~ v1 <= v0; n = v0; !1; 2 at [-v1]; 0 & 3; ex 1..2 4; !5; ex 0..1 6",
    "ex x : d (WithinF(n = x, x)) ~ v1 < v0; n = v0; 1 at v1; 0 & 2; ex 1..2 3; ex 0..1 4",
    "ex x : d (WithinF_ii(n = x, x)) ~ v1 <= v0; n = v0; 1 at v1; 0 & 2; ex 0..2 3; ex 0..1 4",
    "ex x : d (WithinF_ie(n = x, x)) ~ v1 < v0; n = v0; 1 at v1; 0 & 2; ex 0..2 3; ex 0..1 4",
    "ex x : d (WithinF_ei(n = x, x)) ~ v1 <= v0; n = v0; 1 at v1; 0 & 2; ex 1..2 3; ex 0..1 4",
    "ex x : d (WithinP(n = x, x)) ~ v1 < v0; n = v0; 1 at [-v1]; 0 & 2; ex 1..2 3; ex 0..1 4",
    "ex x : d (WithinP_ii(n = x, x)) ~ v1 <= v0; n = v0; 1 at [-v1]; 0 & 2; ex 0..2 3; ex 0..1 4",
    "ex x : d (WithinP_ie(n = x, x)) ~ v1 < v0; n = v0; 1 at [-v1]; 0 & 2; ex 0..2 3; ex 0..1 4",
    "ex x : d (WithinP_ei(n = x, x)) ~ v1 <= v0; n = v0; 1 at [-v1]; 0 & 2; ex 1..2 3; ex 0..1 4",
    "ex x : d (Until(n = x, g(x, red))) ~ g(v0, 0) = true; 0 at v1; v2 < v1; n = v0; !3; 4 at v2; 2 & 5; ex 1..2 6; !7; 1 & 8; ex 1..2 9; ex 0..1 10",
    "ex x : d (Since(n = x, g(x, red))) ~ g(v0, 0) = true; 0 at [-v1]; v2 < v1; n = v0; !3; 4 at [-v2]; 2 & 5; ex 1..2 6; !7; 1 & 8; ex 1..2 9; ex 0..1 10",
    "ex x : d (NextTime(n = x, x)) ~ 0 <= v0; n = v0; 1 at v0; 0 & 2; v1 < v0; n = v0; !5; !6; 7 at v1; 4 & 8; ex 1..2 9; !10; 3 & 11; ex 0..1 12",
    "ex x : d (LastTime(n = x, x)) ~ 0 <= v0; n = v0; 1 at [-v0]; 0 & 2; v1 < v0; n = v0; !5; !6; 7 at [-v1]; 4 & 8; ex 1..2 9; !10; 3 & 11; ex 0..1 12",
];

/// Atoms, connectives and quantifiers.
const CONNECTIVES: [&str; 28] = [
    "p ~ p = true",
    "true ~ true = true",
    "[p] ~ p = true",
    "p = q ~ p = q",
    "p != false ~ p != false",
    "n < 1 ~ n < 1",
    "n <= 1 ~ n <= 1",
    "n > 0 ~ n > 0",
    "n + 1 >= 2 * n - 3 ~ [+n +1] >= [+2 * n -3]",
    "c = green ~ c = 1",
    "g(1, red) ~ g(1, 0) = true",
    "!p ~ p = true; !0",
    "p & q ~ p = true; q = true; 0 & 1",
    "p | q ~ p = true; q = true; 0 | 1",
    "p & q & p ~ p = true; q = true; 0 & 1; p = true; 2 & 3",
    "p | q | p | q ~ p = true; q = true; 0 | 1; p = true; q = true; 3 | 4; 2 | 5",
    "p & q & p & q & p ~ p = true; q = true; 0 & 1; p = true; 2 & 3; q = true; p = true; 5 & 6; 4 & 7",
    "p -> q ~ p = true; !0; q = true; 1 | 2",
    "p <-> q ~ p = true; q = true; 0 & 1; !0; !1; 3 & 4; 2 | 5",
    "(Dist(true, 1) & p) -> Futr(p, 1) ~ true = true; 0 at 1; p = true; 1 & 2; !3; 0 <= 1; p = true; 6 at 1; 5 & 7; 4 | 8",
    "ex x : d (n = x) ~ n = v0; ex 0..1 0",
    "all x : d (n = x) ~ n = v0; !0; ex 0..1 1; !2",
    "ex x : m (c = x) ~ c = v0; ex 0..2 0",
    "all x : m (c = x) ~ c = v0; !0; ex 0..2 1; !2",
    "ex x : bool (x) ~ v0 = true; ex 0..1 0",
    "all x : bool (x) ~ v0 = true; !0; ex 0..1 1; !2",
    "ex x : d (ex y : e (x = y)) ~ v0 = v1; ex -1..1 0; ex 0..1 1",
    "all x : m (g(0, x)) ~ g(0, v0) = true; !0; ex 0..2 1; !2",
];

/// Quantifiers in the part of an operator: their variables stand behind the operator's own.
const UNDER_AN_OPERATOR: [&str; 5] = [
    "Som(ex x : d (n = x)) ~ n = v1; ex 0..1 0; 1 at v0; ex -2..2 2",
    "Alw(all x : d (n = x)) ~ n = v1; !0; ex 0..1 1; !2; !3; 4 at v0; ex -2..2 5; !6",
    "Lasts(ex x : d (n = x), 1) ~ v0 < 1; n = v1; ex 0..1 1; !2; 3 at v0; 0 & 4; ex 1..2 5; !6",
    "Until(ex x : d (n = x), ex y : e (n = y)) ~ n = v1; ex -1..1 0; 1 at v0; v1 < v0; n = v2; ex 0..1 4; !5; 6 at v1; 3 & 7; ex 1..2 8; !9; 2 & 10; ex 1..2 11",
    "Som(AlwF(p)) ~ p = true; !0; 1 at v1; ex 1..2 2; !3; 4 at v0; ex -2..2 5",
];

/// The formula of a row, and its nodes.
fn cut(row: &str) -> (&str, &str) {
    match row.split_once(" ~ ") {
        Some(parts) => parts,
        None => (row, ""),
    }
}

/// Asserts the nodes of a formula that is the only axiom, and that the last of them is the only root.
fn check_row(rt: &(impl Abort + AllocGlobal), row: &str) {
    let alloc = rt.alloc();
    let (formula, want) = cut(row);
    let text = format!(in alloc;
        "time 3; domain d = 0..1; domain e = -1..1; domain m = {{red, green, blue}}; item p : bool; item q : bool; item n : d; item c : m; item g(d, m) : bool; axiom A : {formula};"
    );
    let text = text.expect(rt, "memory");
    let spec = read_spec(alloc, text.as_bytes()).expect(rt, formula);
    let core = rewrite(alloc, &spec).expect(rt, "memory");
    let found = shown(rt, &core);
    assert_eq!(rt; found.as_str(), want, "{formula}");
    is_last(rt, &core);
}

/// Asserts that the last node is the only root.
fn is_last(rt: &impl Abort, core: &Core) {
    assert_eq!(rt; core.roots.len(), 1);
    let root = core.roots.get(0);
    same(rt, &(root.node as usize + 1), &core.nodes.len());
    same(rt, &root.at, &None);
}

fn check_rows(rt: &(impl Abort + AllocGlobal), rows: &[&str]) {
    for row in rows {
        check_row(rt, row);
    }
}

#[test]
fn nodes_of_atoms_connectives_and_quantifiers(rt: HostRuntime) {
    check_rows(&rt, &CONNECTIVES);
}

#[test]
fn nodes_of_operators(rt: HostRuntime) {
    check_rows(&rt, &OPERATORS);
}

#[test]
fn nodes_of_operators_under_a_quantifier(rt: HostRuntime) {
    check_rows(&rt, &UNDER_A_QUANTIFIER);
}

#[test]
fn nodes_of_parts_with_quantifiers(rt: HostRuntime) {
    check_rows(&rt, &UNDER_AN_OPERATOR);
}
