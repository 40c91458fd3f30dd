//! Worked rows on operators, terms and quantifiers.
use super::{check_all, checked, cut, is_due};
use std::process::Abort;

/// An instant, a formula, the values of `p` at the four instants, and whether the formula is true at that instant.
const OVER_P: [&str; 80] = [
    "3 ~ Dist(p, 1) ~ 1 1 1 1 ~ false",
    "0 ~ Dist(p, -1) ~ 1 1 1 1 ~ false",
    "2 ~ Dist(p, 0) ~ 0 0 1 0 ~ true",
    "2 ~ Dist(p, -2) ~ 1 0 0 0 ~ true",
    "0 ~ Dist(true, 4) ~ 0 0 0 0 ~ false",
    "3 ~ !Dist(p, 1) ~ 1 1 1 1 ~ true",
    "3 ~ Dist(!p, 1) ~ 0 0 0 0 ~ false",
    "3 ~ Futr(p, 0) ~ 0 0 0 1 ~ true",
    "1 ~ Futr(p, -1) ~ 1 1 1 1 ~ false",
    "0 ~ Futr(p, 3) ~ 0 0 0 1 ~ true",
    "1 ~ Futr(p, 3) ~ 1 1 1 1 ~ false",
    "0 ~ Past(p, 1) ~ 1 1 1 1 ~ false",
    "1 ~ Past(p, -1) ~ 1 1 1 1 ~ false",
    "3 ~ Past(p, 2) ~ 0 1 0 0 ~ true",
    "2 ~ Past(p, 0) ~ 1 1 0 1 ~ false",
    "0 ~ Alw(p) ~ 1 1 1 0 ~ false",
    "3 ~ Som(p) ~ 1 0 0 0 ~ true",
    "0 ~ Som(p) ~ 0 0 0 0 ~ false",
    "3 ~ AlwF(p) ~ 0 0 0 0 ~ true",
    "1 ~ AlwF(p) ~ 0 0 1 1 ~ true",
    "1 ~ AlwF(p) ~ 1 1 1 0 ~ false",
    "3 ~ SomF(p) ~ 1 1 1 1 ~ false",
    "0 ~ SomF(p) ~ 0 0 0 1 ~ true",
    "1 ~ SomF(p) ~ 1 1 0 0 ~ false",
    "0 ~ AlwP(p) ~ 0 1 1 1 ~ true",
    "2 ~ AlwP(p) ~ 1 1 0 0 ~ true",
    "2 ~ AlwP(p) ~ 1 0 1 1 ~ false",
    "0 ~ SomP(p) ~ 1 1 1 1 ~ false",
    "3 ~ SomP(p) ~ 1 0 0 0 ~ true",
    "2 ~ SomP(p) ~ 0 0 1 1 ~ false",
    "0 ~ Lasts(p, 2) ~ 0 1 0 0 ~ true",
    "0 ~ Lasts(p, 2) ~ 1 0 1 1 ~ false",
    "0 ~ Lasts_ii(p, 2) ~ 1 1 1 0 ~ true",
    "0 ~ Lasts_ii(p, 2) ~ 0 1 1 0 ~ false",
    "0 ~ Lasts_ie(p, 2) ~ 1 1 0 0 ~ true",
    "0 ~ Lasts_ie(p, 2) ~ 0 1 1 1 ~ false",
    "0 ~ Lasts_ei(p, 2) ~ 0 1 1 0 ~ true",
    "0 ~ Lasts_ei(p, 2) ~ 1 1 0 1 ~ false",
    "0 ~ WithinF(p, 2) ~ 1 0 1 1 ~ false",
    "0 ~ WithinF_ii(p, 2) ~ 0 0 1 0 ~ true",
    "0 ~ WithinF_ie(p, 2) ~ 0 0 1 1 ~ false",
    "0 ~ WithinF_ei(p, 2) ~ 1 0 0 1 ~ false",
    "0 ~ WithinF_ei(p, 2) ~ 0 0 1 0 ~ true",
    "0 ~ Lasts(p, 9) ~ 0 1 1 1 ~ true",
    "3 ~ Lasts_ii(p, 9) ~ 0 0 0 1 ~ true",
    "2 ~ Lasts(p, 0) ~ 0 0 0 0 ~ true",
    "2 ~ Lasts_ii(p, 0) ~ 0 0 1 0 ~ true",
    "2 ~ Lasts_ii(p, 0) ~ 1 1 0 1 ~ false",
    "2 ~ Lasts_ie(p, 0) ~ 0 0 0 0 ~ true",
    "2 ~ WithinF_ei(p, 0) ~ 1 1 1 1 ~ false",
    "2 ~ WithinF_ii(p, -1) ~ 1 1 1 1 ~ false",
    "2 ~ Lasts_ii(p, -1) ~ 0 0 0 0 ~ true",
    "3 ~ Lasted(p, 2) ~ 0 0 1 0 ~ true",
    "3 ~ Lasted(p, 2) ~ 1 1 0 1 ~ false",
    "3 ~ Lasted_ii(p, 2) ~ 0 1 1 1 ~ true",
    "3 ~ Lasted_ii(p, 2) ~ 0 1 1 0 ~ false",
    "3 ~ Lasted_ie(p, 2) ~ 0 0 1 1 ~ true",
    "3 ~ Lasted_ie(p, 2) ~ 0 1 1 0 ~ false",
    "3 ~ Lasted_ei(p, 2) ~ 0 1 1 0 ~ true",
    "3 ~ Lasted_ei(p, 2) ~ 0 0 1 1 ~ false",
    "3 ~ WithinP(p, 2) ~ 1 1 0 1 ~ false",
    "3 ~ WithinP_ii(p, 2) ~ 0 1 0 0 ~ true",
    "3 ~ WithinP_ie(p, 2) ~ 0 1 0 0 ~ false",
    "3 ~ WithinP_ei(p, 2) ~ 0 1 0 0 ~ true",
    "3 ~ WithinP_ei(p, 2) ~ 1 0 0 1 ~ false",
    "0 ~ WithinP(p, 9) ~ 1 1 1 1 ~ false",
    "0 ~ Lasted(p, 9) ~ 0 0 0 0 ~ true",
    "1 ~ Lasted(p, -2) ~ 0 0 0 0 ~ true",
    "1 ~ WithinP_ii(p, 0) ~ 0 1 0 0 ~ true",
    "2 ~ WithinP(p, 1) ~ 1 1 1 1 ~ false",
    "0 ~ NextTime(p, 2) ~ 0 0 1 0 ~ true",
    "0 ~ NextTime(p, 2) ~ 0 1 1 0 ~ false",
    "0 ~ NextTime(p, 2) ~ 1 0 1 1 ~ true",
    "3 ~ NextTime(p, 1) ~ 1 1 1 1 ~ false",
    "1 ~ NextTime(p, 0) ~ 0 1 0 0 ~ true",
    "2 ~ NextTime(p, -1) ~ 1 1 1 1 ~ false",
    "3 ~ LastTime(p, 2) ~ 0 1 0 1 ~ true",
    "3 ~ LastTime(p, 2) ~ 0 1 1 0 ~ false",
    "0 ~ LastTime(p, 1) ~ 1 1 1 1 ~ false",
    "3 ~ LastTime(p, 3) ~ 1 0 0 0 ~ true",
];

/// An instant, a formula, the values of `p` and of `q` at the five instants, and whether the formula is true at that instant.
const OVER_P_AND_Q: [&str; 20] = [
    "0 ~ Until(p, q) ~ 0 0 0 0 0 ~ 0 1 0 0 0 ~ true",
    "0 ~ Until(p, q) ~ 0 1 1 0 0 ~ 0 0 0 1 0 ~ true",
    "0 ~ Until(p, q) ~ 0 1 0 0 0 ~ 0 0 0 1 0 ~ false",
    "0 ~ Until(p, q) ~ 0 0 1 0 0 ~ 0 0 0 1 0 ~ false",
    "0 ~ Until(p, q) ~ 0 1 1 1 1 ~ 1 0 0 0 0 ~ false",
    "4 ~ Until(p, q) ~ 1 1 1 1 1 ~ 1 1 1 1 1 ~ false",
    "1 ~ Until(p, q) ~ 0 0 0 0 1 ~ 0 0 0 1 0 ~ false",
    "1 ~ Until(p, q) ~ 0 0 1 1 0 ~ 0 0 1 0 1 ~ true",
    "4 ~ Since(p, q) ~ 0 0 0 0 0 ~ 0 0 0 1 0 ~ true",
    "4 ~ Since(p, q) ~ 0 0 1 1 0 ~ 0 1 0 0 0 ~ true",
    "4 ~ Since(p, q) ~ 0 0 0 1 0 ~ 0 1 0 0 0 ~ false",
    "4 ~ Since(p, q) ~ 0 0 1 0 0 ~ 0 1 0 0 0 ~ false",
    "0 ~ Since(p, q) ~ 1 1 1 1 1 ~ 1 1 1 1 1 ~ false",
    "4 ~ Since(p, q) ~ 1 1 1 1 0 ~ 0 0 0 0 1 ~ false",
    "0 ~ p -> q ~ 1 0 0 0 0 ~ 0 0 0 0 0 ~ false",
    "0 ~ p <-> q ~ 1 0 0 0 0 ~ 0 0 0 0 0 ~ false",
    "0 ~ p <-> q ~ 0 0 0 0 0 ~ 0 0 0 0 0 ~ true",
    "0 ~ p & q | !p ~ 0 0 0 0 0 ~ 0 0 0 0 0 ~ true",
    "0 ~ p & q ~ 1 0 0 0 0 ~ 1 0 0 0 0 ~ true",
    "0 ~ p | q ~ 0 0 0 0 0 ~ 0 0 0 0 0 ~ false",
];

/// A specification, a history, and the answer of `check`.
const WHOLE: [&str; 37] = [
    "time 4; item p : bool; axiom A : Alw(p); ~ p: 1 1 1 1\n ~ 0 true\n",
    "time 3; item p : bool; axiom A : p -> Futr(p, 1); ~ p: 0 1 1\n ~ 1 false A 2\n",
    "time 3; item p : bool; axiom B at 2 : p; axiom A : p; ~ p: 1 0 1\n ~ 1 false A 1\n",
    "time 3; item p : bool; axiom A : p; axiom B at 0 : false; ~ p: 1 1 1\n ~ 1 false B 0\n",
    "time 3; item p : bool; axiom A : p | !p; ~ p: 1 0 1\n ~ 0 true\n",
    "time 3; item p : bool; axiom A : p | !p; goal G : false; ~ p: 1 0 1\n ~ 0 true\n",
    "time 3; item p : bool; axiom A : Lasts(p, 0) & Lasts(p, 1) & !WithinF(p, 1); ~ p: 0 1 0\n ~ 0 true\n",
    "time 3; item p : bool; axiom A : Lasts_ii(p, 0); ~ p: 1 0 1\n ~ 1 false A 1\n",
    "time 1; axiom A : AlwF(false); axiom B : SomF(true); ~  ~ 1 false B 0\n",
    "time 4; item p : bool; item q : bool; axiom A : Until(p, q); ~ p: 0 1 0 0\nq: 0 0 1 0\n ~ 1 false A 2\n",
    "time 4; item p : bool; item q : bool; axiom A : Since(p, q); ~ p: 0 1 0 0\nq: 0 0 1 0\n ~ 1 false A 0\n",
    "time 4; item p : bool; item q : bool; axiom A at 3 : !Until(p, q); axiom B at 2 : !Since(p, q); axiom C at 3 : Since(p, q); ~ p: 0 1 0 0\nq: 0 0 1 0\n ~ 0 true\n",
    "time 1; domain d = 0..2; item q(d) : bool; axiom A : ex x : d (q(x + 1)); axiom B : all x : d (!q(x + 3)); ~ q(0): 1\nq(1): 0\nq(2): 0\n ~ 1 false A 0\n",
    "time 1; domain d = 0..2; item q(d) : bool; axiom A : ex x : d (q(x + 1)); axiom B : all x : d (!q(x + 3)); ~ q(0): 1\nq(1): 0\nq(2): 1\n ~ 0 true\n",
    "time 1; domain d = -1..1; item s : d; axiom A : all x : d (ex y : d (x + y = 0)); ~ s: 0\n ~ 0 true\n",
    "time 1; domain d = -1..1; item s : d; axiom A : ex y : d (all x : d (x + y = 0)); ~ s: 0\n ~ 1 false A 0\n",
    "time 1; domain d = -1..1; item s : d; axiom A : all x : d (x >= -1 & x <= 1); ~ s: 0\n ~ 0 true\n",
    "time 1; domain d = -1..1; item s : d; axiom A : ex x : d (x > 1); ~ s: 0\n ~ 1 false A 0\n",
    "time 1; domain d = -1..1; item s : d; axiom A : all x : d (x < 1); ~ s: 0\n ~ 1 false A 0\n",
    "time 1; domain d = -1..1; item s : d; axiom A : all x : d (all y : d (x = y -> 2 * x = x + y)); ~ s: 0\n ~ 0 true\n",
    "time 1; domain d = -1..1; item s : d; axiom A : s = -1; ~ s: -1\n ~ 0 true\n",
    "time 1; domain d = -1..1; item s : d; axiom A : s = 0; ~ s: -1\n ~ 1 false A 0\n",
    "time 1; domain d = -1..1; item s : d; axiom A : all b : bool (b = true | b = false); ~ s: 0\n ~ 0 true\n",
    "time 1; domain d = -1..1; item s : d; axiom A : all b : bool (b); ~ s: 0\n ~ 1 false A 0\n",
    "time 1; domain d = -1..1; item s : d; axiom A : ex b : bool (b & s = 1); ~ s: 1\n ~ 0 true\n",
    "time 2; domain m = {red, green}; item c : m; item w(m) : bool; axiom A at 0 : c = green & w(green) & !w(red); axiom B at 1 : all x : m (c = x -> w(x)); ~ c: green red\nw(red): 0 1\nw(green): 1 0\n ~ 0 true\n",
    "time 2; domain m = {red, green}; item c : m; item w(m) : bool; axiom B : all x : m (c = x -> w(x)); ~ c: green red\nw(red): 0 0\nw(green): 1 0\n ~ 1 false B 1\n",
    "time 1; domain d = 0..1; domain e = 2..4; item g(d, e) : bool; axiom A : ex x : d (ex y : e (g(x, y) & x + y = 4)); axiom B : !g(0, 1) & !g(2, 2); ~ g(0, 2): 0\ng(0, 3): 0\ng(0, 4): 1\ng(1, 2): 0\ng(1, 3): 0\ng(1, 4): 0\n ~ 0 true\n",
    "time 1; domain d = 0..1; domain e = 2..4; item g(d, e) : bool; axiom A : g(1, 3); ~ g(0, 2): 1\ng(0, 3): 1\ng(0, 4): 1\ng(1, 2): 1\ng(1, 3): 0\ng(1, 4): 1\n ~ 1 false A 0\n",
    "time 4; domain d = 1..3; item p : bool; axiom A at 0 : all k : d (Dist(p, k)); axiom B at 3 : ex k : d (Dist(!p, -k)); ~ p: 0 1 1 1\n ~ 0 true\n",
    "time 4; domain d = 1..3; item p : bool; axiom A at 1 : all k : d (Dist(p, k)); ~ p: 1 1 1 1\n ~ 1 false A 1\n",
    "time 1; domain d = 0..1; item v(d) : d; axiom A : !(v(2) = v(2)) & !(v(2) != v(2)) & !(v(2) < 5) & !(v(-1) >= 0); ~ v(0): 0\nv(1): 1\n ~ 0 true\n",
    "time 1; domain d = 0..1; item v(d) : d; axiom A : v(0) + v(2) = 0; ~ v(0): 0\nv(1): 1\n ~ 1 false A 0\n",
    "time 1; item p : bool; axiom A : 2 + 3 - 1 = 4 & -2 + 3 = 1 & 3 * [2 - 5] = -9; ~ p: 0\n ~ 0 true\n",
    "time 1; domain d = -1000000..-999990; item n : d; axiom A : 1000000 * n = -[1000000 * 1000000]; ~ n: -1000000\n ~ 0 true\n",
    "time 1; domain d = -1000000..-999990; item n : d; axiom A : 1000000 * n > -[1000000 * 1000000]; ~ n: -1000000\n ~ 1 false A 0\n",
    "time 1; domain d = 999990..1000000; item n : d; axiom A : n - 1000000 = 0 & -n + 1000000 = 0 & n + n > n; ~ n: 1000000\n ~ 0 true\n",
];

/// Asserts that an axiom over these declarations is true or false at its one instant, as the last column says.
fn holds_at(
    rt: &(impl Abort + AllocGlobal),
    declarations: &str,
    history: &str,
    instant: &str,
    formula: &str,
    want: &str,
) {
    let alloc = rt.alloc();
    let spec = format!(in alloc; "{declarations} axiom A at {instant} : {formula};").expect(
        rt, "memory",
    );
    let want = match want {
        "true" => String::from_str(alloc, "0 true\n").expect(rt, "memory"),
        _ => format!(in alloc; "1 false A {instant}\n").expect(rt, "memory"),
    };
    let answer = checked(alloc, spec.as_bytes(), history.as_bytes()).expect(rt, "memory");
    is_due(rt, answer.as_slice(), want.as_str(), spec.as_str());
}

/// Asserts a row over `p`.
fn row_over_p(rt: &(impl Abort + AllocGlobal), row: &str) {
    let (instant, rest) = cut(row);
    let (formula, rest) = cut(rest);
    let (values, want) = cut(rest);
    let history = format!(in rt.alloc(); "p: {values}\n").expect(rt, "memory");
    let declarations = "time 4; item p : bool;";
    holds_at(rt, declarations, history.as_str(), instant, formula, want);
}

#[test]
fn operators_over_one_item(rt: HostRuntime) {
    for row in &OVER_P {
        row_over_p(&rt, row);
    }
}

/// Asserts a row over `p` and `q`.
fn row_over_p_and_q(rt: &(impl Abort + AllocGlobal), row: &str) {
    let (instant, rest) = cut(row);
    let (formula, rest) = cut(rest);
    let (first, rest) = cut(rest);
    let (second, want) = cut(rest);
    let history = format!(in rt.alloc(); "p: {first}\nq: {second}\n").expect(rt, "memory");
    let declarations = "time 5; item p : bool; item q : bool;";
    holds_at(rt, declarations, history.as_str(), instant, formula, want);
}

#[test]
fn operators_over_two_items(rt: HostRuntime) {
    for row in &OVER_P_AND_Q {
        row_over_p_and_q(&rt, row);
    }
}

#[test]
fn quantifiers_terms_and_first_false_instants(rt: HostRuntime) {
    check_all(&rt, &WHOLE);
}
