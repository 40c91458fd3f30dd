//! Worked rows on specification texts. A row of specifications has the text, an empty history, and the answer of `check`; a row of formulas has
//! the formula of the one axiom in place of the text.
use super::{answer_is, check_all, check_row, cut};
use std::process::Abort;

/// What stands before the formula of the one axiom.
const PREFIX: &str =
    "time 3; domain n = -1..2; domain c = {red, blue}; item p : bool; item q(n) : bool; item x : n; item w : c; item a(c, n) : n; axiom A : ";

/// Asserts each row of formulas.
fn check_formulas(rt: &(impl Abort + AllocGlobal), rows: &[&str]) {
    for row in rows {
        let (formula, want) = cut(row);
        let row = format!(in rt.alloc(); "{PREFIX}{formula}; ~  ~ {want}").expect(rt, "memory");
        check_row(rt, row.as_str());
    }
}

const NAMES_USED_BEFORE_THEY_ARE_DECLARED: [&str; 16] = [
    "time 3; item p : bool; axiom A : q; ~  ~ 4 refused spec unknown 11\n",
    "time 1; item p : d; domain d = 0..1; ~  ~ 4 refused spec unknown 6\n",
    "time 1; axiom A : p; item p : bool; ~  ~ 4 refused spec syntax 8\n",
    "time 1; axiom A : A; ~  ~ 4 refused spec kind 6\n",
    "time 1; axiom A : B; axiom B : true; ~  ~ 4 refused spec unknown 6\n",
    "time 1; item p(d) : bool; domain d = 0..1; ~  ~ 4 refused spec unknown 6\n",
    "time 1; axiom A : all x : x (true); ~  ~ 4 refused spec unknown 9\n",
    "time 1; axiom A : all x : d (true); ~  ~ 4 refused spec unknown 9\n",
    "time 1; axiom A : (all x : bool (x)) & x; ~  ~ 4 refused spec unknown 16\n",
    "time 1; domain d = {one, two}; item p : d; axiom A : p = one; ~  ~ 4 refused history missing p\n",
    "time 1; domain d = {one, d2}; item p : d; axiom A : p = d3; ~  ~ 4 refused spec unknown 22\n",
    "time 1; item p : p; ~  ~ 4 refused spec kind 6\n",
    "time 1; item p(p) : bool; ~  ~ 4 refused spec kind 6\n",
    "time 1; axiom A : f(true); ~  ~ 4 refused spec unknown 6\n",
    "time 1; axiom A : Dist(true, k); ~  ~ 4 refused spec unknown 10\n",
    "time 1; goal G : A; axiom A : true; ~  ~ 4 refused spec unknown 6\n",
];

#[test]
fn names_used_before_they_are_declared(rt: HostRuntime) {
    check_all(&rt, &NAMES_USED_BEFORE_THEY_ARE_DECLARED);
}

const NAMES_USED_BEFORE_THEY_ARE_DECLARED_OF_FORMULAS: [&str; 3] = [
    "q(y) ~ 4 refused spec unknown 58\n",
    "[[z]] ~ 4 refused spec unknown 58\n",
    "p & Until(p, r) ~ 4 refused spec unknown 62\n",
];

/// A name that is not declared, in each form of formula and of term.
const UNKNOWN_NAMES_IN_EACH_FORM: [&str; 16] = [
    "!r ~ 4 refused spec unknown 57\n",
    "r | p ~ 4 refused spec unknown 56\n",
    "p | r ~ 4 refused spec unknown 58\n",
    "r -> p ~ 4 refused spec unknown 56\n",
    "p -> r ~ 4 refused spec unknown 58\n",
    "r <-> p ~ 4 refused spec unknown 56\n",
    "p <-> r ~ 4 refused spec unknown 58\n",
    "Alw(r) ~ 4 refused spec unknown 58\n",
    "Dist(r, 1) ~ 4 refused spec unknown 58\n",
    "Since(r, p) ~ 4 refused spec unknown 58\n",
    "all y : n (r) ~ 4 refused spec unknown 61\n",
    "r = p ~ 4 refused spec unknown 56\n",
    "p = r ~ 4 refused spec unknown 58\n",
    "x - r = 1 ~ 4 refused spec unknown 58\n",
    "2 * r = 1 ~ 4 refused spec unknown 58\n",
    "a(red, r) = 1 ~ 4 refused spec unknown 60\n",
];

#[test]
fn unknown_names_in_each_form(rt: HostRuntime) {
    check_formulas(&rt, &UNKNOWN_NAMES_IN_EACH_FORM);
}

#[test]
fn names_used_before_they_are_declared_of_formulas(rt: HostRuntime) {
    check_formulas(&rt, &NAMES_USED_BEFORE_THEY_ARE_DECLARED_OF_FORMULAS);
}

/// Texts whose first fault each phase finds, and two that have none, so that the empty history is refused.
const ONE_OF_EACH_PHASE: [&str; 12] = [
    "time 1; domain d = {r}; item p(d) : bool; axiom a : all x : d (p(x)) & p(r); ~  ~ 4 refused history missing p(r)\n",
    "time 1; axiom a : q & p & r; ~  ~ 4 refused spec unknown 6\n",
    "time 1; axiom a : b; axiom b : true; ~  ~ 4 refused spec unknown 6\n",
    "time 1; item p : bool; item q : bool; item p : bool; item q : bool; ~  ~ 4 refused spec twice 14\n",
    "time 1; item x : bool; axiom a : ex x : bool (x); ~  ~ 4 refused spec twice 12\n",
    "time 3; domain n = -1..2; domain c = {r, s}; item p : bool; input q(c, n) : bool; item x : n; axiom a at 2 : all y : c (all z : n (Until(q(y, z + 2 * 1 - 3) -> x < 2, [p]))); goal g : !p = true; ~  ~ 4 refused history missing p\n",
    "time 1; # ~  ~ 4 refused spec lex 8\n",
    "time 1; axiom a : (p; ~  ~ 4 refused spec syntax 8\n",
    "time 1; axiom a : p; ~  ~ 4 refused spec unknown 6\n",
    "time 1; item p : bool; axiom p : 1; ~  ~ 4 refused spec twice 9\n",
    "time 1; domain c = {r}; domain e = {s}; axiom a at 1 : r = s; ~  ~ 4 refused spec kind 23\n",
    "time 1; axiom a at 1 : true; ~  ~ 4 refused spec range 6\n",
];

#[test]
fn one_of_each_phase(rt: HostRuntime) {
    check_all(&rt, &ONE_OF_EACH_PHASE);
}

const NAMES_DECLARED_TWICE: [&str; 19] = [
    "time 1; item p : bool; item p : bool; ~  ~ 4 refused spec twice 9\n",
    "time 1; goal G : all b : bool (b); axiom b : true; ~  ~ 4 refused spec twice 7\n",
    "time 1; domain d = 0..1; domain d = 0..1; ~  ~ 4 refused spec twice 11\n",
    "time 1; domain d = {red, red}; ~  ~ 4 refused spec twice 9\n",
    "time 1; domain d = {d}; ~  ~ 4 refused spec twice 7\n",
    "time 1; domain d = {red}; domain e = {red}; ~  ~ 4 refused spec twice 14\n",
    "time 1; domain d = {red}; item red : bool; ~  ~ 4 refused spec twice 11\n",
    "time 1; item p : bool; axiom p : true; ~  ~ 4 refused spec twice 9\n",
    "time 1; axiom A : true; axiom A : true; ~  ~ 4 refused spec twice 9\n",
    "time 1; axiom A : true; goal A : true; ~  ~ 4 refused spec twice 9\n",
    "time 1; axiom A : all x : bool (ex x : bool (x)); ~  ~ 4 refused spec twice 12\n",
    "time 1; axiom A : (all x : bool (x)) | (ex x : bool (x)); ~  ~ 0 true\n",
    "time 1; item x : bool; axiom A : all x : bool (x); ~  ~ 4 refused spec twice 12\n",
    "time 1; axiom A : all A : bool (A); ~  ~ 4 refused spec twice 7\n",
    "time 1; domain d = 0..1; axiom A : all d : d (true); ~  ~ 4 refused spec twice 14\n",
    "time 1; domain d = {red}; axiom A : ex red : d (true); ~  ~ 4 refused spec twice 14\n",
    "time 1; axiom A : all x : bool (x); item x : bool; ~  ~ 4 refused spec syntax 14\n",
    "time 1; axiom A : all x : bool (all y : bool (ex x : bool (x))); ~  ~ 4 refused spec twice 17\n",
    "time 1; item bool2 : bool; domain bool2 = 0..1; ~  ~ 4 refused spec twice 9\n",
];

#[test]
fn names_declared_twice(rt: HostRuntime) {
    check_all(&rt, &NAMES_DECLARED_TWICE);
}

const KINDS: [&str; 7] = [
    "time 1; item p : bool; axiom A : p < true; ~  ~ 4 refused spec kind 12\n",
    "time 1; item p : red; ~  ~ 4 refused spec unknown 6\n",
    "time 1; domain d = {red}; item p : red; ~  ~ 4 refused spec kind 13\n",
    "time 1; item p : bool; item r(p) : bool; ~  ~ 4 refused spec kind 11\n",
    "time 1; axiom A : true; goal G : A; ~  ~ 4 refused spec kind 11\n",
    "time 1; axiom A : true; axiom B : 1 = A; ~  ~ 4 refused spec kind 13\n",
    "time 1; domain c = {r}; domain e = {s}; item q(c) : bool; axiom A : q(s); ~  ~ 4 refused spec kind 30\n",
];

/// Texts with several faults of a phase, of which the first in the text is reported, and names that are declared behind their use, too.
const FIRST_OF_SEVERAL: [&str; 6] = [
    "time 1; axiom A : all A : bool (A); axiom A : true; ~  ~ 4 refused spec twice 7\n",
    "time 1; item p : bool; axiom A : p; axiom p : true; ~  ~ 4 refused spec twice 14\n",
    "time 1; axiom A : 1000001 = 1; axiom B at 5 : true; ~  ~ 4 refused spec range 6\n",
    "time 1; axiom A at 5 : true; axiom B : 1000001 = 1; ~  ~ 4 refused spec range 6\n",
    "time 1; axiom A : 1 = true; axiom B : 1; ~  ~ 4 refused spec kind 7\n",
    "time 1; axiom A : q; axiom B : r; ~  ~ 4 refused spec unknown 6\n",
];

#[test]
fn first_of_several(rt: HostRuntime) {
    check_all(&rt, &FIRST_OF_SEVERAL);
}

#[test]
fn kinds(rt: HostRuntime) {
    check_all(&rt, &KINDS);
}

/// Sums and products where no number may stand, and items in those of a distance or an argument.
const KINDS_OF_SUMS: [&str; 7] = [
    "x + 1 ~ 4 refused spec kind 56\n",
    "x + 1 = red ~ 4 refused spec kind 59\n",
    "2 * x = w ~ 4 refused spec kind 59\n",
    "p = [x - 1] ~ 4 refused spec kind 57\n",
    "a(1 + 1, 1) = 1 ~ 4 refused spec kind 58\n",
    "q(-x) ~ 4 refused spec kind 59\n",
    "Dist(p, -x) ~ 4 refused spec kind 61\n",
];

#[test]
fn kinds_of_sums(rt: HostRuntime) {
    check_formulas(&rt, &KINDS_OF_SUMS);
}

const KINDS_OF_FORMULAS: [&str; 92] = [
    "p = true ~ 4 refused history missing p\n",
    "p != q(0) ~ 4 refused history missing p\n",
    "p < q(0) ~ 4 refused spec kind 57\n",
    "p >= p ~ 4 refused spec kind 57\n",
    "p > p ~ 4 refused spec kind 57\n",
    "w <= blue ~ 4 refused spec kind 57\n",
    "x < 1 ~ 4 refused history missing p\n",
    "x <= x + 1 ~ 4 refused history missing p\n",
    "1 > 2 ~ 4 refused history missing p\n",
    "w = red ~ 4 refused history missing p\n",
    "w != blue ~ 4 refused history missing p\n",
    "w < blue ~ 4 refused spec kind 57\n",
    "red = blue ~ 4 refused history missing p\n",
    "red = w ~ 4 refused history missing p\n",
    "red ~ 4 refused spec kind 56\n",
    "w ~ 4 refused spec kind 56\n",
    "x ~ 4 refused spec kind 56\n",
    "1 ~ 4 refused spec kind 56\n",
    "true ~ 4 refused history missing p\n",
    "q(1) ~ 4 refused history missing p\n",
    "p = 1 ~ 4 refused spec kind 57\n",
    "1 = p ~ 4 refused spec kind 57\n",
    "w = 1 ~ 4 refused spec kind 57\n",
    "w = true ~ 4 refused spec kind 57\n",
    "x = red ~ 4 refused spec kind 57\n",
    "q ~ 4 refused spec kind 56\n",
    "q(1, 2) ~ 4 refused spec kind 56\n",
    "p(1) ~ 4 refused spec kind 56\n",
    "a(red, 1) = 1 ~ 4 refused history missing p\n",
    "a(1, red) = 1 ~ 4 refused spec kind 58\n",
    "a(red) = 1 ~ 4 refused spec kind 56\n",
    "n = 1 ~ 4 refused spec kind 56\n",
    "c = red ~ 4 refused spec kind 56\n",
    "A ~ 4 refused spec kind 56\n",
    "A & p ~ 4 refused spec kind 56\n",
    "n ~ 4 refused spec kind 56\n",
    "x(1) = 1 ~ 4 refused spec kind 56\n",
    "red(1) = red ~ 4 refused spec kind 56\n",
    "n(1) = 1 ~ 4 refused spec kind 56\n",
    "[A] ~ 4 refused spec kind 57\n",
    "p < [A] ~ 4 refused spec kind 57\n",
    "true < A ~ 4 refused spec kind 57\n",
    "1 < A ~ 4 refused spec kind 58\n",
    "1 < q ~ 4 refused spec kind 57\n",
    "[n] = 1 ~ 4 refused spec kind 57\n",
    "x + [A] = 1 ~ 4 refused spec kind 59\n",
    "2 * [A] = 1 ~ 4 refused spec kind 59\n",
    "q([A]) ~ 4 refused spec kind 59\n",
    "Dist(p, [A]) ~ 4 refused spec kind 61\n",
    "[A] = w ~ 4 refused spec kind 57\n",
    "-x = 1 ~ 4 refused history missing p\n",
    "-p = 1 ~ 4 refused spec kind 57\n",
    "x + p = 1 ~ 4 refused spec kind 58\n",
    "x + red = 1 ~ 4 refused spec kind 58\n",
    "p + 1 = 1 ~ 4 refused spec kind 56\n",
    "2 * x = 4 ~ 4 refused history missing p\n",
    "2 * p = 4 ~ 4 refused spec kind 58\n",
    "2 * [p] = 4 ~ 4 refused spec kind 58\n",
    "2 * true = 4 ~ 4 refused spec kind 58\n",
    "2 * red = 4 ~ 4 refused spec kind 58\n",
    "-[p] = 1 ~ 4 refused spec kind 57\n",
    "x - [w] = 1 ~ 4 refused spec kind 58\n",
    "q(x) ~ 4 refused spec kind 58\n",
    "q(x + 1) ~ 4 refused spec kind 58\n",
    "q([x]) ~ 4 refused spec kind 59\n",
    "q(p) ~ 4 refused spec kind 58\n",
    "q(true) ~ 4 refused spec kind 58\n",
    "q(red) ~ 4 refused spec kind 58\n",
    "q(n) ~ 4 refused spec kind 58\n",
    "a(w, 1) = 1 ~ 4 refused spec kind 58\n",
    "q(a(red, 1)) ~ 4 refused spec kind 58\n",
    "all y : n (q(y)) ~ 4 refused history missing p\n",
    "all y : n (q(y + 1)) ~ 4 refused history missing p\n",
    "all y : c (q(y)) ~ 4 refused spec kind 63\n",
    "all y : c (a(y, 1) = 1) ~ 4 refused history missing p\n",
    "all y : bool (y) ~ 4 refused history missing p\n",
    "all y : n (y) ~ 4 refused spec kind 61\n",
    "Dist(p, 1) ~ 4 refused history missing p\n",
    "Dist(p, x) ~ 4 refused spec kind 60\n",
    "Dist(p, true) ~ 4 refused spec kind 60\n",
    "Dist(p, p) ~ 4 refused spec kind 60\n",
    "Dist(p, red) ~ 4 refused spec kind 60\n",
    "Dist(p, [p]) ~ 4 refused spec kind 60\n",
    "Dist(p, A) ~ 4 refused spec kind 60\n",
    "Dist(p, 1 + x) ~ 4 refused spec kind 62\n",
    "ex y : n (Dist(p, y)) ~ 4 refused history missing p\n",
    "ex y : c (Dist(p, y)) ~ 4 refused spec kind 65\n",
    "ex y : n (Futr(p, 2 * y - 1)) ~ 4 refused history missing p\n",
    "all y : p (true) ~ 4 refused spec kind 59\n",
    "all y : A (true) ~ 4 refused spec kind 59\n",
    "all y : red (true) ~ 4 refused spec kind 59\n",
    "all y : bool (ex z : y (true)) ~ 4 refused spec kind 64\n",
];

/// A term's first token, also where that is a sign or a number before `*`, and reads inside of a distance or an argument.
const FIRST_TOKENS: [&str; 10] = [
    "-x ~ 4 refused spec kind 56\n",
    "2 * x ~ 4 refused spec kind 56\n",
    "a(red, 1) ~ 4 refused spec kind 56\n",
    "a(-1, 1) = 1 ~ 4 refused spec kind 58\n",
    "a(2 * 1, 1) = 1 ~ 4 refused spec kind 58\n",
    "q(2 * x) ~ 4 refused spec kind 60\n",
    "q(2 * [x]) ~ 4 refused spec kind 61\n",
    "Dist(p, 2 * x) ~ 4 refused spec kind 62\n",
    "all y : n (all z : n (z(1))) ~ 4 refused spec kind 66\n",
    "q < 1 ~ 4 refused spec kind 56\n",
];

#[test]
fn first_tokens(rt: HostRuntime) {
    check_formulas(&rt, &FIRST_TOKENS);
}

#[test]
fn kinds_of_formulas(rt: HostRuntime) {
    check_formulas(&rt, &KINDS_OF_FORMULAS);
}

const RANGES: [&str; 38] = [
    "time 0; ~  ~ 4 refused spec range 1\n",
    "time 1; ~  ~ 0 true\n",
    "time 256; ~  ~ 0 true\n",
    "time 257; ~  ~ 4 refused spec range 1\n",
    "time 1000000; ~  ~ 4 refused spec range 1\n",
    "time 1000001; ~  ~ 4 refused spec range 1\n",
    "time 99999999999999999999999; ~  ~ 4 refused spec range 1\n",
    "time 1; domain d = 0..64; ~  ~ 4 refused spec range 8\n",
    "time 1; domain d = 0..63; ~  ~ 0 true\n",
    "time 1; domain d = -63..0; ~  ~ 0 true\n",
    "time 1; domain d = -64..0; ~  ~ 4 refused spec range 9\n",
    "time 1; domain d = 1..0; ~  ~ 4 refused spec range 8\n",
    "time 1; domain d = 1..1; ~  ~ 0 true\n",
    "time 1; domain d = -1..-2; ~  ~ 4 refused spec range 10\n",
    "time 1; domain d = -2..-1; ~  ~ 0 true\n",
    "time 1; domain d = 1000000..1000000; ~  ~ 0 true\n",
    "time 1; domain d = 1000001..1000001; ~  ~ 4 refused spec range 6\n",
    "time 1; domain d = -1000000..-1000000; ~  ~ 0 true\n",
    "time 1; domain d = -1000001..-1000001; ~  ~ 4 refused spec range 7\n",
    "time 1; domain d = 0..1000001; ~  ~ 4 refused spec range 8\n",
    "time 1; axiom A : 1000000 = 1; ~  ~ 1 false A 0\n",
    "time 1; axiom A : 1000001 = 1; ~  ~ 4 refused spec range 6\n",
    "time 1; axiom A : 1 = -1000001; ~  ~ 4 refused spec range 9\n",
    "time 1; axiom A : Dist(true, 1000001); ~  ~ 4 refused spec range 10\n",
    "time 1; axiom A : 1000001 * 1 = 1; ~  ~ 4 refused spec range 6\n",
    "time 1; axiom A : [2 * 1000001] = 1; ~  ~ 4 refused spec range 9\n",
    "time 1; axiom A at 0 : true; ~  ~ 0 true\n",
    "time 1; axiom A at 1 : true; ~  ~ 4 refused spec range 6\n",
    "time 3; axiom A at 2 : true; ~  ~ 0 true\n",
    "time 3; goal G at 3 : true; ~  ~ 4 refused spec range 6\n",
    "time 3; goal G at 1000001 : true; ~  ~ 4 refused spec range 6\n",
    "time 0; axiom A at 0 : true; ~  ~ 4 refused spec range 1\n",
    "time 1; item p(bool, bool, bool, bool) : bool; ~  ~ 4 refused history missing p(0,0,0,0)\n",
    "time 1; item p(bool, bool, bool, bool, bool) : bool; ~  ~ 4 refused spec range 14\n",
    "time 1; item p(bool, bool, bool, bool, bool, bool) : bool; ~  ~ 4 refused spec range 14\n",
    "time 1; domain d = {v0, v1, v2, v3, v4, v5, v6, v7, v8, v9, v10, v11, v12, v13, v14, v15, v16, v17, v18, v19, v20, v21, v22, v23, v24, v25, v26, v27, v28, v29, v30, v31, v32, v33, v34, v35, v36, v37, v38, v39, v40, v41, v42, v43, v44, v45, v46, v47, v48, v49, v50, v51, v52, v53, v54, v55, v56, v57, v58, v59, v60, v61, v62, v63}; ~  ~ 0 true\n",
    "time 1; domain d = {v0, v1, v2, v3, v4, v5, v6, v7, v8, v9, v10, v11, v12, v13, v14, v15, v16, v17, v18, v19, v20, v21, v22, v23, v24, v25, v26, v27, v28, v29, v30, v31, v32, v33, v34, v35, v36, v37, v38, v39, v40, v41, v42, v43, v44, v45, v46, v47, v48, v49, v50, v51, v52, v53, v54, v55, v56, v57, v58, v59, v60, v61, v62, v63, v64}; ~  ~ 4 refused spec range 135\n",
    "time 1; domain d = {v0, v1, v2, v3, v4, v5, v6, v7, v8, v9, v10, v11, v12, v13, v14, v15, v16, v17, v18, v19, v20, v21, v22, v23, v24, v25, v26, v27, v28, v29, v30, v31, v32, v33, v34, v35, v36, v37, v38, v39, v40, v41, v42, v43, v44, v45, v46, v47, v48, v49, v50, v51, v52, v53, v54, v55, v56, v57, v58, v59, v60, v61, v62, v63, v64, v65}; ~  ~ 4 refused spec range 135\n",
];

#[test]
fn ranges(rt: HostRuntime) {
    check_all(&rt, &RANGES);
}

const LIMITS: [&str; 23] = [
    "time 256; item a : bool; item b : bool; item c : bool; item d : bool; ~  ~ 4 refused history missing a\n",
    "time 205; item a : bool; item b : bool; item c : bool; item d : bool; item e : bool; ~  ~ 4 refused spec limit cells 1025\n",
    "time 1; domain d = 0..63; item a(d) : bool; item b(d, bool) : bool; ~  ~ 4 refused history missing a(0)\n",
    "time 1; domain d = 0..63; item a(d) : d; ~  ~ 4 refused history missing a(0)\n",
    "time 1; domain d = 0..63; domain e = 0..0; item a(d) : d; item b : e; ~  ~ 4 refused spec limit sizes 4097\n",
    "time 1; domain d = 0..63; item a(d) : d; item b : bool; ~  ~ 4 refused spec limit sizes 4098\n",
    "time 16; domain d = 0..63; item a(d) : d; ~  ~ 4 refused spec limit sizes 65536\n",
    "time 17; domain d = 0..63; item a(d) : d; ~  ~ 4 refused spec limit cells 1088\n",
    "time 1; domain d = 0..63; item a(d, d) : bool; ~  ~ 4 refused spec limit cells 4096\n",
    "time 1; domain d = 0..63; item a(d, d, d, d) : bool; ~  ~ 4 refused spec limit cells 16777216\n",
    "time 256; domain d = 0..63; item a(d, d, d, d) : d; item b(d, d, d, d) : d; ~  ~ 4 refused spec limit cells 8589934592\n",
    "time 1; axiom A : 1000000 * [1000000] = 1; ~  ~ 1 false A 0\n",
    "time 1; axiom A : 1000000 * [1000000 + 1] = 1; ~  ~ 4 refused spec limit bound 1000001000000\n",
    "time 1; axiom A : 1000000 * [1000000] + 1 = 1; ~  ~ 4 refused spec limit bound 1000000000001\n",
    "time 1; axiom A : 1000000 * [1000000 * [1000000]] = 1; ~  ~ 4 refused spec limit bound 1000000000000000000\n",
    "time 1; axiom A : 1000000 * [1000000 * [1000000 * [1000000]]] = 1; ~  ~ 4 refused spec limit bound 18446744073709551615\n",
    "time 1; item p : bool; axiom A : p & !(p & !(p & !(p & !(p & !(p & !(p & !(p & !(p & !(p & !(p & !(p & !(p & !(p & !(p & !(p & !(p & !(p & !(p & !(p & !(p & !(p & !(p & !(p & !(p & !(p & !(p & !(p & !(p & !(p & !(p & !(p & !(p & !(p & !(p & !(p & !(p & !(p & !(p & !(p & !(p & !(p & !(p & !(p & !(p & !(p & !(p & !(p & !(p & !(p & !(p)))))))))))))))))))))))))))))))))))))))))))))))))); ~  ~ 4 refused history missing p\n",
    "time 1; item p : bool; axiom A : p & !(p & !(p & !(p & !(p & !(p & !(p & !(p & !(p & !(p & !(p & !(p & !(p & !(p & !(p & !(p & !(p & !(p & !(p & !(p & !(p & !(p & !(p & !(p & !(p & !(p & !(p & !(p & !(p & !(p & !(p & !(p & !(p & !(p & !(p & !(p & !(p & !(p & !(p & !(p & !(p & !(p & !(p & !(p & !(p & !(p & !(p & !(p & !(p & !(p & !(p & !(p))))))))))))))))))))))))))))))))))))))))))))))))))); ~  ~ 4 refused spec limit nest 101\n",
    "time 256; axiom A : Alw(Alw(true)); ~  ~ 4 refused spec limit instances 16843008\n",
    "time 256; axiom A : Alw(Alw(Alw(true))); ~  ~ 4 refused spec limit instances 4311810304\n",
    "time 256; axiom A : Alw(Alw(Alw(Alw(Alw(Alw(Alw(Alw(Alw(true))))))))); ~  ~ 4 refused spec limit instances 18446744073709551615\n",
    "time 100; axiom A : Until(Until(true, true), true); ~  ~ 4 refused spec limit instances 10301030100\n",
    "time 2; axiom A : true <-> (true <-> (true <-> true)); ~  ~ 0 true\n",
];

#[test]
fn limits(rt: HostRuntime) {
    check_all(&rt, &LIMITS);
}

/// A formula F, and the instance count of `Alw(Alw(F))` over 256 instants: 16,777,216 times that of F, and 65,792.
const INSTANCE_COUNTS: [&str; 24] = [
    "1 = 1 ~ 16843008",
    "!true ~ 33620224",
    "true & true & true ~ 83951872",
    "true | !true ~ 67174656",
    "true -> !true ~ 67174656",
    "true <-> !true ~ 184615168",
    "all x : d (!true) ~ 117506304",
    "ex x : bool (true) ~ 50397440",
    "Dist(!true, 1) ~ 50397440",
    "Futr(!true, 1) ~ 50397440",
    "Past(!true, 1) ~ 50397440",
    "NextTime(!true, 1) ~ 12968853760",
    "LastTime(!true, 1) ~ 12968853760",
    "Som(true) ~ 4311810304",
    "AlwF(true) ~ 4311810304",
    "SomF(true) ~ 4311810304",
    "AlwP(true) ~ 4311810304",
    "SomP(true) ~ 4311810304",
    "Lasts(!true, 1) ~ 8606777600",
    "Lasted_ii(!true, 1) ~ 8606777600",
    "WithinF_ie(!true, 1) ~ 8606777600",
    "WithinP_ei(!true, 1) ~ 8606777600",
    "Until(true, !true) ~ 1116708339968",
    "Since(!true, true) ~ 2211925000448",
];

#[test]
fn instance_counts(rt: HostRuntime) {
    for row in &INSTANCE_COUNTS {
        let (formula, count) = cut(row);
        let spec = format!(in rt.alloc();
            "time 256; domain d = -1..1; axiom A : Alw(Alw({formula}));"
        ).expect(&rt, "memory");
        let want = format!(in rt.alloc(); "4 refused spec limit instances {count}").expect(
            &rt, "memory",
        );
        answer_is(&rt, spec.as_str(), want.as_str());
    }
}

/// Formulas in which the bound of one term, of 1,000,000 times 1,000,001, is above the limit.
const BOUNDS_ABOVE_THE_LIMIT: [&str; 27] = [
    "1000000 * [1000000 + 1] = 1",
    "1 = 1000000 * [1000000 + 1]",
    "1000000 * [1 - 1000000] = 1",
    "1000000 * [-1000000 + 1] = 1",
    "0 * [1000000 * [1000000 + 1]] = 1",
    "1000000 * [n + 1] = 1",
    "1000000 * [m - 1] = 1",
    "all x : low (all y : high (1000000 * [y + 1] = x))",
    "all y : low (all x : d (1000000 * [y - 1] = x))",
    "q(1000000 * [1000000 + 1])",
    "q(1000000 * [1000000 + 1]) = true",
    "Dist(true, 1000000 * [1000000 + 1])",
    "!1000000 * [1000000 + 1] = 1",
    "true & 1000000 * [1000000 + 1] = 1",
    "true | 1000000 * [1000000 + 1] = 1",
    "true -> 1000000 * [1000000 + 1] = 1",
    "1000000 * [1000000 + 1] = 1 -> true",
    "true <-> 1000000 * [1000000 + 1] = 1",
    "ex x : d (1000000 * [1000000 + 1] = x)",
    "Alw(1000000 * [1000000 + 1] = 1)",
    "Dist(1000000 * [1000000 + 1] = 1, 1)",
    "Until(true, 1000000 * [1000000 + 1] = 1)",
    "Until(1000000 * [1000000 + 1] = 1, true)",
    "1000000 * [1000000 + 1] = 1 <-> true",
    "1000000 * [1000000 + 1] = 1 & true",
    "1000000 * [1000000 + 1] = 1 | true",
    "all x : d (1000000 * [1000000 + 1] = x)",
];

#[test]
fn bounds_above_the_limit(rt: HostRuntime) {
    for formula in &BOUNDS_ABOVE_THE_LIMIT {
        let spec = format!(in rt.alloc();
            "time 1; domain d = 0..1; domain low = -1000000..-999999; domain high = 999999..1000000; item n : high; item m : low; item q(d) : bool; axiom A : {formula};"
        ).expect(&rt, "memory");
        answer_is(
            &rt,
            spec.as_str(),
            "4 refused spec limit bound 1000001000000",
        );
    }
}

/// Every axiom and goal counts, also one that stands at one instant.
const COUNTED_CLAIMS: [&str; 5] = [
    "time 256; axiom A at 0 : Alw(Alw(true)); ~  ~ 4 refused spec limit instances 16843008\n",
    "time 256; goal G at 0 : Alw(Alw(true)); ~  ~ 4 refused spec limit instances 16843008\n",
    "time 256; axiom A : Alw(Alw(true)); goal G : true; ~  ~ 4 refused spec limit instances 16843264\n",
    "time 1; goal G : 1000000 * [1000000 + 1] = 1; ~  ~ 4 refused spec limit bound 1000001000000\n",
    "time 1; item p : bool; goal G : p & !(p & !(p & !(p & !(p & !(p & !(p & !(p & !(p & !(p & !(p & !(p & !(p & !(p & !(p & !(p & !(p & !(p & !(p & !(p & !(p & !(p & !(p & !(p & !(p & !(p & !(p & !(p & !(p & !(p & !(p & !(p & !(p & !(p & !(p & !(p & !(p & !(p & !(p & !(p & !(p & !(p & !(p & !(p & !(p & !(p & !(p & !(p & !(p & !(p & !(p & !(p))))))))))))))))))))))))))))))))))))))))))))))))))); ~  ~ 4 refused spec limit nest 101\n",
];

#[test]
fn counted_claims(rt: HostRuntime) {
    check_all(&rt, &COUNTED_CLAIMS);
}

/// Two counts that are above their limits, of which the one that is looked at first is named.
const LIMITS_IN_THEIR_ORDER: [&str; 4] = [
    "time 16; domain d = 0..63; item a(d) : d; item b(d) : bool; ~  ~ 4 refused spec limit cells 2048\n",
    "time 16; domain d = 0..63; item a(d) : d; axiom A : 1000000 * [1000000 + 1] = 1; ~  ~ 4 refused spec limit sizes 65536\n",
    "time 256; axiom A : Alw(Alw(1000000 * [1000000 + 1] = 1)); ~  ~ 4 refused spec limit bound 1000001000000\n",
    "time 256; item p : bool; axiom A : p & !(p & !(p & !(p & !(p & !(p & !(p & !(p & !(p & !(p & !(p & !(p & !(p & !(p & !(p & !(p & !(p & !(p & !(p & !(p & !(p & !(p & !(p & !(p & !(p & !(p & !(p & !(p & !(p & !(p & !(p & !(p & !(p & !(p & !(p & !(p & !(p & !(p & !(p & !(p & !(p & !(p & !(p & !(p & !(p & !(p & !(p & !(p & !(p & !(p & !(p & !(p))))))))))))))))))))))))))))))))))))))))))))))))))); axiom B : Alw(Alw(true)); ~  ~ 4 refused spec limit instances 16882432\n",
];

#[test]
fn limits_in_their_order(rt: HostRuntime) {
    check_all(&rt, &LIMITS_IN_THEIR_ORDER);
}

const PHASES_IN_THEIR_ORDER: [&str; 11] = [
    "time 1 1 : @; ~  ~ 4 refused spec lex 11\n",
    "time 1; axiom A : q; axiom A ; ~  ~ 4 refused spec syntax 10\n",
    "time 1; axiom A : true; axiom A : q; ~  ~ 4 refused spec unknown 11\n",
    "time 1; axiom A : 1; axiom A : true; ~  ~ 4 refused spec twice 9\n",
    "time 0; axiom A : 1; ~  ~ 4 refused spec kind 6\n",
    "time 0; axiom A : true; item a : bool; item a : bool; ~  ~ 4 refused spec syntax 8\n",
    "time 300; item a : bool; axiom A : 1000000 * [2000000] = 1; ~  ~ 4 refused spec range 1\n",
    "time 1; axiom A : 1000000 * [1000000 * [1000000]] = true; ~  ~ 4 refused spec kind 15\n",
    "time 205; item a : bool; item b : bool; item c : bool; item d : bool; item e : bool; axiom A : 1000000 * [1000000 * [1000000]] = 1; ~  ~ 4 refused spec limit cells 1025\n",
    "time 1; axiom A : 1 & q; ~  ~ 4 refused spec unknown 8\n",
    "time 1; axiom A : 1000001 = true; ~  ~ 4 refused spec kind 7\n",
];

#[test]
fn phases_in_their_order(rt: HostRuntime) {
    check_all(&rt, &PHASES_IN_THEIR_ORDER);
}

const OPERATORS: [&str; 40] = [
    "time 1; axiom A : Alw(true); ~  ~ 0 true\n",
    "time 1; axiom A : AlwF(true); ~  ~ 0 true\n",
    "time 1; axiom A : AlwP(true); ~  ~ 0 true\n",
    "time 1; axiom A : Som(true); ~  ~ 0 true\n",
    "time 1; axiom A : SomF(true); ~  ~ 1 false A 0\n",
    "time 1; axiom A : SomP(true); ~  ~ 1 false A 0\n",
    "time 1; axiom A : Dist(true, 0); ~  ~ 0 true\n",
    "time 1; axiom A : Futr(true, 0); ~  ~ 0 true\n",
    "time 1; axiom A : Past(true, 0); ~  ~ 0 true\n",
    "time 1; axiom A : NextTime(true, 0); ~  ~ 0 true\n",
    "time 1; axiom A : LastTime(true, 0); ~  ~ 0 true\n",
    "time 1; axiom A : Lasts(true, 0); ~  ~ 0 true\n",
    "time 1; axiom A : Lasts_ii(true, 0); ~  ~ 0 true\n",
    "time 1; axiom A : Lasts_ie(true, 0); ~  ~ 0 true\n",
    "time 1; axiom A : Lasts_ei(true, 0); ~  ~ 0 true\n",
    "time 1; axiom A : Lasted(true, 0); ~  ~ 0 true\n",
    "time 1; axiom A : Lasted_ii(true, 0); ~  ~ 0 true\n",
    "time 1; axiom A : Lasted_ie(true, 0); ~  ~ 0 true\n",
    "time 1; axiom A : Lasted_ei(true, 0); ~  ~ 0 true\n",
    "time 1; axiom A : WithinF(true, 0); ~  ~ 1 false A 0\n",
    "time 1; axiom A : WithinF_ii(true, 0); ~  ~ 0 true\n",
    "time 1; axiom A : WithinF_ie(true, 0); ~  ~ 1 false A 0\n",
    "time 1; axiom A : WithinF_ei(true, 0); ~  ~ 1 false A 0\n",
    "time 1; axiom A : WithinP(true, 0); ~  ~ 1 false A 0\n",
    "time 1; axiom A : WithinP_ii(true, 0); ~  ~ 0 true\n",
    "time 1; axiom A : WithinP_ie(true, 0); ~  ~ 1 false A 0\n",
    "time 1; axiom A : WithinP_ei(true, 0); ~  ~ 1 false A 0\n",
    "time 1; axiom A : Until(true, true); ~  ~ 1 false A 0\n",
    "time 1; axiom A : Since(true, true); ~  ~ 1 false A 0\n",
    "time 1; axiom A : Alw(true, 1); ~  ~ 4 refused spec syntax 9\n",
    "time 1; axiom A : Dist(true); ~  ~ 4 refused spec syntax 9\n",
    "time 1; axiom A : Until(true); ~  ~ 4 refused spec syntax 9\n",
    "time 1; axiom A : Until(true, true, true); ~  ~ 4 refused spec syntax 11\n",
    "time 1; axiom A : Alw(); ~  ~ 4 refused spec syntax 8\n",
    "time 1; axiom A : Alw true; ~  ~ 4 refused spec syntax 7\n",
    "time 1; axiom A : Lasts_ee(true, 1); ~  ~ 4 refused spec unknown 6\n",
    "time 1; axiom A : Until_ii(true, true); ~  ~ 4 refused spec unknown 6\n",
    "time 1; axiom A : alw(true); ~  ~ 4 refused spec unknown 6\n",
    "time 1; item Alw : bool; ~  ~ 4 refused spec syntax 4\n",
    "time 1; item Dist1 : bool; axiom A : Som(Dist1); ~  ~ 4 refused history missing Dist1\n",
];

#[test]
fn operators(rt: HostRuntime) {
    check_all(&rt, &OPERATORS);
}

/// Names with the first and the last of the letters and digits, and the bytes beside these.
const BYTES_OF_NAMES: [&str; 11] = [
    "time 1; item aAzZ09_ : bool; ~  ~ 4 refused history missing aAzZ09_\n",
    "time 1; item z : bool; ~  ~ 4 refused history missing z\n",
    "time 1; item Z : bool; ~  ~ 4 refused history missing Z\n",
    "time 1; item `p : bool; ~  ~ 4 refused spec lex 13\n",
    "time 1; item p` : bool; ~  ~ 4 refused spec lex 14\n",
    "time 1; item p@ : bool; ~  ~ 4 refused spec lex 14\n",
    "time 1; item p/ : bool; ~  ~ 4 refused spec lex 14\n",
    "time 1; item p^ : bool; ~  ~ 4 refused spec lex 14\n",
    "time 1; item p[ : bool; ~  ~ 4 refused spec syntax 5\n",
    "time 1; item p{ : bool; ~  ~ 4 refused spec syntax 5\n",
    "time 1; item p:bool; ~  ~ 4 refused history missing p\n",
];

#[test]
fn bytes_of_names(rt: HostRuntime) {
    check_all(&rt, &BYTES_OF_NAMES);
}

const THE_GRAMMAR: [&str; 64] = [
    "time 3; item p bool; ~  ~ 4 refused spec syntax 5\n",
    " ~  ~ 4 refused spec syntax 0\n",
    "time ~  ~ 4 refused spec syntax 1\n",
    "time 1 ~  ~ 4 refused spec syntax 2\n",
    "time 1; ~  ~ 0 true\n",
    "time 1;; ~  ~ 4 refused spec syntax 3\n",
    "time -1; ~  ~ 4 refused spec syntax 1\n",
    "time 1; time 1; ~  ~ 4 refused spec syntax 3\n",
    "item p : bool; ~  ~ 4 refused spec syntax 0\n",
    "time 1; axiom A : !!true; ~  ~ 4 refused spec syntax 7\n",
    "time 1; axiom A : !(!true); ~  ~ 0 true\n",
    "time 1; axiom A : true -> true -> true; ~  ~ 4 refused spec syntax 9\n",
    "time 1; axiom A : (true -> true) -> true; ~  ~ 0 true\n",
    "time 1; axiom A : true <-> true <-> true; ~  ~ 4 refused spec syntax 9\n",
    "time 1; axiom A : true -> true <-> true; ~  ~ 4 refused spec syntax 9\n",
    "time 1; axiom A : true & true | true; ~  ~ 0 true\n",
    "time 1; axiom A : true | true & true; ~  ~ 0 true\n",
    "time 1; axiom A : 2 * 3 * 1 = 6; ~  ~ 4 refused spec syntax 9\n",
    "time 1; axiom A : 2 * [3 * 1] = 6; ~  ~ 0 true\n",
    "time 1; axiom A : 1 = 1 = 1; ~  ~ 4 refused spec syntax 9\n",
    "time 1; axiom A : --1 = 1; ~  ~ 4 refused spec syntax 7\n",
    "time 1; axiom A : -[-1] = 1; ~  ~ 0 true\n",
    "time 1; axiom A : 1 + -1 = 0; ~  ~ 4 refused spec syntax 8\n",
    "time 1; axiom A : 1 - 1 - 1 = -1; ~  ~ 0 true\n",
    "time 1; axiom A : 1-1=0; ~  ~ 0 true\n",
    "time 1; axiom A : [1] * 2 = 2; ~  ~ 4 refused spec syntax 9\n",
    "time 1; axiom A : true * 2 = 2; ~  ~ 4 refused spec syntax 7\n",
    "time 1; axiom A : (1) = 1; ~  ~ 4 refused spec syntax 9\n",
    "time 1; axiom A : ([1] = 1); ~  ~ 0 true\n",
    "time 1; axiom A : [1 = 1]; ~  ~ 4 refused spec syntax 8\n",
    "time 1; axiom A : [true]; ~  ~ 0 true\n",
    "time 1; axiom A : [true] & [[true]]; ~  ~ 0 true\n",
    "time 1; axiom A : (true; ~  ~ 4 refused spec syntax 8\n",
    "time 1; axiom A : true); ~  ~ 4 refused spec syntax 7\n",
    "time 1; axiom A : [true); ~  ~ 4 refused spec syntax 8\n",
    "time 1; axiom A : (); ~  ~ 4 refused spec syntax 7\n",
    "time 1; axiom A : all x : bool x; ~  ~ 4 refused spec syntax 10\n",
    "time 1; axiom A : all x (x); ~  ~ 4 refused spec syntax 8\n",
    "time 1; axiom A : all x : bool (x) & true; ~  ~ 1 false A 0\n",
    "time 1; axiom at : true; ~  ~ 4 refused spec syntax 4\n",
    "time 1; axiom A at : true; ~  ~ 4 refused spec syntax 6\n",
    "time 1; axiom A at -1 : true; ~  ~ 4 refused spec syntax 6\n",
    "time 1; axiom 1 : true; ~  ~ 4 refused spec syntax 4\n",
    "time 1; domain bool = 0..1; ~  ~ 4 refused spec syntax 4\n",
    "time 1; domain d = 0; ~  ~ 4 refused spec syntax 7\n",
    "time 1; domain d = 0..; ~  ~ 4 refused spec syntax 8\n",
    "time 1; domain d = ..1; ~  ~ 4 refused spec syntax 6\n",
    "time 1; domain d = {}; ~  ~ 4 refused spec syntax 7\n",
    "time 1; domain d = {red,}; ~  ~ 4 refused spec syntax 9\n",
    "time 1; domain d = {1}; ~  ~ 4 refused spec syntax 7\n",
    "time 1; domain d = -1..-1; ~  ~ 0 true\n",
    "time 1; domain d = - 1 .. 1; ~  ~ 0 true\n",
    "time 1; item p() : bool; ~  ~ 4 refused spec syntax 6\n",
    "time 1; item p(bool,) : bool; ~  ~ 4 refused spec syntax 8\n",
    "time 1; item p : ; ~  ~ 4 refused spec syntax 6\n",
    "time 1; item fixed : bool; ~  ~ 4 refused spec syntax 4\n",
    "time 1; input p : bool; axiom A : true; ~  ~ 4 refused history missing p\n",
    "time 1; output p : bool; ~  ~ 4 refused spec syntax 3\n",
    "time 1; goal G at 0 : true -> false; ~  ~ 0 true\n",
    "time 1; axiom A : true ? 1; ~  ~ 4 refused spec syntax 7\n",
    "time 1; axiom A : true ~  ~ 4 refused spec syntax 7\n",
    "time 1; axiom A : true; // end ~  ~ 0 true\n",
    "time 1; axiom A : true / ~  ~ 4 refused spec lex 23\n",
    "time 1; domain d = 0...1; ~  ~ 4 refused spec lex 22\n",
];

#[test]
fn the_grammar(rt: HostRuntime) {
    check_all(&rt, &THE_GRAMMAR);
}

const THE_GRAMMAR_OF_FORMULAS: [&str; 2] = [
    "!p = q(0) ~ 4 refused history missing p\n",
    "!p != p -> false ~ 4 refused history missing p\n",
];

#[test]
fn the_grammar_of_formulas(rt: HostRuntime) {
    check_formulas(&rt, &THE_GRAMMAR_OF_FORMULAS);
}
