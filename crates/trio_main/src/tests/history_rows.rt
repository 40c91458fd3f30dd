//! Worked rows on histories: what a row shows, the history, and the answer of `check` over the specification above it.
use super::{check_row, cut};
use std::process::Abort;

/// Asserts the answer in the last column for the specification and the history in the middle one.
fn check_rows(rt: &(impl Abort + AllocGlobal), spec: &str, rows: &[&str]) {
    for row in rows {
        let (_, history_and_answer) = cut(row);
        let row = format!(in rt.alloc(); "{spec} ~ {history_and_answer}").expect(rt, "memory");
        check_row(rt, row.as_str());
    }
}

const MIXED: &str =
    "time 2; domain n = -1..1; domain c = {red, blue}; item p : bool; item q(c) : n; input r(bool) : c; axiom A : p -> Futr(p, 1);";

const MIXED_ROWS: [&str; 79] = [
    "whole, in order ~ p: 0 1\nq(red): -1 0\nq(blue): 1 1\nr(0): red red\nr(1): blue red\n ~ 1 false A 1\n",
    "whole, rows in another order ~ r(1): blue red\nr(0): red red\nq(blue): 1 1\nq(red): -1 0\np: 0 1\n ~ 1 false A 1\n",
    "the axiom is false at the instant before the last ~ p: 1 0\nq(red): -1 0\nq(blue): 1 1\nr(0): red red\nr(1): blue red\n ~ 1 false A 0\n",
    "blank lines and comments ~ \n\n// all\np: 0 1\nq(red): -1 0\nq(blue): 1 1\nr(0): red red\nr(1): blue red\n\n// end ~ 1 false A 1\n",
    "no line end at the end ~ p: 0 1\nq(red): -1 0\nq(blue): 1 1\nr(0): red red\nr(1): blue red ~ 1 false A 1\n",
    "carriage returns ~ p: 0 1\r\nq(red): -1 0\r\nq(blue): 1 1\r\nr(0): red red\r\nr(1): blue red\r\n ~ 1 false A 1\n",
    "tabs and blanks ~ p:  \t 0  \t 1\nq(red):  \t -1  \t 0\nq(blue):  \t 1  \t 1\nr(0):  \t red  \t red\nr(1):  \t blue  \t red\n ~ 1 false A 1\n",
    "blanks within a name's arguments ~ p: 0 1\nq ( red ) : -1 0\nq(blue): 1 1\nr(0): red red\nr(1): blue red\n ~ 1 false A 1\n",
    "bool values as words ~ p: false true\nq(red): -1 0\nq(blue): 1 1\nr(0): red red\nr(1): blue red\n ~ 1 false A 1\n",
    "bool arguments as words ~ p: 0 1\nq(red): -1 0\nq(blue): 1 1\nr(false): red red\nr(true): blue red\n ~ 1 false A 1\n",
    "bool arguments as words, twice with number ~ p: 0 1\nq(red): -1 0\nq(blue): 1 1\nr(0): red red\nr(1): blue red\nr(true): red red\n ~ 4 refused history twicerow 6\n",
    "minus zero ~ p: 0 1\nq(red): -1 -0\nq(blue): 1 1\nr(0): red red\nr(1): blue red\n ~ 1 false A 1\n",
    "leading zeros ~ p: 0 1\nq(red): -1 0\nq(blue): 001 0000001\nr(0): red red\nr(1): blue red\n ~ 1 false A 1\n",
    "leading zeros behind a minus ~ p: 0 1\nq(red): -001 0\nq(blue): 1 1\nr(0): red red\nr(1): blue red\n ~ 1 false A 1\n",
    "bool with minus zero ~ p: -0 1\nq(red): -1 0\nq(blue): 1 1\nr(0): red red\nr(1): blue red\n ~ 1 false A 1\n",
    "bool argument with minus zero ~ p: 0 1\nq(red): -1 0\nq(blue): 1 1\nr(-0): red red\nr(1): blue red\n ~ 1 false A 1\n",
    "bool with leading zeros ~ p: 00 01\nq(red): -1 0\nq(blue): 1 1\nr(0): red red\nr(1): blue red\n ~ 1 false A 1\n",
    "an unknown value ~ p: 0 1\nq(red): -1 0\nq(blue): 1 1\nr(0): red red\nr(1): blue ?\n ~ 4 unknown r(1) 1\n",
    "the first of several unknown values ~ p: 0 1\nq(red): 1 ?\nq(blue): ? ?\nr(0): red red\nr(1): ? ?\n ~ 4 unknown q(red) 1\n",
    "unknown at the first cell ~ p: ? ?\nq(red): -1 0\nq(blue): 1 1\nr(0): red red\nr(1): blue red\n ~ 4 unknown p 0\n",
    "lex: a byte that begins no token ~ p: 0 1\nq(red): -1 0\nq(blue): 1 #\nr(0): red red\nr(1): blue red\n ~ 4 refused history lex 31\n",
    "lex behind a syntax fault ~ p 0 1\n$ ~ 4 refused history lex 6\n",
    "lex before a syntax fault of an earlier line ~ p\nq(red): 1 1 @\n ~ 4 refused history lex 14\n",
    "lex at the first byte ~ \x7fp: 0 1\nq(red): -1 0\nq(blue): 1 1\nr(0): red red\nr(1): blue red\n ~ 4 refused history lex 0\n",
    "syntax: no colon ~ p: 0 1\nq(red) -1 0\nq(blue): 1 1\nr(0): red red\nr(1): blue red\n ~ 4 refused history syntax 2\n",
    "syntax: no name ~ p: 0 1\n: -1 0\nq(blue): 1 1\nr(0): red red\nr(1): blue red\n ~ 4 refused history syntax 2\n",
    "syntax: a number for a name ~ p: 0 1\n1: -1 0\nq(blue): 1 1\nr(0): red red\nr(1): blue red\n ~ 4 refused history syntax 2\n",
    "syntax: a reserved word for a name ~ p: 0 1\ntrue: 0 1\nq(blue): 1 1\nr(0): red red\nr(1): blue red\n ~ 4 refused history syntax 2\n",
    "syntax: empty brackets ~ p(): 0 1\nq(red): -1 0\nq(blue): 1 1\nr(0): red red\nr(1): blue red\n ~ 4 refused history syntax 1\n",
    "syntax: a comma at the end of arguments ~ p: 0 1\nq(red,): 1 1\nq(blue): 1 1\nr(0): red red\nr(1): blue red\n ~ 4 refused history syntax 2\n",
    "syntax: brackets not closed ~ p: 0 1\nq(red: 1 1\nq(blue): 1 1\nr(0): red red\nr(1): blue red\n ~ 4 refused history syntax 2\n",
    "syntax: unknown as an argument ~ p: 0 1\nq(?): 1 1\nq(blue): 1 1\nr(0): red red\nr(1): blue red\n ~ 4 refused history syntax 2\n",
    "syntax: commas between values ~ p: 0, 1\nq(red): -1 0\nq(blue): 1 1\nr(0): red red\nr(1): blue red\n ~ 4 refused history syntax 1\n",
    "syntax: a minus alone ~ p: 0 1\nq(red): - 1 -\nq(blue): 1 1\nr(0): red red\nr(1): blue red\n ~ 4 refused history syntax 2\n",
    "syntax: a minus before a word ~ p: 0 1\nq(red): -1 0\nq(blue): 1 1\nr(0): -red red\nr(1): blue red\n ~ 4 refused history syntax 4\n",
    "syntax: two minus signs ~ p: 0 1\nq(red): --1 0\nq(blue): 1 1\nr(0): red red\nr(1): blue red\n ~ 4 refused history syntax 2\n",
    "syntax: a line that goes on ~ p:\n0 1\nq(red): -1 0\nq(blue): 1 1\nr(0): red red\nr(1): blue red\n ~ 4 refused history length 1\n",
    "syntax before an unknown row of the same line ~ p: 0 1\nz(red) -1 0\nq(blue): 1 1\nr(0): red red\nr(1): blue red\n ~ 4 refused history syntax 2\n",
    "syntax before a length of the same line ~ p: 0 1\nq(red): -1 0 1 ;\nq(blue): 1 1\nr(0): red red\nr(1): blue red\n ~ 4 refused history syntax 2\n",
    "unknown row: an item that is not declared ~ z: 0 1\nq(red): -1 0\nq(blue): 1 1\nr(0): red red\nr(1): blue red\n ~ 4 refused history unknownrow 1\n",
    "unknown row: an argument too few ~ p: 0 1\nq: 1 1\nq(blue): 1 1\nr(0): red red\nr(1): blue red\n ~ 4 refused history unknownrow 2\n",
    "unknown row: an argument too many ~ p: 0 1\nq(red,red): 1 1\nq(blue): 1 1\nr(0): red red\nr(1): blue red\n ~ 4 refused history unknownrow 2\n",
    "unknown row: an argument for an item without ~ p(0): 0 1\nq(red): -1 0\nq(blue): 1 1\nr(0): red red\nr(1): blue red\n ~ 4 refused history unknownrow 1\n",
    "unknown row: a word of no domain ~ p: 0 1\nq(green): 1 1\nq(blue): 1 1\nr(0): red red\nr(1): blue red\n ~ 4 refused history unknownrow 2\n",
    "unknown row: a number for a word ~ p: 0 1\nq(0): 1 1\nq(blue): 1 1\nr(0): red red\nr(1): blue red\n ~ 4 refused history unknownrow 2\n",
    "unknown row: a word for a bool ~ p: 0 1\nq(red): -1 0\nq(blue): 1 1\nr(red): red red\nr(1): blue red\n ~ 4 refused history unknownrow 4\n",
    "unknown row: a bool out of range ~ p: 0 1\nq(red): -1 0\nq(blue): 1 1\nr(2): red red\nr(1): blue red\n ~ 4 refused history unknownrow 4\n",
    "unknown row before a length of the same line ~ z: 0 1 1\nq(red): -1 0\nq(blue): 1 1\nr(0): red red\nr(1): blue red\n ~ 4 refused history unknownrow 1\n",
    "unknown row before a value of the same line ~ z: 7 red\nq(red): -1 0\nq(blue): 1 1\nr(0): red red\nr(1): blue red\n ~ 4 refused history unknownrow 1\n",
    "unknown row: the name of a domain ~ c: red red\nq(red): -1 0\nq(blue): 1 1\nr(0): red red\nr(1): blue red\n ~ 4 refused history unknownrow 1\n",
    "twice: a row on two lines ~ p: 0 1\np: 0 1\nq(blue): 1 1\nr(0): red red\nr(1): blue red\n ~ 4 refused history twicerow 2\n",
    "twice before a length of the same line ~ p: 0 1\nq(red): -1 0\nq(blue): 1 1\nr(0): red red\nr(1): blue red\np: 0\n ~ 4 refused history twicerow 6\n",
    "twice before a value of the same line ~ p: 0 1\nq(red): -1 0\nq(blue): 1 1\nr(0): red red\nr(1): blue red\np: 0 9\n ~ 4 refused history twicerow 6\n",
    "twice, though both lines say the same ~ p: 0 1\nq(red): -1 0\nq(blue): 1 1\nr(0): red red\nr(1): blue red\nq(blue): 1 1\n ~ 4 refused history twicerow 6\n",
    "length: too few ~ p: 0 1\nq(red): -1 0\nq(blue): 1\nr(0): red red\nr(1): blue red\n ~ 4 refused history length 3\n",
    "length: too many ~ p: 0 1\nq(red): -1 0\nq(blue): 1 1 1\nr(0): red red\nr(1): blue red\n ~ 4 refused history length 3\n",
    "length: none ~ p:\nq(red): -1 0\nq(blue): 1 1\nr(0): red red\nr(1): blue red\n ~ 4 refused history length 1\n",
    "length before a value of the same line ~ p: 0 1\nq(red): -1 0\nq(blue): 9 9 9\nr(0): red red\nr(1): blue red\n ~ 4 refused history length 3\n",
    "value: above the range ~ p: 0 1\nq(red): -1 0\nq(blue): 1 2\nr(0): red red\nr(1): blue red\n ~ 4 refused history value 3 2\n",
    "value: below the range ~ p: 0 1\nq(red): -1 0\nq(blue): -2 2\nr(0): red red\nr(1): blue red\n ~ 4 refused history value 3 1\n",
    "value: a number for a word ~ p: 0 1\nq(red): -1 0\nq(blue): 1 1\nr(0): red 0\nr(1): blue red\n ~ 4 refused history value 4 2\n",
    "value: a word for a number ~ p: 0 1\nq(red): -1 0\nq(blue): red 1\nr(0): red red\nr(1): blue red\n ~ 4 refused history value 3 1\n",
    "value: a word of no domain ~ p: 0 1\nq(red): -1 0\nq(blue): 1 1\nr(0): green red\nr(1): blue red\n ~ 4 refused history value 4 1\n",
    "value: true for a number ~ p: 0 1\nq(red): -1 0\nq(blue): true 1\nr(0): red red\nr(1): blue red\n ~ 4 refused history value 3 1\n",
    "value: a bool out of range ~ p: 0 2\nq(red): -1 0\nq(blue): 1 1\nr(0): red red\nr(1): blue red\n ~ 4 refused history value 1 2\n",
    "value: minus one for a bool ~ p: -1 1\nq(red): -1 0\nq(blue): 1 1\nr(0): red red\nr(1): blue red\n ~ 4 refused history value 1 1\n",
    "value: a word for a bool ~ p: 0 red\nq(red): -1 0\nq(blue): 1 1\nr(0): red red\nr(1): blue red\n ~ 4 refused history value 1 2\n",
    "value: far above the range ~ p: 0 1\nq(red): -1 0\nq(blue): 4294967297 1\nr(0): red red\nr(1): blue red\n ~ 4 refused history value 3 1\n",
    "value: above what 64 bits hold ~ p: 0 1\nq(red): -1 0\nq(blue): 1 99999999999999999999999999\nr(0): red red\nr(1): blue red\n ~ 4 refused history value 3 2\n",
    "two faulty lines: the first reports, though its fault is a later one ~ p: 0 1\nq(red): -1 9\nq(blue) 1 1\nr(0): red red\nr(1): blue red\n ~ 4 refused history value 2 2\n",
    "two faulty lines: length before an unknown row ~ p: 0 1\nq(red): -1\nz: 0 1\nr(0): red red\nr(1): blue red\n ~ 4 refused history length 2\n",
    "a faulty line before a missing row ~ q(red): -1 0\nq(blue): 1 2\nr(0): red red\nr(1): blue red\n ~ 4 refused history value 2 2\n",
    "missing: the first row ~ q(red): -1 0\nq(blue): 1 1\nr(0): red red\nr(1): blue red\n ~ 4 refused history missing p\n",
    "missing: a row with an argument ~ p: 0 1\nq(red): -1 0\nr(0): red red\nr(1): blue red\n ~ 4 refused history missing q(blue)\n",
    "missing: the first of several ~ p: 0 1\nq(blue): 1 1\nr(0): red red\n ~ 4 refused history missing q(red)\n",
    "missing: a row of a bool argument ~ p: 0 1\nq(red): -1 0\nq(blue): 1 1\nr(0): red red\n ~ 4 refused history missing r(1)\n",
    "missing before unknown values ~ p: ? 1\nq(red): -1 0\nq(blue): 1 1\nr(0): red red\n ~ 4 refused history missing r(1)\n",
    "missing: every row ~  ~ 4 refused history missing p\n",
    "missing: comments alone ~ // nothing\n ~ 4 refused history missing p\n",
];

const NO_ITEMS: &str =
    "time 3; axiom A : Dist(true, 1) | !Dist(true, 1); axiom B at 1 : Dist(true, -1);";

const NO_ITEMS_ROWS: [&str; 5] = [
    "no items: the empty text ~  ~ 0 true\n",
    "no items: blanks and a comment ~  \n\t// none\n ~ 0 true\n",
    "no items: a line is of no row ~ p: 0 1 0\n ~ 4 refused history unknownrow 1\n",
    "no items: lex ~ \\ ~ 4 refused history lex 0\n",
    "no items: syntax ~ ;\n ~ 4 refused history syntax 1\n",
];

const PAIRS: &str =
    "time 1; domain d = 3..4; domain w = {no, yes}; item s(d, w) : d; axiom A : s(3, no) < s(4, yes);";

const PAIRS_ROWS: [&str; 10] = [
    "two arguments ~ s(3,no): 3\ns(3,yes): 3\ns(4,no): 4\ns(4,yes): 4\n ~ 0 true\n",
    "two arguments in another order ~ s(4,no): 4\ns(3,no): 3\ns(4,yes): 4\ns(3,yes): 3\n ~ 0 true\n",
    "two arguments: false ~ s(3,no): 4\ns(3,yes): 3\ns(4,no): 4\ns(4,yes): 4\n ~ 1 false A 0\n",
    "arguments exchanged ~ s(no,3): 3\ns(3,yes): 3\ns(4,no): 4\ns(4,yes): 4\n ~ 4 refused history unknownrow 1\n",
    "an argument below its range ~ s(2,no): 3\ns(3,yes): 3\ns(4,no): 4\ns(4,yes): 4\n ~ 4 refused history unknownrow 1\n",
    "an argument above its range ~ s(5,no): 3\ns(3,yes): 3\ns(4,no): 4\ns(4,yes): 4\n ~ 4 refused history unknownrow 1\n",
    "an argument of minus three ~ s(-3,no): 3\ns(3,yes): 3\ns(4,no): 4\ns(4,yes): 4\n ~ 4 refused history unknownrow 1\n",
    "an argument with leading zeros, twice ~ s(3,no): 3\ns(3,yes): 3\ns(4,no): 4\ns(4,yes): 4\ns(003, no): 3\n ~ 4 refused history twicerow 5\n",
    "missing between others ~ s(3,no): 3\ns(3,yes): 3\ns(4,yes): 4\n ~ 4 refused history missing s(4,no)\n",
    "unknown between others ~ s(3,no): 3\ns(3,yes): 3\ns(4,no): ?\ns(4,yes): 4\n ~ 4 unknown s(4,no) 0\n",
];

#[test]
fn rows_with_an_argument(rt: HostRuntime) {
    check_rows(&rt, MIXED, &MIXED_ROWS);
}

#[test]
fn no_rows(rt: HostRuntime) {
    check_rows(&rt, NO_ITEMS, &NO_ITEMS_ROWS);
}

#[test]
fn rows_with_two_arguments(rt: HostRuntime) {
    check_rows(&rt, PAIRS, &PAIRS_ROWS);
}
