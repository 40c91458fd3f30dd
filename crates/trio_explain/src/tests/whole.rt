//! All that is said of counts above their limits, of rows and values of histories, and of an axiom among others.
use super::is_said;
use std::process::Abort;

/// Specifications with a count above its limit, with all that is said.
const LIMITS: [(&str, &str); 3] = [
    (
        "time 1; domain d = 0..63; item a(d) : d; item b : bool;",
        "4 s: the number of values of all cells together is 4098, and the limit is 4096\n",
    ),
    (
        "time 1; axiom A : 1000000 * [1000000] + 1 = 1;",
        "4 s: the greatest number that a term can reach is 1000000000001, and the limit is 1000000000000\n",
    ),
    (
        "time 256; axiom A : Alw(Alw(true));",
        "4 s: the number of instances of formulas, over all values and instants, is 16843008, and the limit is 1000000\n",
    ),
];

/// A specification with so many items of one cell each.
fn items(rt: &(impl Abort + AllocGlobal), count: u32) -> String {
    let mut text = String::from_str(rt.alloc(), "time 1;").expect(rt, "memory");
    for number in 0..count {
        let item = format!(in rt.alloc(); " item i{number} : bool;").expect(rt, "memory");
        text.push_str(item.as_str()).expect(rt, "memory");
    }
    text
}

/// A specification in which so many negations of conjunctions stand in one another.
fn nested(rt: &(impl Abort + AllocGlobal), count: usize) -> String {
    let front = "p & !(".repeat(rt.alloc(), count).expect(rt, "memory");
    let end = ")".repeat(rt.alloc(), count).expect(rt, "memory");
    let text = format!(in rt.alloc(); "time 1; item p : bool; axiom A : {front}p{end};");
    text.expect(rt, "memory")
}

#[test]
fn counts_above_their_limits(rt: HostRuntime) {
    for row in &LIMITS {
        is_said(&rt, row.0, "", row.1);
    }
    is_said(
        &rt,
        items(&rt, 257).as_str(),
        "",
        "4 s: the number of items is 257, and the limit is 256\n",
    );
    is_said(
        &rt,
        nested(&rt, 51).as_str(),
        "",
        "4 s: the number of brackets that are open at once in the canonical text is 101, and the limit is 100\n",
    );
}

/// Specifications with histories that are refused, with all that is said: values behind `-`, items with arguments, rows that are not the first.
const ROWS: [(&str, &str, &str); 12] = [
    (
        "time 3; domain d = -1..2; item x : d;",
        "x: -1 -1 5",
        "4 h:1:10: `5` at instant 2 is no value of `x`, whose values are -1 to 2\nx: -1 -1 5\n         ^\n",
    ),
    (
        "time 3; domain d = -1..2; item x : d;",
        "x: -1 -2 -1",
        "4 h:1:7: `-2` at instant 1 is no value of `x`, whose values are -1 to 2\nx: -1 -2 -1\n      ^\n",
    ),
    (
        "time 3; domain d = -1..2; item x : d;",
        "x: -1 -1",
        "4 h:1:9: the row has 2 values, and time has 3 instants\nx: -1 -1\n        ^\n",
    ),
    (
        "time 3; domain d = -1..2; item x : d;",
        "x: -1 -1 -1 -1",
        "4 h:1:13: the row has 4 values, and time has 3 instants\nx: -1 -1 -1 -1\n            ^\n",
    ),
    (
        "time 2; domain d = -1..1; item q(d, bool) : d;",
        "q(-1,0): -1 2",
        "4 h:1:13: `2` at instant 1 is no value of `q`, whose values are -1 to 1\nq(-1,0): -1 2\n            ^\n",
    ),
    (
        "time 1; domain m = {red, green}; item y : m;",
        "y: blue",
        "4 h:1:4: `blue` at instant 0 is no value of `y`, whose values are `red`, `green`\ny: blue\n   ^\n",
    ),
    (
        "time 2; domain d = -1..1; item q(d, bool) : d;",
        "q(0): 0 0",
        "4 h:1:2: the item is declared as `q(d, bool)`, and these are no arguments of it\nq(0): 0 0\n ^\n",
    ),
    (
        "time 1; domain m = {red, green}; item x(m) : bool;",
        "x(green): 1\n\nx(red): 1\nx(green): 1",
        "4 h:4:1: this row stands already in line 1\nx(green): 1\n^\n",
    ),
    (
        "time 1; item p : bool; domain m = {red, green}; item x(m) : bool;",
        "p: 0\nx(red): 1",
        "4 h: no line is the row of `x(green)`\n",
    ),
    (
        "time 3; item p : bool; item q : bool;",
        "q: 0 0 ?\np: 0 0 0",
        "4 h: the value of `q` at instant 2 is not known, and `check` needs every value\n",
    ),
    (
        "time 3; item p : bool;",
        "p 0 0 0",
        "4 h:1:3: the number `0` cannot stand here; a row is an item, arguments in `(` and `)` if it has any, `:`, and a value for each instant\np 0 0 0\n  ^\n",
    ),
    (
        "time 3; item p : bool;",
        "// none\nq: 0 0 0",
        "4 h:2:1: the specification has no item `q`\nq: 0 0 0\n^\n",
    ),
];

#[test]
fn rows_and_values(rt: HostRuntime) {
    for row in &ROWS {
        is_said(&rt, row.0, row.1, row.2);
    }
}

/// The axiom that is named stands behind another one and a goal, and is the first false one by its number, not by its instant.
#[test]
fn an_axiom_among_others(rt: HostRuntime) {
    is_said(
        &rt,
        "time 3; item p : bool;\naxiom A : true;\ngoal G : false;\naxiom B at 2 : p;\naxiom C : false;",
        "p: 1 1 0",
        "1 s:4:7: axiom `B` is false at instant 2\naxiom B at 2 : p;\n      ^\n\n   0 1 2\n       v\np ####__\n",
    );
}
