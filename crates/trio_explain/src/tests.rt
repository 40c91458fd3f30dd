//! What is said of texts, with the line and the column that a person points at, over shelves and sinks in memory.
mod classes;
mod excerpts;
mod outside;
mod whole;

use super::*;
use std::process::Abort;
use trio_io::{Counts, Files, MemShelf, MemSink, Shelf};

/// The words of a line, split at blanks; `_` stands for an empty word.
fn words_in(rt: &(impl Abort + AllocGlobal), line: &str) -> Vec<String> {
    let mut words = Vec::new(rt.alloc());
    for word in line.split_whitespace() {
        let word = String::from_str(rt.alloc(), if word == "_" { "" } else { word });
        words.push(word.expect(rt, "memory")).expect(rt, "memory");
    }
    words
}

/// What is said of a line of words over this shelf into this sink, behind the status.
fn told<F: Shelf>(
    rt: &(impl Abort + AllocGlobal),
    line: &str,
    shelf: &mut F,
    mut out: MemSink,
) -> Vec<u8> {
    let words = words_in(rt, line);
    let status = explained(rt.alloc(), words.as_slice(), shelf, &mut out).number();
    let text = format!(in rt.alloc(); "{status} ").expect(rt, "memory");
    let mut text = text.into_bytes();
    text.extend_from_slice(out.written()).expect(rt, "memory");
    text
}

/// A sink with ample room.
fn ample(rt: &(impl Abort + AllocGlobal)) -> MemSink {
    MemSink::new(rt.alloc(), 65536, 65536, Counts::new(rt.alloc())).expect(rt, "memory")
}

/// What is said of a line of words over these files, of which this fetch fails, behind the status.
fn answered(rt: &(impl Abort + AllocGlobal), line: &str, files: Files, failing: &[u64]) -> Vec<u8> {
    let failing = Counts::from_slice(rt.alloc(), failing).expect(rt, "memory");
    let mut shelf = MemShelf::new(rt.alloc(), files, failing).expect(rt, "memory");
    told(rt, line, &mut shelf, ample(rt))
}

/// Files of these names and texts.
fn files_of(rt: &(impl Abort + AllocGlobal), rows: &[(&str, &str)]) -> Files {
    let mut files = Files::new(rt.alloc());
    for (name, text) in rows {
        files.push(name, text.as_bytes()).expect(rt, "memory");
    }
    files
}

/// What is said of a specification in the file `s` and a history in the file `h`, behind the status.
fn said(rt: &(impl Abort + AllocGlobal), spec: &str, history: &str) -> Vec<u8> {
    let files = files_of(rt, &[("s", spec), ("h", history)]);
    answered(rt, "check s h", files, &[])
}

/// A specification, a refused one, and histories with two, one and no unknown values, a wrong value and no row.
const FEW_FILES: [(&str, &str); 7] = [
    ("spec", "time 3; item p : bool;"),
    ("broken", "time 3; item p bool;"),
    ("two", "p: ? 1 ?"),
    ("one", "p: 0 ? 1"),
    ("known", "p: 0 1 0"),
    ("wrong", "p: 0 2 1"),
    ("empty", ""),
];

fn few_files(rt: &(impl Abort + AllocGlobal)) -> Files {
    files_of(rt, &FEW_FILES)
}

/// Asserts that what is said begins with these words.
fn begins(rt: &(impl Abort + AllocGlobal), spec: &str, history: &str, want: &str) {
    let text = said(rt, spec, history);
    let front = text.as_slice().split_at(want.len().min(text.len())).0;
    assert_eq!(rt; front, want.as_bytes(), "{spec}");
}

/// Asserts the place and the sentence for each text of a specification.
fn specs_are_refused(rt: &(impl Abort + AllocGlobal), rows: &[(&str, &str)]) {
    for row in rows {
        let want = format!(in rt.alloc(); "4 s:{}", row.1).expect(rt, "memory");
        begins(rt, row.0, "", want.as_str());
    }
}

/// Asserts all that is said of a specification and a history.
fn is_said(rt: &(impl Abort + AllocGlobal), spec: &str, history: &str, want: &str) {
    let text = said(rt, spec, history);
    is_text(rt, text.as_slice(), want, spec);
}

/// Asserts that a text is the one of a row.
fn is_text(rt: &impl Abort, text: &[u8], want: &str, row: &str) {
    assert_eq!(rt; text, want.as_bytes(), "{row}");
}

/// Specifications that are refused early, with the place and the beginning of the sentence.
const LEXICAL_AND_EARLY: [(&str, &str); 13] = [
    (
        "time 3;\nitem p : bool;\naxiom A : p @ q;",
        "3:13: `@` begins no token",
    ),
    (
        "time 3; é",
        "1:9: the byte 195 begins no token outside a comment",
    ),
    (
        "// grün →\ntime 3; item p bool;",
        "2:16: the reserved word `bool` cannot stand here",
    ),
    (
        "time 3; // é\n// éé\nitem p : ?;",
        "3:10: `?` cannot stand here",
    ),
    (
        "time 3;\r\nitem p : bool;\r\naxiom A : q;\r\n",
        "3:11: `q` is not declared before this place",
    ),
    (
        "time 3;\n\titem p : bool;\n\taxiom A : q;",
        "3:12: `q` is not declared before this place",
    ),
    (
        "\t\ttime\t0;",
        "1:8: time has 1 to 256 instants, and this is `0`",
    ),
    (
        "time 3; item p : bool",
        "1:22: the text ends here, and its last statement is not complete",
    ),
    ("time 3; item p : bool\n\n", "1:22: the text ends here"),
    ("time 3;\r\nitem p\r\n// last", "2:7: the text ends here"),
    ("", "1:1: the text ends here"),
    ("// é", "1:1: the text ends here"),
    (
        "time 1; axiom A : (((((((((((((((((((((((((((((((((((((((((((((((((((((((((((((((((((((((((((((((((((((((((((((((((((((",
        "1:119: more than 100 brackets `(` and `[` are open here",
    ),
];

#[test]
fn lexical_and_early_faults(rt: HostRuntime) {
    specs_are_refused(&rt, &LEXICAL_AND_EARLY);
}

/// Specifications with a fault of names or kinds.
const NAMES_AND_KINDS: [(&str, &str); 13] = [
    (
        "time 3;\nitem p : bool;\naxiom A : p p;",
        "3:13: the name `p` cannot stand here",
    ),
    ("time 3 3;", "1:8: the number `3` cannot stand here"),
    ("time 3;;", "1:8: `;` cannot stand here"),
    (
        "time 1;\nitem x : d;\ndomain d = 0..1;",
        "2:10: `d` is not declared before this place, but behind it, at line 3, column 8",
    ),
    (
        "time 1; item p : bool; item p : bool;",
        "1:29: `p` is declared twice; it is the item of line 1, column 14",
    ),
    (
        "time 1;\naxiom A : all x : bool (ex x : bool (x));",
        "2:28: `x` is declared twice; it is the variable of line 2, column 15",
    ),
    (
        "time 1;\ndomain d = {red, green};\nitem red : bool;",
        "3:6: `red` is declared twice; it is the word of line 2, column 13",
    ),
    (
        "time 1;\naxiom A : all A : bool (A);",
        "2:15: `A` is declared twice; it is the axiom of line 2, column 7",
    ),
    (
        "time 3; item p : bool; axiom A : p < true;",
        "1:36: `<` has `bool` to its left and `bool` to its right; both sides are to be numbers",
    ),
    (
        "time 1; item p : bool; axiom A : p = 1;",
        "1:36: `=` has `bool` to its left and a number to its right; both sides are to be of one kind",
    ),
    (
        "time 1; item p : bool; axiom A : 1;",
        "1:34: a term alone is to be `bool`, and this is a number",
    ),
    (
        "time 1;\nitem p : bool;\nitem q : p;",
        "3:10: `p` is an item, and a domain is to stand here",
    ),
    (
        "time 1;\ndomain d = 0..1;\naxiom A : d = 1;",
        "3:11: `d` is a domain, and has no value",
    ),
];

#[test]
fn faults_of_names_and_kinds(rt: HostRuntime) {
    specs_are_refused(&rt, &NAMES_AND_KINDS);
}

/// Specifications with a fault of arguments, of terms, or of a range.
const TERMS_AND_RANGES: [(&str, &str); 15] = [
    (
        "time 1;\ndomain d = 0..1;\nitem q(d, d) : bool;\naxiom A : q(1);",
        "4:11: `q` is declared with 2 arguments, and has 1 here",
    ),
    (
        "time 1;\ndomain d = {a, b};\naxiom A : a(1);",
        "3:11: `a` is no item, and takes no arguments",
    ),
    (
        "time 1;\ndomain m = {red, green};\nitem q(m) : bool;\naxiom A : q(1);",
        "4:13: argument 1 of `q` is to be a word of `m`, and this is a number",
    ),
    (
        "time 1;\ndomain m = {red, green};\nitem q(m, bool) : bool;\naxiom A : all x : m (q(x, x));",
        "4:27: argument 2 of `q` is to be `bool`, and this is a word of `m`",
    ),
    (
        "time 1;\nitem p : bool;\naxiom A : p + 1 = 2;",
        "3:11: a part of a sum or product is to be a number, and this is `bool`",
    ),
    (
        "time 1;\nitem p : bool;\naxiom A : 2 * [true] = 2;",
        "3:15: a part of a sum or product is to be a number, and this is `bool`",
    ),
    (
        "time 1;\nitem p : bool;\naxiom A : Futr(p, true);",
        "3:19: a distance is to be a number, and this is `bool`",
    ),
    (
        "time 1;\ndomain d = 0..1;\nitem x : d;\naxiom A : Futr(true, x);",
        "4:22: `x` is an item, and a distance reads none",
    ),
    (
        "time 1;\ndomain d = 0..1;\nitem x : d;\nitem q(d) : bool;\naxiom A : q(1 + x);",
        "5:17: `x` is an item, and argument 1 of `q` reads none",
    ),
    (
        "time 1; domain d = 0..64;",
        "1:23: the range that ends at `64` is empty or has more than 64 values",
    ),
    (
        "time 1; domain d = 1..-1;",
        "1:24: the range that ends at `-1` is empty or has more than 64 values",
    ),
    (
        "time 3;\naxiom A at 3 : true;",
        "2:12: the instants are those below `3`, and this is `3`",
    ),
    (
        "time 1;\naxiom A : 1000001 = 1;",
        "2:11: the greatest number is 1000000, and this is `1000001`",
    ),
    (
        "time 1;\nitem q(bool, bool, bool, bool, bool) : bool;",
        "2:32: an item has at most 4 arguments, and this is one more",
    ),
    (
        "time 1;\ndomain d = {w0, w1, w2, w3, w4, w5, w6, w7, w8, w9, w10, w11, w12, w13, w14, w15, w16, w17, w18, w19, w20, w21, w22, w23, w24, w25, w26, w27, w28, w29, w30, w31, w32, w33, w34, w35, w36, w37, w38, w39, w40, w41, w42, w43, w44, w45, w46, w47, w48, w49, w50, w51, w52, w53, w54, w55, w56, w57, w58, w59, w60, w61, w62, w63, w64};",
        "2:323: a domain has at most 64 words, and this is one more",
    ),
];

#[test]
fn faults_of_terms_and_ranges(rt: HostRuntime) {
    specs_are_refused(&rt, &TERMS_AND_RANGES);
}

/// Histories of one item over three instants, with what is said of them.
const HISTORIES: [(&str, &str); 15] = [
    ("p: 0 @ 0", "h:1:6: `@` begins no token"),
    ("p 0 0 0", "h:1:3: the number `0` cannot stand here"),
    (
        "\n\np: 0 0 item",
        "h:3:8: the reserved word `item` cannot stand here",
    ),
    ("p", "h:1:2: the line ends too early"),
    ("p: 0 - // é\n", "h:1:7: the line ends too early"),
    ("q: 0 0 0", "h:1:1: the specification has no item `q`"),
    (
        "p(1): 0 0 0",
        "h:1:2: the item is declared as `p`, and these are no arguments of it",
    ),
    (
        "p: 0 0 0\r\np: 0 0 0\r\n",
        "h:2:1: this row stands already in line 1",
    ),
    (
        "p: 0 1",
        "h:1:7: the row has 2 values, and time has 3 instants",
    ),
    (
        "p: 0 1 ? 1\n",
        "h:1:10: the row has 4 values, and time has 3 instants",
    ),
    ("p:", "h:1:3: the row has 0 values, and time has 3 instants"),
    (
        "p: 0 2 1",
        "h:1:6: `2` at instant 1 is no value of `p`, whose values are 0, 1, `false` and `true`",
    ),
    (
        "// é\r\n\tp: 0 -2 0",
        "h:2:7: `-2` at instant 1 is no value of `p`",
    ),
    ("", "h: no line is the row of `p`\n"),
    (
        "p: 0 ? 1",
        "h: the value of `p` at instant 1 is not known, and `check` needs every value\n",
    ),
];

#[test]
fn faults_of_histories(rt: HostRuntime) {
    for row in &HISTORIES {
        let want = format!(in rt.alloc(); "4 {}", row.1).expect(&rt, "memory");
        begins(&rt, "time 3; item p : bool;", row.0, want.as_str());
    }
}

#[test]
fn whole_answers(rt: HostRuntime) {
    is_said(
        &rt,
        "time 3;\n\taxiom A : q;\r\n",
        "",
        "4 s:2:12: `q` is not declared before this place\n\taxiom A : q;\n\t          ^\n",
    );
    is_said(&rt, "time 3; axiom A : true;", "", "0 s is true in h\n");
    is_said(
        &rt,
        "time 3; item p : bool; item q : bool; axiom A : q;",
        "q: 1 0 1\np: 1 1 0\n",
        "1 s:1:45: axiom `A` is false at instant 1\ntime 3; item p : bool; item q : bool; axiom A : q;\n                                            ^\n\n   0 1 2\n     v\nq ##__##\nitems that it does not read:\np ####__\n",
    );
    is_said(
        &rt,
        "time 2; domain d = -1..2; domain m = {red, green}; item x(m) : d; item y : m; axiom A : y = red & x(red) < 2;",
        "y: red green\nx(red): -1 2\nx(green): 0 0\n",
        "1 s:1:85: axiom `A` is false at instant 1\n; domain m = {red, green}; item x(m) : d; item y : m; axiom A : y = red & x(red) < 2;\n                                                            ^\n\n              0     1\n                    v\nx(red)       -1     2\nx(green)      0     0\ny           red green\n",
    );
    is_said(
        &rt,
        "time 200; item p : bool; axiom A : !p;",
        "p: 0 0 0 0 0 0 0 0 0 0 0 0 0 0 0 0 0 0 0 0 0 0 0 0 0 0 0 0 0 0 0 0 0 0 0 0 0 0 0 0 0 0 0 0 0 0 0 0 0 0 0 0 0 0 0 0 0 0 0 0 0 0 0 0 0 0 0 0 0 0 0 0 0 0 0 0 0 0 0 0 0 0 0 0 0 0 0 0 0 0 0 0 0 0 0 0 0 0 0 0 0 0 0 0 0 0 0 0 0 0 0 0 0 0 0 0 0 0 0 0 0 0 0 0 0 0 0 0 0 0 0 0 0 0 0 0 0 0 0 0 0 0 0 0 0 0 0 0 0 0 1 0 0 0 0 0 0 0 0 0 0 0 0 0 0 0 0 0 0 0 0 0 0 0 0 0 0 0 0 0 0 0 0 0 0 0 0 0 0 0 0 0 0 0 0 0 0 0 0 0",
        "1 s:1:32: axiom `A` is false at instant 150\ntime 200; item p : bool; axiom A : !p;\n                               ^\n\ninstants 138 to 161 of 200\n   138 139 140 141 142 143 144 145 146 147 148 149 150 151 152 153 154 155 156 157 158 159 160 161\n                                                     v\np ________________________________________________####____________________________________________\n",
    );
    is_said(
        &rt,
        "time 205; item a : bool; item b : bool; item c : bool; item d : bool; item e : bool;",
        "",
        "4 s: the number of cells, one for each item, tuple of arguments and instant, is 1025, and the limit is 1024\n",
    );
}

/// Asserts what is said of each line of words over the few files.
fn are_answered(rt: &(impl Abort + AllocGlobal), rows: &[(&str, &str)]) {
    for row in rows {
        let text = answered(rt, row.0, few_files(rt), &[]);
        is_text(rt, text.as_slice(), row.1, row.0);
    }
}

const WRONG: &str =
    "4 wrong:1:6: `2` at instant 1 is no value of `p`, whose values are 0, 1, `false` and `true`\np: 0 2 1\n     ^\n";

const BROKEN: &str =
    "4 broken:1:16: the reserved word `bool` cannot stand here\ntime 3; item p bool;\n               ^\n";

const ABSENT: &str = "5 absent: there is no such file, or it cannot be read\n";

/// Words with files of which one is refused or absent.
const REFUSED_FILES: [(&str, &str); 8] = [
    ("check spec wrong", WRONG),
    ("complete spec wrong", WRONG),
    ("check broken absent", BROKEN),
    ("complete broken absent", BROKEN),
    ("check absent broken", ABSENT),
    ("complete absent broken", ABSENT),
    ("complete spec absent", ABSENT),
    (
        "complete spec empty",
        "4 empty: no line is the row of `p`\n",
    ),
];

#[test]
fn answers_to_refused_files(rt: HostRuntime) {
    are_answered(&rt, &REFUSED_FILES);
}

/// Words with files that can be read.
const FILES_THAT_READ: [(&str, &str); 4] = [
    (
        "complete spec two",
        "0 spec and two can be read; 2 of 3 values are not known, and `trio complete` lists the histories that fill them in and satisfy the specification\n",
    ),
    (
        "complete spec one",
        "0 spec and one can be read; 1 of 3 values is not known, and `trio complete` lists the histories that fill it in and satisfy the specification\n",
    ),
    (
        "complete spec known",
        "0 spec and known can be read; every value is known, and `trio complete` lists the history if it satisfies the specification\n",
    ),
    ("check spec known", "0 spec is true in known\n"),
];

#[test]
fn answers_to_files_that_read(rt: HostRuntime) {
    are_answered(&rt, &FILES_THAT_READ);
}

const USAGE: &str = "2 usage: trio_explain check SPEC HIST | complete SPEC HIST\n";

/// Words that are no command.
const NO_COMMANDS: [(&str, &str); 6] = [
    ("", USAGE),
    ("check spec", USAGE),
    ("complete spec", USAGE),
    ("complete spec known known", USAGE),
    ("complete spec --limit=1", USAGE),
    ("completes spec known", USAGE),
];

#[test]
fn answers_to_words_that_are_no_command(rt: HostRuntime) {
    are_answered(&rt, &NO_COMMANDS);
}
