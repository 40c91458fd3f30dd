//! Worked rows on the top call, over shelves and sinks in memory. A row's columns stand between `~`, and an answer is a status's number and
//! what was written.
ghost use Rattle.std.specs.Prelude.{◌≡◌, ◌⊎◌, ◌++◌, ℕ, List, None, Some};
ghost use Rattle.trio_io.specs.Outside.{Rose};
ghost use Rattle.trio_io.specs.MemoryShelf.{sure_seen};
ghost use Rattle.trio_io.specs.MemorySink.{mem_written, mem_faults};
ghost use Rattle.trio_jobs.specs.declared.command.Command.{Command};
ghost use Rattle.trio_jobs.specs.declared.status.Status.{Status};
ghost use Rattle.trio_io.specs.Words.{word_bytes};
ghost use Rattle.trio_jobs.specs.Command.{command_of};
ghost use Rattle.trio_main.specs.Due.{job_of};

mod complete_rows;
mod history_rows;
mod made_texts;
mod operator_rows;
mod spec_rows;

use super::*;
use crate::laws::check_twice;
use branch_state::Problem;
use history_table::HistFault;
use std::alloc::{AllocError, Global};
use std::process::Abort;
use trio_base::Name;
use trio_io::{Counts, Files, MemShelf, MemSink, SureShelf};
use trio_jobs::{Fault, Text, load, say};
use trio_reader::{SpecFault, Which};

const IMPLIES_NEXT: &str = "time 3; item p : bool; axiom A : p -> Dist(p, 1);";

const USAGE: &str =
    "2 usage: trio check SPEC HIST | complete SPEC HIST [--workers=N] [--limit=N] [--seconds=N] [--save=NAME] | resume FRONTIER [the same] | cases SPEC HIST GOAL [--workers=N] | play SPEC HIST SCHEDULE | bench NUMBER [--workers=N]\n";

/// The words of one line, split at blanks; `_` stands for an empty word.
fn words_in(alloc: Global, line: &str) -> Result<Vec<String>, AllocError> {
    let mut words = Vec::new(alloc);
    for word in line.split_whitespace() {
        words.push(String::from_str(alloc, if word == "_" { "" } else { word })?)?;
    }
    Ok(words)
}

/// The first column of a row, and the columns behind it.
fn cut(row: &str) -> (&str, &str) {
    match row.split_once(" ~ ") {
        Some(parts) => parts,
        None => (row, ""),
    }
}

/// A sink with ample room.
fn ample(alloc: Global) -> Result<MemSink, AllocError> {
    MemSink::new(alloc, 4096, 4096, Counts::new(alloc))
}

/// An answer as the rows have it.
fn shown(alloc: Global, status: Status, out: &MemSink) -> Result<Vec<u8>, AllocError> {
    let mut shown = format!(in alloc; "{} ", status.number())?.into_bytes();
    shown.extend_from_slice(out.written())?;
    Ok(shown)
}

/// The answer of a line of words.
fn answered(
    alloc: Global,
    line: &str,
    files: Files,
    failing: Counts,
    mut out: MemSink,
) -> Result<Vec<u8>, AllocError> {
    let words = words_in(alloc, line)?;
    let mut shelf = MemShelf::new(alloc, files, failing)?;
    let mut bell = StillBell::new();
    let status = trio_plain(alloc, words.as_slice(), &mut shelf, &mut out, &mut bell);
    shown(alloc, status, &out)
}

/// A shelf's files: `s` with a specification and `h` with a history.
fn two_files(alloc: Global, spec: &[u8], history: &[u8]) -> Result<Files, AllocError> {
    let mut files = Files::new(alloc);
    files.push("s", spec)?;
    files.push("h", history)?;
    Ok(files)
}

/// The answer of `check s h` where nothing fails.
fn checked(alloc: Global, spec: &[u8], history: &[u8]) -> Result<Vec<u8>, AllocError> {
    let files = two_files(alloc, spec, history)?;
    answered(alloc, "check s h", files, Counts::new(alloc), ample(alloc)?)
}

/// Asserts that an answer is the one of a row.
fn is_due(rt: &(impl Abort + AllocGlobal), answer: &[u8], want: &str, row: &str) {
    assert_eq!(rt; answer, want.as_bytes(), "{row}");
}

/// Asserts the answer in the last column for the specification and the history in the others.
fn check_row(rt: &(impl Abort + AllocGlobal), row: &str) {
    let (spec, rest) = cut(row);
    let (history, want) = cut(rest);
    let answer = checked(rt.alloc(), spec.as_bytes(), history.as_bytes()).expect(rt, "memory");
    is_due(rt, answer.as_slice(), want, row);
}

/// Asserts each row.
fn check_all(rt: &(impl Abort + AllocGlobal), rows: &[&str]) {
    for row in rows {
        check_row(rt, row);
    }
}

/// Asserts each row behind what stands before all of them.
fn check_behind(rt: &(impl Abort + AllocGlobal), before: &str, rows: &[&str]) {
    for row in rows {
        let row = format!(in rt.alloc(); "{before}{row}").expect(rt, "memory");
        check_row(rt, row.as_str());
    }
}

/// Asserts the answer for a specification and an empty history.
fn answer_is(rt: &(impl Abort + AllocGlobal), spec: &str, want: &str) {
    let row = format!(in rt.alloc(); "{spec} ~  ~ {want}\n").expect(rt, "memory");
    check_row(rt, row.as_str());
}

/// A specification, a history, and the answer of `check`.
const VERDICTS_AND_REFUSALS: [&str; 14] = [
    "time 3; item p : bool; axiom A : p -> Dist(p, 1); ~ p: 0 0 0\n ~ 0 true\n",
    "time 3; item p : bool; axiom A : p -> Dist(p, 1); ~ p: 0 1 1 ~ 1 false A 2\n",
    "time 3; item p : bool; axiom A : p -> Dist(p, 1); ~ p: 1 0 1 ~ 1 false A 0\n",
    "time 3; item p : bool; axiom A : p -> Dist(p, 1); ~ p: 0 ? 1 ~ 4 unknown p 1\n",
    "time 3; item p : bool; axiom A : p -> Futr(p, 1); ~ p: 0 0 0 ~ 0 true\n",
    "time 3; item p : bool; axiom A : q; ~ p: 0 ? 1 ~ 4 refused spec unknown 11\n",
    "time 1; axiom A : false; axiom B : true; ~  ~ 1 false A 0\n",
    "time 2; axiom A : true; axiom B at 1 : Dist(true, 1); ~  ~ 1 false B 1\n",
    "time 3;\nitem p : bool;\naxiom A : p @ q; ~  ~ 4 refused spec lex 35\n",
    "time 3; item p bool; ~  ~ 4 refused spec syntax 5\n",
    "time 1; item p : bool; item p : bool; ~  ~ 4 refused spec twice 9\n",
    "time 1; item p : bool; axiom A : 1; ~  ~ 4 refused spec kind 11\n",
    "time 0; ~  ~ 4 refused spec range 1\n",
    "time 205; item a : bool; item b : bool; item c : bool; item d : bool; item e : bool; ~  ~ 4 refused spec limit cells 1025\n",
];

#[test]
fn verdicts_and_refusals(rt: HostRuntime) {
    check_all(&rt, &VERDICTS_AND_REFUSALS);
}

/// Words that are answered with the usage line.
const NO_COMMANDS: [&str; 23] = [
    "",
    "check",
    "check s",
    "check s h x",
    "check --s h",
    "check s --h",
    "check -- h",
    "check _ h",
    "check s _",
    "Check s h",
    "--check s h",
    "_ s h",
    "complete",
    "complete s",
    "complete s h x",
    "complete s --h",
    "complete _ h",
    "complete s h --limit=2",
    "complete --workers=1 s h",
    "Complete s h",
    "s h check",
    "--help",
    "--version",
];

/// Asserts that the words of a line are answered with the usage line, though no file can be fetched.
fn is_no_command(rt: &(impl Abort + AllocGlobal), line: &str) {
    let alloc = rt.alloc();
    let files = two_files(alloc, IMPLIES_NEXT.as_bytes(), b"p: 0 0 0").expect(rt, "memory");
    let failing = Counts::from_slice(alloc, &[1, 2, 3]).expect(rt, "memory");
    let answer = answered(
        alloc,
        line,
        files,
        failing,
        ample(alloc).expect(rt, "memory"),
    )
    .expect(rt, "memory");
    is_due(rt, answer.as_slice(), USAGE, line);
}

#[test]
fn words_that_are_no_command(rt: HostRuntime) {
    for line in &NO_COMMANDS {
        is_no_command(&rt, line);
    }
}

/// The number of the fetch that fails, the words, the names of the files that there are, and the answer.
const FAILING_FETCHES: [(u64, &str); 13] = [
    (0, "check s h ~ s h ~ 0 true\n"),
    (1, "check s h ~ s h ~ 5 fault read\n"),
    (2, "check s h ~ s h ~ 5 fault read\n"),
    (3, "check s h ~ s h ~ 0 true\n"),
    (0, "check s h ~ h ~ 5 fault read\n"),
    (0, "check s h ~ s ~ 5 fault read\n"),
    (2, "check h h ~ s h ~ 4 refused spec syntax 0\n"),
    (0, "check s s ~ s h ~ 4 refused history syntax 1\n"),
    (0, "check - -x ~ s h ~ 5 fault read\n"),
    (1, "complete s h ~ s h ~ 5 fault read\n"),
    (2, "complete s h ~ s h ~ 5 fault read\n"),
    (0, "complete s h ~ h ~ 5 fault read\n"),
    (0, "complete s h ~ s ~ 5 fault read\n"),
];

/// The files of these names: `s` with a specification, and every other with a history.
fn files_named(rt: &(impl Abort + AllocGlobal), names: &str) -> Files {
    let mut files = Files::new(rt.alloc());
    for name in names.split_whitespace() {
        let text = if name == "s" {
            IMPLIES_NEXT
        } else {
            "p: 0 0 0"
        };
        files.push(name, text.as_bytes()).expect(rt, "memory");
    }
    files
}

/// Asserts the answer where this fetch fails.
fn fetch_row(rt: &(impl Abort + AllocGlobal), failing: u64, row: &str) {
    let alloc = rt.alloc();
    let (line, rest) = cut(row);
    let (names, want) = cut(rest);
    let failing = Counts::from_slice(alloc, &[failing]).expect(rt, "memory");
    let answer = answered(
        alloc,
        line,
        files_named(rt, names),
        failing,
        ample(alloc).expect(rt, "memory"),
    )
    .expect(rt, "memory");
    is_due(rt, answer.as_slice(), want, row);
}

#[test]
fn fetches_that_fail(rt: HostRuntime) {
    for (failing, row) in &FAILING_FETCHES {
        fetch_row(&rt, *failing, row);
    }
}

/// The room, the most bytes a write, the number of the write that fails, the history, and the answer.
const FAILING_WRITES: [(u64, u64, u64, &str); 16] = [
    (4096, 1, 0, "p: 0 0 0 ~ 0 true\n"),
    (4096, 1, 1, "p: 0 0 0 ~ 6 "),
    (4096, 1, 2, "p: 0 0 0 ~ 6 t"),
    (4096, 1, 5, "p: 0 0 0 ~ 6 true"),
    (4096, 1, 6, "p: 0 0 0 ~ 0 true\n"),
    (4096, 2, 2, "p: 0 1 1 ~ 6 fa"),
    (4096, 2, 5, "p: 0 1 1 ~ 6 false A "),
    (4096, 1000, 1, "p: 0 1 1 ~ 6 "),
    (4096, 1000, 2, "p: 0 1 1 ~ 1 false A 2\n"),
    (4096, 2, 3, "p: 0 1 ~ 6 refu"),
    (4096, 1000, 2, "p: 0 1 ~ 6 refused history length "),
    (4096, 1000, 4, "p: 0 1 ~ 4 refused history length 1\n"),
    (0, 1000, 0, "p: 0 0 0 ~ 6 "),
    (3, 1000, 0, "p: 0 0 0 ~ 6 tru"),
    (5, 1000, 0, "p: 0 0 0 ~ 0 true\n"),
    (9, 2, 0, "p: 0 1 1 ~ 6 false A 2"),
];

/// Asserts the answer of `check` into this sink.
fn write_row(rt: &(impl Abort + AllocGlobal), out: MemSink, row: &str) {
    let alloc = rt.alloc();
    let (history, want) = cut(row);
    let files = two_files(alloc, IMPLIES_NEXT.as_bytes(), history.as_bytes()).expect(rt, "memory");
    let answer = answered(alloc, "check s h", files, Counts::new(alloc), out).expect(rt, "memory");
    is_due(rt, answer.as_slice(), want, row);
}

#[test]
fn writes_that_fail(rt: HostRuntime) {
    let alloc = rt.alloc();
    for (room, most, failing, row) in &FAILING_WRITES {
        assert!(rt; 0 < *most);
        let failing = Counts::from_slice(alloc, &[*failing]).expect(&rt, "memory");
        write_row(
            &rt,
            MemSink::new(alloc, *room, *most, failing).expect(&rt, "memory"),
            row,
        );
    }
}

/// The text, and blanks behind it up to this many bytes.
fn padded(rt: &(impl Abort + AllocGlobal), text: &str, length: usize) -> Vec<u8> {
    let mut bytes = Vec::from_slice(rt.alloc(), text.as_bytes()).expect(rt, "memory");
    for _ in text.len()..length {
        bytes.push(b' ').expect(rt, "memory");
    }
    bytes
}

/// The specification and the history, the lengths of their files where those are longer, and the answer.
const LONG_AND_EMPTY: [(&str, usize, usize, &str); 7] = [
    (IMPLIES_NEXT, 262_144, 1_048_576, "p: 0 0 0 ~ 0 true\n"),
    (IMPLIES_NEXT, 262_145, 9, "p: 0 0 0 ~ 4 refused spec long\n"),
    (
        IMPLIES_NEXT,
        99,
        1_048_577,
        "p: 0 0 0 ~ 4 refused history long\n",
    ),
    (IMPLIES_NEXT, 99, 0, " ~ 4 refused history missing p\n"),
    (
        "time 0;",
        0,
        1_048_577,
        "p: 0 0 0 ~ 4 refused spec range 1\n",
    ),
    ("", 0, 0, "p: 0 0 0 ~ 4 refused spec syntax 0\n"),
    ("time 1;", 0, 0, " ~ 0 true\n"),
];

/// The answer of `check` where blanks stand behind both texts.
fn padded_answer(
    rt: &(impl Abort + AllocGlobal),
    spec: &str,
    spec_length: usize,
    history: &str,
    history_length: usize,
) -> Vec<u8> {
    let spec = padded(rt, spec, spec_length);
    let history = padded(rt, history, history_length);
    checked(rt.alloc(), spec.as_slice(), history.as_slice()).expect(rt, "memory")
}

#[test]
fn long_and_empty_files(rt: HostRuntime) {
    for (spec, spec_length, history_length, row) in &LONG_AND_EMPTY {
        let (history, want) = cut(row);
        let answer = padded_answer(&rt, spec, *spec_length, history, *history_length);
        is_due(&rt, answer.as_slice(), want, row);
    }
}

/// For runs in which one allocation fails: each answer is the row's or want of memory. An allocation of the test's own that fails ends it.
#[test]
fn memory_may_run_out(rt: HostRuntime) {
    let rows = [
        "p: 0 0 0 ~ 0 true\n",
        "p: 0 ? 1 ~ 4 unknown p 1\n",
        " ~ 4 refused history missing p\n",
    ];
    for row in rows {
        let (history, want) = cut(row);
        if let Ok(answer) = checked(rt.alloc(), IMPLIES_NEXT.as_bytes(), history.as_bytes()) {
            let is_memory = answer.as_slice() == b"7 fault memory\n".as_slice();
            assert!(rt; answer.as_slice() == want.as_bytes() || is_memory, "{row}");
        }
    }
}

/// The axioms, the values of `p` at the three instants, and the answer of `check`.
const TRUTHS: [&str; 16] = [
    "axiom A : p | !p; ~ p: 0 1 1 ~ 0 true\n",
    "axiom A : true -> [p]; ~ p: 1 1 0 ~ 1 false A 2\n",
    "axiom A : p & p | false; ~ p: 1 0 1 ~ 1 false A 1\n",
    "axiom A : Dist(p, -1) -> p; ~ p: 0 1 0 ~ 1 false A 2\n",
    "axiom A : Dist(p, 1) | Dist(true, -2); ~ p: 0 1 1 ~ 0 true\n",
    "axiom A : Dist(!p, 1); ~ p: 1 0 0 ~ 1 false A 2\n",
    "axiom A : !Dist(p, 1); ~ p: 1 0 0 ~ 0 true\n",
    "axiom A : Dist(Dist(p, 1), -1) -> p; ~ p: 1 0 1 ~ 0 true\n",
    "axiom A at 0 : Dist(true, 2) & !Dist(true, 3); ~ p: 0 0 0 ~ 0 true\n",
    "axiom A at 2 : Dist(true, -3); ~ p: 0 0 0 ~ 1 false A 2\n",
    "axiom A : Dist(p, -0) -> Dist(p, 0); ~ p: 0 1 0 ~ 0 true\n",
    "axiom A : Dist(true, 1000000); ~ p: 1 1 1 ~ 1 false A 0\n",
    "axiom A : !Dist(true, -1000000); ~ p: 1 1 1 ~ 0 true\n",
    "axiom A at 1 : p; axiom B : p; ~ p: 0 1 1 ~ 1 false B 0\n",
    "axiom A : p; axiom B : false; ~ p: 1 1 0 ~ 1 false A 2\n",
    " ~ p: 0 1 0 ~ 0 true\n",
];

#[test]
fn truth_of_each_form(rt: HostRuntime) {
    check_behind(&rt, "time 3; item p : bool; ", &TRUTHS);
}

/// A history of `p` and `q` over two instants, and the answer of `check`.
const HISTORIES: [&str; 25] = [
    "p: 0 1\nq: 1 1 ~ 0 true\n",
    "p:0 1\nq:0 0\n ~ 1 false A 1\n",
    "q: true true // all\n\n p\t:\t0 01\r\n ~ 0 true\n",
    "p: 000 true\nq: - 0 -0 ~ 1 false A 1\n",
    "// none\np: false 1//1\nq: -00 1 ~ 0 true\n",
    " ~ 4 refused history missing p\n",
    "// p: 0 1 ~ 4 refused history missing p\n",
    "p: 0 1 ~ 4 refused history missing q\n",
    "p: 0 1\nq: 1 1\np: 0 1 ~ 4 refused history twicerow 3\n",
    "p: 0 1\nq: 1 ~ 4 refused history length 2\n",
    "p: 0 1\nq: 1 1 1 ~ 4 refused history length 2\n",
    "p: 01\nq: 1 1 ~ 4 refused history length 1\n",
    "p: 0 2\nq: 1 1 ~ 4 refused history value 1 2\n",
    "p: 0 -1\nq: 1 1 ~ 4 refused history value 1 2\n",
    "p: 0 x\nq: 1 1 ~ 4 refused history value 1 2\n",
    "p: 0 ?\nq: 1 1 ~ 4 unknown p 1\n",
    "p: 0 1\nq: ? ? ~ 4 unknown q 0\n",
    "r: 0 1\np: 0 1\nq: 1 1 ~ 4 refused history unknownrow 1\n",
    "A: 0 1\np: 0 1\nq: 1 1 ~ 4 refused history unknownrow 1\n",
    "p 0 1\nq: 1 1 ~ 4 refused history syntax 1\n",
    "p: 0 1 q: 1 1 ~ 4 refused history syntax 1\n",
    "p(): 0 1\nq: 1 1 ~ 4 refused history syntax 1\n",
    "p: 0\n1\nq: 1 1 ~ 4 refused history length 1\n",
    "p: 0 -\n1\nq: 1 1 ~ 4 refused history syntax 1\n",
    "p: 0 1\nq: 1 1\n/ ~ 4 refused history lex 14\n",
];

#[test]
fn histories_in_every_form(rt: HostRuntime) {
    let before = "time 2; item p : bool; input q : bool; axiom A : p -> q; ~ ";
    check_behind(&rt, before, &HISTORIES);
}

#[test]
fn a_byte_of_no_text(rt: HostRuntime) {
    let answer = checked(rt.alloc(), b"time 1;", b"\n\xff").expect(&rt, "memory");
    is_due(&rt, answer.as_slice(), "4 refused history lex 1\n", "");
}

/// The number with which the program ends.
const NUMBERS: [(Status, u8); 9] = [
    (Status::Done, 0),
    (Status::False, 1),
    (Status::Usage, 2),
    (Status::Stopped, 3),
    (Status::Refused, 4),
    (Status::ReadFault, 5),
    (Status::WriteFault, 6),
    (Status::Memory, 7),
    (Status::SaveFault, 8),
];

#[test]
fn statuses_have_their_numbers(rt: HostRuntime) {
    for (status, number) in &NUMBERS {
        assert_eq!(rt; status.number(), *number);
    }
}

/// Asserts what is said of a fault.
fn says(rt: &(impl Abort + AllocGlobal), fault: Fault, want: &str) {
    let alloc = rt.alloc();
    let mut out = ample(alloc).expect(rt, "memory");
    let status = say(&mut out, &fault);
    is_due(
        rt,
        shown(alloc, status, &out).expect(rt, "memory").as_slice(),
        want,
        want,
    );
}

#[test]
fn faults_have_their_messages(rt: HostRuntime) {
    let p = Name::new(rt.alloc(), "p").expect(&rt, "memory");
    let q = Name::new(rt.alloc(), "q(0,red)").expect(&rt, "memory");
    says(&rt, Fault::Read, "5 fault read\n");
    says(&rt, Fault::TooLong(Text::Spec), "4 refused spec long\n");
    says(
        &rt,
        Fault::TooLong(Text::History),
        "4 refused history long\n",
    );
    says(&rt, Fault::Missing(p), "4 refused history missing p\n");
    says(&rt, Fault::Unknown(q, 255), "4 unknown q(0,red) 255\n");
    says(&rt, Fault::Goal, "4 refused goal\n");
    says(&rt, Fault::Write, "6 ");
    says(&rt, Fault::Memory, "7 fault memory\n");
}

/// Asserts the words on a refused specification.
fn spec_says(rt: &(impl Abort + AllocGlobal), fault: SpecFault, words: &str) {
    let want = format!(in rt.alloc(); "4 refused spec {words}\n").expect(rt, "memory");
    says(rt, Fault::Spec(fault), want.as_str());
}

/// A fault of a specification, and the words behind `refused spec`.
const SPEC_MESSAGES: [(SpecFault, &str); 13] = [
    (SpecFault::Lex(0), "lex 0"),
    (SpecFault::Deep(106), "deep 106"),
    (SpecFault::Syntax(5), "syntax 5"),
    (SpecFault::Unknown(11), "unknown 11"),
    (SpecFault::Twice(9), "twice 9"),
    (SpecFault::Kind(12), "kind 12"),
    (SpecFault::Range(8), "range 8"),
    (SpecFault::Limit(Which::Items, 257), "limit items 257"),
    (SpecFault::Limit(Which::Cells, 9), "limit cells 9"),
    (SpecFault::Limit(Which::Sizes, 9), "limit sizes 9"),
    (SpecFault::Limit(Which::Bound, 9), "limit bound 9"),
    (
        SpecFault::Limit(Which::Instances, u64::MAX),
        "limit instances 18446744073709551615",
    ),
    (SpecFault::Limit(Which::Nest, 101), "limit nest 101"),
];

#[test]
fn refused_specifications_have_their_messages(rt: HostRuntime) {
    for (fault, words) in &SPEC_MESSAGES {
        spec_says(&rt, *fault, words);
    }
}

/// Asserts the words on a refused history.
fn history_says(rt: &(impl Abort + AllocGlobal), fault: HistFault, words: &str) {
    let want = format!(in rt.alloc(); "4 refused history {words}\n").expect(rt, "memory");
    says(rt, Fault::History(fault), want.as_str());
}

/// A fault of a history, and the words behind `refused history`.
const HISTORY_MESSAGES: [(HistFault, &str); 6] = [
    (HistFault::Lex(14), "lex 14"),
    (HistFault::Syntax(1), "syntax 1"),
    (HistFault::UnknownRow(2), "unknownrow 2"),
    (HistFault::TwiceRow(3), "twicerow 3"),
    (HistFault::Length(4), "length 4"),
    (HistFault::Value(1, 2), "value 1 2"),
];

#[test]
fn refused_histories_have_their_messages(rt: HostRuntime) {
    for (fault, words) in &HISTORY_MESSAGES {
        history_says(&rt, *fault, words);
    }
}

/// Over a shelf that never fails and a sink in memory: the answer due, or want of memory, and every file as it was.
fn sure_status(alloc: Global, words: &[String], shelf: &mut SureShelf, out: &mut MemSink) -> Status
    ensures due { (reads : ℕ) (s : Status) (text : List ℕ) → (job_of (command_of (word_bytes words.now))).due (sure_seen shelf.old) reads s text
        → (Rose (mem_faults out.old) (mem_faults out.new) → ⊥)
        → ((result ≡ s) × (mem_written out.new ≡ mem_written out.old ++ text)) ⊎ (result ≡ Status.Memory) }
    ensures files { (s h name : List ℕ) → command_of (word_bytes words.now) ≡ Some (Command.Check s h)
        → (sure_seen shelf.new).file name ≡ (sure_seen shelf.old).file name }
{
    let mut bell = StillBell::new();
    trio_plain(alloc, words, shelf, out, &mut bell)
}

/// Asserts the answer in the last column for the history in the first.
fn sure_row(rt: &(impl Abort + AllocGlobal), row: &str) {
    let alloc = rt.alloc();
    let (history, want) = cut(row);
    let files = two_files(alloc, IMPLIES_NEXT.as_bytes(), history.as_bytes()).expect(rt, "memory");
    let mut shelf = SureShelf::new(alloc, files).expect(rt, "memory");
    let mut out = ample(alloc).expect(rt, "memory");
    let words = words_in(alloc, "check s h").expect(rt, "memory");
    let status = sure_status(alloc, words.as_slice(), &mut shelf, &mut out);
    is_due(
        rt,
        shown(alloc, status, &out).expect(rt, "memory").as_slice(),
        want,
        row,
    );
}

#[test]
fn what_is_due_is_given(rt: HostRuntime) {
    sure_row(&rt, "p: 0 0 0 ~ 0 true\n");
    sure_row(&rt, "p: 0 1 1 ~ 1 false A 2\n");
}

/// A specification with a goal.
const WITH_GOAL: &str =
    "time 3; item p : bool; axiom A : p -> Dist(p, 1); goal G at 0 : p; goal H : !p;";

/// Asserts how many axioms and goals a problem's specification has.
fn has_statements(rt: &impl Abort, problem: &Problem, axioms: usize, goals: usize) {
    assert_eq!(rt; problem.spec.axioms.len(), axioms);
    assert_eq!(rt; problem.spec.goals.len(), goals);
}

/// Asserts what loading with this goal gives: so many axioms and goals, or this refusal.
fn goal_row(rt: &(impl Abort + AllocGlobal), goal: &str, statements: (usize, usize), want: &str) {
    let alloc = rt.alloc();
    let files = two_files(alloc, WITH_GOAL.as_bytes(), b"p: ? ? ?").expect(rt, "memory");
    let mut shelf = SureShelf::new(alloc, files).expect(rt, "memory");
    let spec = Name::new(alloc, "s").expect(rt, "memory");
    let history = Name::new(alloc, "h").expect(rt, "memory");
    let name = Name::new(alloc, goal).expect(rt, "memory");
    match load(alloc, &mut shelf, &spec, &history, Some(&name)) {
        Ok(problem) => has_statements(rt, &problem, statements.0, statements.1),
        Err(fault) => says(rt, fault, want),
    }
}

#[test]
fn goals_that_are_asked_for(rt: HostRuntime) {
    goal_row(&rt, "G", (2, 1), "");
    goal_row(&rt, "H", (2, 1), "");
    goal_row(&rt, "X", (0, 0), "4 refused goal\n");
    goal_row(&rt, "A", (0, 0), "4 refused goal\n");
}

#[test]
fn two_checks_follow_each_other(rt: HostRuntime) {
    let alloc = rt.alloc();
    let files = two_files(alloc, IMPLIES_NEXT.as_bytes(), b"p: 0 0 0").expect(&rt, "memory");
    let mut shelf = SureShelf::new(alloc, files).expect(&rt, "memory");
    let mut out = ample(alloc).expect(&rt, "memory");
    let words = words_in(alloc, "check s h").expect(&rt, "memory");
    let mut bell = StillBell::new();
    let statuses = check_twice(alloc, words.as_slice(), &mut shelf, &mut out, &mut bell);
    is_due(&rt, out.written(), "true\ntrue\n", "check s h");
    assert_eq!(rt; (statuses.0.number(), statuses.1.number()), (0, 0));
}
