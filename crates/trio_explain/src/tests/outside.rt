//! What is said where files are long, where calls fail, where memory is wanting, and where words name no files.
ghost use Rattle.std.specs.Prelude.{◌<◌};
ghost use Rattle.trio_io.specs.RealShelf.{untold};

use super::{USAGE, ample, answered, are_answered, few_files, is_text, told};
use explain_answers::Status;
use std::process::Abort;
use trio_io::{Counts, Files, MemShelf, MemSink, Shelf, ShelfFault};

/// Words with what is said of them: which are no names of files, and which are.
const WORDS: [(&str, &str); 11] = [
    ("check --spec known", USAGE),
    ("check spec --known", USAGE),
    ("complete --spec two", USAGE),
    ("check -- known", USAGE),
    ("check _ known", USAGE),
    ("check spec _", USAGE),
    ("_ spec known", USAGE),
    ("Check spec known", USAGE),
    (
        "check - known",
        "5 -: there is no such file, or it cannot be read\n",
    ),
    (
        "check -x known",
        "5 -x: there is no such file, or it cannot be read\n",
    ),
    (
        "check x- known",
        "5 x-: there is no such file, or it cannot be read\n",
    ),
];

#[test]
fn words_that_name_files(rt: HostRuntime) {
    are_answered(&rt, &WORDS);
}

/// The number of the fetch that fails, the words, and what is said.
const FAILING_FETCHES: [(u64, &str, &str); 4] = [
    (
        1,
        "check spec known",
        "5 spec: there is no such file, or it cannot be read\n",
    ),
    (
        2,
        "check spec known",
        "5 known: there is no such file, or it cannot be read\n",
    ),
    (
        2,
        "complete spec two",
        "5 two: there is no such file, or it cannot be read\n",
    ),
    (3, "check spec known", "0 spec is true in known\n"),
];

#[test]
fn fetches_that_fail(rt: HostRuntime) {
    for (failing, line, want) in &FAILING_FETCHES {
        let text = answered(&rt, line, few_files(&rt), &[*failing]);
        is_text(&rt, text.as_slice(), want, line);
    }
}

/// The room, the most bytes a write, the number of the write that fails, and the status with what was written.
const FAILING_WRITES: [(u64, u64, u64, &str); 7] = [
    (4096, 1000, 1, "6 "),
    (4096, 4, 3, "6 spec is "),
    (4096, 4, 6, "6 spec is true in know"),
    (4096, 4, 7, "0 spec is true in known\n"),
    (0, 1000, 0, "6 "),
    (5, 1000, 0, "6 spec "),
    (22, 1000, 0, "0 spec is true in known\n"),
];

/// What is said into a sink of this room that takes so many bytes a write, of which this one fails.
fn written(rt: &(impl Abort + AllocGlobal), room: u64, most: u64, failing: u64) -> Vec<u8>
    requires { 0 < most }
{
    let failing = Counts::from_slice(rt.alloc(), &[failing]).expect(rt, "memory");
    let out = MemSink::new(rt.alloc(), room, most, failing).expect(rt, "memory");
    let shelf = MemShelf::new(rt.alloc(), few_files(rt), Counts::new(rt.alloc()));
    told(rt, "check spec known", &mut shelf.expect(rt, "memory"), out)
}

#[test]
fn writes_that_fail(rt: HostRuntime) {
    for (room, most, failing, want) in &FAILING_WRITES {
        assert!(rt; 0 < *most);
        let text = written(&rt, *room, *most, *failing);
        is_text(&rt, text.as_slice(), want, want);
    }
}

/// The text, and blanks behind it up to this many bytes.
fn padded(rt: &(impl Abort + AllocGlobal), text: &str, length: usize) -> Vec<u8> {
    let mut bytes = Vec::from_slice(rt.alloc(), text.as_bytes()).expect(rt, "memory");
    for _ in text.len()..length {
        bytes.push(b' ').expect(rt, "memory");
    }
    bytes
}

/// The lengths of a specification's file and a history's, and what is said.
const LENGTHS: [(usize, usize, &str); 3] = [
    (262_144, 1_048_576, "0 s is true in h\n"),
    (
        262_145,
        0,
        "4 s: a specification has at most 262144 bytes, and this file is longer\n",
    ),
    (
        0,
        1_048_577,
        "4 h: a history has at most 1048576 bytes, and this file is longer\n",
    ),
];

/// What is said of a specification's file and a history's of these lengths.
fn said_of_lengths(rt: &(impl Abort + AllocGlobal), spec: usize, history: usize) -> Vec<u8> {
    let spec = padded(rt, "time 1;", spec);
    let history = padded(rt, "", history);
    let mut files = Files::new(rt.alloc());
    files.push("s", spec.as_slice()).expect(rt, "memory");
    files.push("h", history.as_slice()).expect(rt, "memory");
    answered(rt, "check s h", files, &[])
}

#[test]
fn long_files(rt: HostRuntime) {
    for (spec, history, want) in &LENGTHS {
        let text = said_of_lengths(&rt, *spec, *history);
        is_text(&rt, text.as_slice(), want, want);
    }
}

/// A shelf that wants memory at each call.
#[derive(Drop)]
struct WantingShelf {}

impl Shelf for WantingShelf {
    ghost seen = { λ _. untold 0 0 };

    fn fetch(&mut self, _name: &str, _max: u64, _into: &mut Vec<u8>) -> Result<(), ShelfFault> {
        Err(ShelfFault::Memory)
    }

    fn put(&mut self, _name: &str, _bytes: &[u8]) -> Result<(), ShelfFault> {
        Err(ShelfFault::Memory)
    }
}

#[test]
fn memory_that_is_wanting(rt: HostRuntime) {
    let line = "check spec known";
    let text = told(&rt, line, &mut WantingShelf {}, ample(&rt));
    is_text(&rt, text.as_slice(), "7 there is not memory enough\n", line);
}

/// The number with which the program ends.
const NUMBERS: [(Status, u8); 7] = [
    (Status::Done, 0),
    (Status::False, 1),
    (Status::Usage, 2),
    (Status::Refused, 4),
    (Status::ReadFault, 5),
    (Status::WriteFault, 6),
    (Status::Memory, 7),
];

#[test]
fn statuses_have_their_numbers(rt: HostRuntime) {
    for (status, number) in &NUMBERS {
        assert_eq!(rt; status.number(), *number);
    }
}
