//! Each form once: files, sinks and bells in memory, real files, and printers that take little.
ghost use Rattle.std.specs.Prelude.{◌≡◌, ◌<◌, None};

use crate::{
    Bell, Counts, FileShelf, Files, MemShelf, MemSink, OutSink, Shelf, ShelfFault, Sink, SinkFault,
    StillBell, SureShelf, SureSink, words_given, write_pieces, write_whole,
};
use std::alloc::{AllocError, Allocator, Global};
use std::cell::Cell;
use std::env::FillError;
use std::fmt::{Debug, Display};
use std::fs::{File, Metadata, OpenOptions};
use std::process::Abort;
use std::rt::Env;
use std::test::Fail;
use std::{fs, io, rt};

/// Ends the test with both values unless they are equal: an assertion is proved where it stands with all that it prints, and a call costs next
/// to nothing.
fn same<T: PartialEq + Debug>(rt: &impl Abort, got: &T, want: &T) {
    assert_eq!(rt; got, want);
}

/// Ends the test unless this is true.
fn holds(rt: &impl Abort, is_true: bool) {
    assert!(rt; is_true);
}

fn counts(alloc: Global, numbers: &[u64]) -> Result<Counts, AllocError> {
    Counts::from_slice(alloc, numbers)
}

/// A shelf with the files a and b.
fn shelf_of_two(alloc: Global, failing: &[u64]) -> Result<MemShelf, AllocError> {
    let mut files = Files::new(alloc);
    files.push("a", b"old")?;
    files.push("b", b"")?;
    files.push("a", b"abc")?;
    MemShelf::new(alloc, files, counts(alloc, failing)?)
}

fn fetch_row(
    rt: &(impl Abort + AllocGlobal),
    failing: &[u64],
    name: &str,
    max: u64,
    answer: Result<(), ShelfFault>,
    held: &[u8],
) -> Result<(), AllocError> {
    let mut shelf = shelf_of_two(rt.alloc(), failing)?;
    file_row(rt, &mut shelf, name, max, answer, held)
}

#[test]
fn memory_shelf_fetches(rt: HostRuntime) -> Result<(), Fail> {
    fetch_row(&rt, &[], "a", 3, Ok(()), b">abc")?;
    fetch_row(&rt, &[], "a", 2, Err(ShelfFault::TooLong), b">")?;
    fetch_row(&rt, &[], "b", 0, Ok(()), b">")?;
    fetch_row(&rt, &[], "c", 9, Err(ShelfFault::Failed), b">")?;
    fetch_row(&rt, &[1], "a", 3, Err(ShelfFault::Failed), b">")?;
    fetch_row(&rt, &[0, 2], "a", 3, Ok(()), b">abc")?;
    Ok(())
}

fn put_row(
    rt: &(impl Abort + AllocGlobal),
    failing: &[u64],
    name: &str,
    answer: Result<(), ShelfFault>,
    held: &[Option<&[u8]>; 3],
) -> Result<(), AllocError> {
    let mut shelf = shelf_of_two(rt.alloc(), failing)?;
    same(rt, &shelf.put(name, b"new"), &answer);
    same(rt, &shelf.file("a"), &held[0]);
    same(rt, &shelf.file("b"), &held[1]);
    same(rt, &shelf.file("c"), &held[2]);
    Ok(())
}

#[test]
fn memory_shelf_puts(rt: HostRuntime) -> Result<(), Fail> {
    put_row(&rt, &[], "a", Ok(()), &[Some(b"new"), Some(b""), None])?;
    put_row(&rt, &[2], "b", Ok(()), &[Some(b"abc"), Some(b"new"), None])?;
    put_row(
        &rt,
        &[],
        "c",
        Ok(()),
        &[Some(b"abc"), Some(b""), Some(b"new")],
    )?;
    put_row(
        &rt,
        &[1],
        "a",
        Err(ShelfFault::Failed),
        &[Some(b"abc"), Some(b""), None],
    )?;
    Ok(())
}

/// The counts of a shelf: absences, failed fetches, failed puts and calls.
fn counted(shelf: &MemShelf) -> (u64, u64, u64, u64) {
    (
        shelf.absences,
        shelf.failed_fetches,
        shelf.failed_puts,
        shelf.calls,
    )
}

fn counts_rise(rt: &(impl Abort + AllocGlobal), shelf: &mut MemShelf) -> Result<(), AllocError> {
    let failed = Err(ShelfFault::Failed);
    file_row(rt, shelf, "a", 3, Ok(()), b">abc")?;
    file_row(rt, shelf, "a", 2, Err(ShelfFault::TooLong), b">")?;
    same(rt, &counted(shelf), &(0, 0, 0, 2));
    file_row(rt, shelf, "a", 3, failed, b">")?;
    same(rt, &counted(shelf), &(0, 1, 0, 3));
    file_row(rt, shelf, "c", 3, failed, b">")?;
    same(rt, &counted(shelf), &(1, 1, 0, 4));
    same(rt, &shelf.put("a", b"new"), &failed);
    same(rt, &counted(shelf), &(1, 1, 1, 5));
    same(rt, &shelf.put("c", b"new"), &Ok(()));
    same(rt, &counted(shelf), &(1, 1, 1, 6));
    Ok(())
}

#[test]
fn memory_shelf_counts(rt: HostRuntime) -> Result<(), Fail> {
    let mut shelf = shelf_of_two(rt.alloc(), &[3, 5])?;
    Ok(counts_rise(&rt, &mut shelf)?)
}

/// The answers of a sink: to no bytes, to five bytes written whole, and what it holds then.
fn sink_row(
    rt: &(impl Abort + AllocGlobal),
    room: u64,
    most: u64,
    failing: &[u64],
    answer: Result<(), SinkFault>,
    written: &[u8],
) -> Result<(), AllocError>
    requires { 0 < most }
{
    let mut sink = MemSink::new(rt.alloc(), room, most, counts(rt.alloc(), failing)?)?;
    same(rt, &sink.write(b""), &Ok(0));
    same(rt, &write_whole(&mut sink, b"abcde"), &answer);
    same(rt, &sink.written(), &written);
    Ok(())
}

#[test]
fn memory_sink_takes_pieces(rt: HostRuntime) -> Result<(), Fail> {
    Ok(sinks_take_pieces(&rt)?)
}

fn sinks_take_pieces(rt: &(impl Abort + AllocGlobal)) -> Result<(), AllocError> {
    sink_row(rt, 9, 1, &[], Ok(()), b"abcde")?;
    sink_row(rt, 5, 2, &[4], Ok(()), b"abcde")?;
    sink_row(rt, 9, 9, &[2], Ok(()), b"abcde")?;
    sink_row(rt, 4, 3, &[], Err(SinkFault::Failed), b"abcd")?;
    sink_row(rt, 0, 1, &[], Err(SinkFault::Failed), b"")?;
    sink_row(rt, 9, 2, &[2], Err(SinkFault::Failed), b"ab")?;
    sink_row(rt, 9, 9, &[1], Err(SinkFault::Failed), b"")
}

fn never_rings<B: Bell>(rt: &impl Abort, bell: &mut B)
    requires { (B.seen bell.old).armed ≡ None }
{
    holds(rt, !bell.ask());
    bell.arm(1);
    holds(rt, !bell.ask());
}

#[test]
fn still_bell_never_rings(rt: HostRuntime) {
    never_rings(&rt, &mut StillBell::new());
}

fn file_row<S: Shelf>(
    rt: &(impl Abort + AllocGlobal),
    shelf: &mut S,
    name: &str,
    max: u64,
    answer: Result<(), ShelfFault>,
    held: &[u8],
) -> Result<(), AllocError> {
    let mut into = Vec::from_slice(rt.alloc(), b">")?;
    same(rt, &shelf.fetch(name, max, &mut into), &answer);
    same(rt, &into.as_slice(), &held);
    Ok(())
}

/// Fetches and puts of a shelf that holds the file a alone.
fn fetches_and_puts(
    rt: &(impl Abort + AllocGlobal),
    shelf: &mut SureShelf,
) -> Result<(), AllocError> {
    file_row(rt, shelf, "a", 3, Ok(()), b">abc")?;
    file_row(rt, shelf, "a", 2, Err(ShelfFault::TooLong), b">")?;
    file_row(rt, shelf, "b", 3, Err(ShelfFault::Failed), b">")?;
    same(rt, &shelf.put("b", b"d"), &Ok(()));
    file_row(rt, shelf, "b", 3, Ok(()), b">d")?;
    same(rt, &shelf.absences, &1);
    Ok(())
}

#[test]
fn sure_shelf_fetches_and_puts(rt: HostRuntime) -> Result<(), Fail> {
    let mut files = Files::new(rt.alloc());
    files.push("a", b"abc")?;
    let mut shelf = SureShelf::new(rt.alloc(), files)?;
    Ok(fetches_and_puts(&rt, &mut shelf)?)
}

#[test]
fn real_files_are_put_and_fetched(rt: HostRuntime) -> Result<(), Fail> {
    let mut shelf = FileShelf::new(&rt);
    let name = "trio_io_file";
    same(&rt, &shelf.put(name, b"longer"), &Ok(()));
    same(&rt, &shelf.put(name, b"abc"), &Ok(()));
    file_row(&rt, &mut shelf, name, 3, Ok(()), b">abc")?;
    file_row(&rt, &mut shelf, name, u64::MAX, Ok(()), b">abc")?;
    file_row(&rt, &mut shelf, name, 2, Err(ShelfFault::TooLong), b">")?;
    holds(&rt, fs::remove_file(&rt, name).is_ok());
    same(&rt, &(shelf.failed_fetches, shelf.failed_puts), &(0, 0));
    Ok(())
}

#[test]
fn real_failures_are_counted(rt: HostRuntime) -> Result<(), Fail> {
    let mut shelf = FileShelf::new(&rt);
    holds(&rt, fs::create_dir(&rt, "trio_io_folder").is_ok());
    let failed = Err(ShelfFault::Failed);
    file_row(&rt, &mut shelf, "trio_io_folder", 3, failed, b">")?;
    same(&rt, &shelf.put("trio_io_folder", b"abc"), &failed);
    holds(&rt, fs::remove_dir(&rt, "trio_io_folder").is_ok());
    same(&rt, &(shelf.failed_fetches, shelf.failed_puts), &(1, 1));
    file_row(&rt, &mut shelf, "trio_io_none", 3, failed, b">")?;
    same(&rt, &shelf.put("trio_io_none/a", b"abc"), &failed);
    same(&rt, &(shelf.failed_fetches, shelf.failed_puts), &(2, 2));
    Ok(())
}

/// Files whose every call wants memory.
#[derive(Drop)]
struct WantingFiles {}

fn wanting<T>() -> io::Result<T> {
    Err(io::Error::from(io::ErrorKind::OutOfMemory))
}

impl rt::Files for WantingFiles {
    type File = File;

    type Dir = io::Empty;

    fn open_file(&self, _how: &OpenOptions, _path: &str) -> io::Result<File> {
        wanting()
    }

    fn open_dir(&self, _path: &str) -> io::Result<io::Empty> {
        wanting()
    }

    fn metadata(&self, _path: &str) -> io::Result<Metadata> {
        wanting()
    }

    fn symlink_metadata(&self, _path: &str) -> io::Result<Metadata> {
        wanting()
    }

    fn copy(&self, _from: &str, _to: &str) -> io::Result<u64> {
        wanting()
    }

    fn rename(&self, _from: &str, _to: &str) -> io::Result<()> {
        wanting()
    }

    fn remove_file(&self, _path: &str) -> io::Result<()> {
        wanting()
    }

    fn create_dir(&self, _path: &str) -> io::Result<()> {
        wanting()
    }

    fn remove_dir(&self, _path: &str) -> io::Result<()> {
        wanting()
    }

    fn remove_dir_all<B: Allocator>(&self, _alloc: B, _path: &str) -> io::Result<()> {
        wanting()
    }
}

#[test]
fn want_of_memory_is_no_failure(rt: HostRuntime) -> Result<(), Fail> {
    let files = WantingFiles {};
    let mut shelf = FileShelf::new(&files);
    file_row(&rt, &mut shelf, "a", 3, Err(ShelfFault::Memory), b">")?;
    same(&rt, &shelf.put("a", b"abc"), &Err(ShelfFault::Memory));
    same(&rt, &(shelf.failed_fetches, shelf.failed_puts), &(0, 0));
    Ok(())
}

/// A command line of these words.
#[derive(Drop)]
struct Line<'a> {
    words: &'a [&'a [u8]],
}

impl<'a> Env for Line<'a> {
    fn arg(&self, i: usize, buf: &mut [u8]) -> Result<usize, FillError> {
        let Some(word) = self.words.get(i) else {
            return Err(FillError::NotPresent);
        };
        if word.len() > buf.len() {
            return Err(FillError::TooLong);
        }
        buf[..word.len()].copy_from_slice(word);
        Ok(word.len())
    }

    fn var(&self, _name: &str, _buf: &mut [u8]) -> Result<usize, FillError> {
        Err(FillError::NotPresent)
    }

    fn var_at(&self, _i: usize, _buf: &mut [u8]) -> Result<usize, FillError> {
        Err(FillError::NotPresent)
    }
}

/// The words behind the program's name of such a command line.
fn line_row(
    rt: &(impl Abort + AllocGlobal),
    words: &[&[u8]],
    wanted: &[&str],
) -> Result<(), AllocError> {
    let given = words_given(&(Line { words }, rt.alloc()))?;
    holds(
        rt,
        given
            .iter()
            .map(|word| word.as_str())
            .eq(wanted.iter().copied()),
    );
    Ok(())
}

#[test]
fn words_stand_behind_the_name(rt: HostRuntime) -> Result<(), Fail> {
    line_row(&rt, &[b"trio", b"check", b"--at"], &["check", "--at"])?;
    line_row(&rt, &[b"trio"], &[])?;
    line_row(&rt, &[], &[])?;
    line_row(&rt, &[b"trio", b"a", b"\xff"], &[])?;
    Ok(())
}

/// Takes at most so many bytes at a time, and keeps the last eight of them as the digits of a number.
#[derive(Drop)]
struct Printer {
    most: usize,
    taken: Cell<u64>,
}

impl Print for Printer {
    fn print<D: Display + Drop>(&self, _value: D) -> io::Result<()> {
        Ok(())
    }

    fn println<D: Display + Drop>(&self, _value: D) -> io::Result<()> {
        Ok(())
    }

    fn write_all(&self, _bytes: &[u8]) -> io::Result<()> {
        Ok(())
    }

    fn write_some(&self, bytes: &[u8]) -> io::Result<usize> {
        let count = bytes.len().min(self.most);
        for byte in &bytes[..count] {
            let digit = *byte as u64;
            self.taken
                .set(self.taken.get().wrapping_mul(256).wrapping_add(digit));
        }
        Ok(count)
    }
}

/// What is written of `abc` to a printer that takes so many bytes at a time: the answer, the bytes as a number, and the faults.
fn printed(most: usize) -> (Result<(), SinkFault>, u64, u64) {
    let printer = Printer {
        most,
        taken: Cell::new(0),
    };
    let mut sink = OutSink::new(&printer);
    let answer = write_whole(&mut sink, b"abc");
    let faults = sink.faults;
    (answer, printer.taken.get(), faults)
}

#[test]
fn printers_take_pieces(rt: HostRuntime) {
    same(&rt, &printed(9), &(Ok(()), 0x616263, 0));
    same(&rt, &printed(2), &(Ok(()), 0x616263, 0));
    same(&rt, &printed(1), &(Ok(()), 0x616263, 0));
    same(&rt, &printed(0), &(Err(SinkFault::Failed), 0, 1));
}

#[test]
fn standard_output_takes_all(rt: HostRuntime) {
    let mut sink = OutSink::new(&rt);
    same(&rt, &sink.write(b""), &Ok(0));
    same(&rt, &write_whole(&mut sink, b"written\n"), &Ok(()));
    same(&rt, &sink.faults, &0);
}

/// The answer to pieces of which the write of this number, from 1, fails, and what is written then.
fn pieces_row(
    rt: &(impl Abort + AllocGlobal),
    failing: u64,
    answer: Result<(), SinkFault>,
    written: &str,
) -> Result<(), AllocError> {
    let mut sink = MemSink::new(rt.alloc(), 9, 9, counts(rt.alloc(), &[failing])?)?;
    same(rt, &write_pieces(&mut sink, &["ab", "", "cde"]), &answer);
    same(rt, &sink.written(), &written.as_bytes());
    Ok(())
}

#[test]
fn pieces_go_out_in_order(rt: HostRuntime) -> Result<(), Fail> {
    same(
        &rt,
        &write_pieces(&mut SureSink::new(), &["a", "b"]),
        &Ok(()),
    );
    pieces_row(&rt, 0, Ok(()), "abcde")?;
    pieces_row(&rt, 1, Err(SinkFault::Failed), "")?;
    pieces_row(&rt, 2, Err(SinkFault::Failed), "ab")?;
    pieces_row(&rt, 3, Ok(()), "abcde")?;
    Ok(())
}
