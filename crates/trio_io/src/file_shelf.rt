//! The shelf of the real files. It tells nothing of what they hold.
ghost use Rattle.std.specs.Prelude.{◌≡◌, ◌≢◌, ◌++◌, ◌<◌, false, List, ℕ, length, IfErr, IfSome, IsOkAnd, OnOk, OnErr};
ghost use Rattle.std.specs.IoError.{error_kind};
ghost use Rattle.trio_io.specs.Outside.{ShelfView, Fetched};
ghost use Rattle.trio_io.specs.RealShelf.{untold};

use crate::shelf::{Shelf, ShelfFault};
use std::fs::File;
use std::io::{ErrorKind, Read};
use std::rt::Files;
use std::{fs, io};

/// The files that the runtime reaches. It counts each failed fetch, also of a file that is not there, and each failed
/// put; its other counts stay 0.
#[derive(Drop)]
pub struct FileShelf<'a, R: Files> {
    rt: &'a R,
    pub(crate) failed_fetches: u64,
    pub(crate) failed_puts: u64,
}

impl<'a, R: Files> FileShelf<'a, R> {
    /// A shelf over this runtime.
    pub fn new(rt: &'a R) -> FileShelf<'a, R>
        ensures { (result.failed_fetches ≡ 0) × (result.failed_puts ≡ 0) }
    {
        FileShelf {
            rt,
            failed_fetches: 0,
            failed_puts: 0,
        }
    }
}

impl<'a, R: Files> Shelf for FileShelf<'a, R> {
    ghost seen = { λ shelf. untold shelf.failed_fetches shelf.failed_puts };

    fn fetch(&mut self, name: &str, max: u64, into: &mut Vec<u8>) -> Result<(), ShelfFault> {
        let read = read_up_to(File::open(self.rt, name), max, into);
        if let Err(ShelfFault::Failed) = read {
            self.failed_fetches = self.failed_fetches.saturating_add(1);
        }
        read
    }

    fn put(&mut self, name: &str, bytes: &[u8]) -> Result<(), ShelfFault> {
        let put = fs::write(self.rt, name, bytes).map_err(|error| shelf_fault(&error));
        if let Err(ShelfFault::Failed) = put {
            self.failed_puts = self.failed_puts.saturating_add(1);
        }
        put
    }
}

/// What an error of the runtime is to a shelf: want of memory, or a failure.
fn shelf_fault(error: &io::Error) -> ShelfFault
    ensures memory { error_kind error.now ≡ ErrorKind.OutOfMemory → result ≡ ShelfFault.Memory }
    ensures failed { error_kind error.now ≢ ErrorKind.OutOfMemory → result ≡ ShelfFault.Failed }
    ensures short { result ≢ ShelfFault.TooLong }
{
    if error.kind() == ErrorKind::OutOfMemory {
        ShelfFault::Memory
    } else {
        ShelfFault::Failed
    }
}

/// Appends all that an opened reader has left, where that is at most `max` bytes. What could not be opened fails, or wants memory.
fn read_up_to<R: Read + Drop>(
    opened: io::Result<R>,
    max: u64,
    into: &mut Vec<u8>,
) -> Result<(), ShelfFault>
    ensures ok { OnOk result ((shelf : ShelfView) (name : List ℕ) → shelf.tells ≡ false → Fetched shelf name max into.old.items into.new.items) }
    ensures told { OnOk result (IsOkAnd opened (λ reader. IfSome (R.remaining reader) (λ bytes. into.new.items ≡ into.old.items ++ bytes))) }
    ensures long { result ≡ Err ShelfFault.TooLong → IsOkAnd opened (λ reader. IfSome (R.remaining reader) (λ bytes. max < length bytes)) }
    ensures wants { IfErr opened (λ error. error_kind error ≡ ErrorKind.OutOfMemory → result ≡ Err ShelfFault.Memory) }
    ensures unopened { IfErr opened (λ error. error_kind error ≢ ErrorKind.OutOfMemory → result ≡ Err ShelfFault.Failed) }
    ensures err { OnErr result (into.new.items ≡ into.old.items) }
{
    let reader = match opened {
        Ok(reader) => reader,
        Err(error) => return Err(shelf_fault(&error)),
    };
    let start = into.len();
    let fault = match reader.take(max.saturating_add(1)).read_to_end(into) {
        Ok(count) if count as u64 <= max => return Ok(()),
        Ok(_) => ShelfFault::TooLong,
        Err(error) => shelf_fault(&error),
    };
    into.truncate(start);
    Err(fault)
}
