//! A shelf and a sink whose calls never fail: their counts of failures are the constant 0.
ghost use Rattle.std.specs.Prelude.{◌≡◌, ℕ, List, IfOk};
ghost use Rattle.trio_io.specs.MemoryShelf.{files_of, sure_seen};
ghost use Rattle.trio_io.specs.Outside.{raised};

use crate::files::Files;
use crate::shelf::{Shelf, ShelfFault};
use crate::sink::{Sink, SinkFault};
use std::alloc::{AllocError, Global};

/// Files in memory, which it tells. It counts absences; its other counts are 0.
#[derive(Drop)]
pub struct SureShelf {
    files: Files,
    pub(crate) absences: u64,
}

impl SureShelf {
    /// A shelf of these files. Only want of memory refuses it.
    pub fn new(_alloc: Global, files: Files) -> Result<SureShelf, AllocError>
        ensures files { IfOk result (λ shelf. (n : List ℕ) → (sure_seen shelf).file n ≡ files_of files n) }
        ensures absences { IfOk result (λ shelf. shelf.absences ≡ 0) }
    {
        Ok(SureShelf { files, absences: 0 })
    }
}

impl Shelf for SureShelf {
    ghost seen = { sure_seen };

    fn fetch(&mut self, name: &str, max: u64, into: &mut Vec<u8>) -> Result<(), ShelfFault> {
        match self.files.get(name) {
            None => {
                self.absences = self.absences.saturating_add(1);
                Err(ShelfFault::Failed)
            }
            Some(bytes) if bytes.len() as u64 > max => Err(ShelfFault::TooLong),
            Some(bytes) => match into.extend_from_slice(bytes) {
                Ok(()) => Ok(()),
                Err(_) => Err(ShelfFault::Memory),
            },
        }
    }

    fn put(&mut self, name: &str, bytes: &[u8]) -> Result<(), ShelfFault> {
        match self.files.push(name, bytes) {
            Ok(()) => Ok(()),
            Err(_) => Err(ShelfFault::Memory),
        }
    }
}

/// Takes every piece whole, and neither keeps nor tells it.
#[derive(Clone, Copy)]
pub struct SureSink {}

impl SureSink {
    ghost use Rattle.trio_io.specs.MemorySink.{unseen};

    /// The sink. It takes no memory.
    pub fn new() -> SureSink {
        SureSink {}
    }
}

impl Sink for SureSink {
    ghost use Rattle.trio_io.specs.MemorySink.{unseen};

    ghost seen = { λ _. unseen };

    fn write(&mut self, piece: &[u8]) -> Result<usize, SinkFault> {
        Ok(piece.len())
    }
}
