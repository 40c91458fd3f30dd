//! A shelf in memory, which tells all that it holds.
ghost use Rattle.std.specs.Prelude.{◌≡◌, ◌≢◌, ◌⊎◌, ℕ, ◌<◌, Bool, true, false, List, length, IsSomeAnd, IfOk, OnOk, OnErr};
ghost use Rattle.std.specs.Option.{option_map};
ghost use Rattle.trio_io.specs.Outside.{OnlyReads, IsLater, SameFaults, Fetched, HasFetchCause, Holds, IsLonger, Rose};
ghost use Rattle.trio_io.specs.MemoryShelf.{files_of, mem_files, mem_counts, mem_seen, mem_fails, fetch_counts, fetch_answer, put_counts, put_answer};

use crate::files::{Counts, Files};
use crate::shelf::{Shelf, ShelfFault};
use std::alloc::{AllocError, Global};

/// Files in memory. The calls whose numbers, counted from 1, are among `failing` fail.
#[derive(Drop)]
pub struct MemShelf {
    files: Files,
    failing: Counts,
    pub(crate) absences: u64,
    pub(crate) failed_fetches: u64,
    pub(crate) failed_puts: u64,
    pub(crate) calls: u64,
}

impl MemShelf {
    /// A shelf of these files, with all counts at 0. Only want of memory refuses it.
    pub fn new(_alloc: Global, files: Files, failing: Counts) -> Result<MemShelf, AllocError>
        ensures files { IfOk result (λ shelf. (n : List ℕ) → mem_files shelf n ≡ files_of files n) }
        ensures failing { IfOk result (λ shelf. shelf.failing ≡ failing) }
        ensures counts { IfOk result (λ shelf. mem_counts shelf ≡ record { absences = 0; failed_fetches = 0; failed_puts = 0; calls = 0 }) }
    {
        Ok(MemShelf {
            files,
            failing,
            absences: 0,
            failed_fetches: 0,
            failed_puts: 0,
            calls: 0,
        })
    }

    /// The bytes of the file of this name, where there is one. It is no call that counts.
    pub fn file(&self, name: &str) -> Option<&[u8]>
        ensures { option_map (λ bytes. bytes.now) result ≡ mem_files self.now name.now }
    {
        self.files.get(name)
    }

    /// Counts a call, and answers whether it is to fail.
    fn begin(&mut self) -> bool
        ensures fails { result ≡ mem_fails self.old }
        ensures files { self.new.files ≡ self.old.files }
        ensures failing { self.new.failing ≡ self.old.failing }
        ensures counts { mem_counts self.new ≡ put_counts false (mem_counts self.old) }
        ensures later { IsLater 1 (mem_counts self.old) (mem_counts self.new) }
    {
        self.calls = self.calls.saturating_add(1);
        self.failing.as_slice().contains(&self.calls)
    }
}

impl Shelf for MemShelf {
    ghost seen = { mem_seen };

    fn fetch(&mut self, name: &str, max: u64, into: &mut Vec<u8>) -> Result<(), ShelfFault>
        ensures reads { OnlyReads 1 (mem_seen self.old) (mem_seen self.new) }
        ensures ok { OnOk result (Fetched (mem_seen self.old) name.now max into.old.items into.new.items) }
        ensures calm { result ≢ Err ShelfFault.Failed → SameFaults (mem_counts self.old) (mem_counts self.new) }
        ensures failed { result ≡ Err ShelfFault.Failed → HasFetchCause (mem_seen self.old) (mem_seen self.new) name.now }
        ensures long { result ≡ Err ShelfFault.TooLong → IsLonger (mem_seen self.old) name.now max }
        ensures err { OnErr result (into.new.items ≡ into.old.items) }
        ensures answer { (result ≡ fetch_answer (mem_fails self.old) (mem_files self.old name.now) max) ⊎ (result ≡ Err ShelfFault.Memory) }
        ensures counted { mem_counts self.new ≡ fetch_counts (mem_fails self.old) (mem_files self.old name.now) (mem_counts self.old) }
        ensures failing { self.new.failing ≡ self.old.failing }
    {
        if self.begin() {
            self.failed_fetches = self.failed_fetches.saturating_add(1);
            return Err(ShelfFault::Failed);
        }
        match self.files.get(name) {
            None => {
                self.absences = self.absences.saturating_add(1);
                Err(ShelfFault::Failed)
            }
            Some(bytes) if bytes.len() as u64 > max => Err(ShelfFault::TooLong),
            Some(bytes) => match into.extend_from_slice(bytes) {
                Ok(()) => Ok(()),
                Err(_) => Err(ShelfFault::Memory),
            },
        }
    }

    fn put(&mut self, name: &str, bytes: &[u8]) -> Result<(), ShelfFault>
        ensures later { IsLater 1 (mem_counts self.old) (mem_counts self.new) }
        ensures others { (n : List ℕ) → n ≢ name.now → mem_files self.new n ≡ mem_files self.old n }
        ensures ok { OnOk result (Holds (mem_seen self.new) name.now (Some bytes.now)) }
        ensures calm { result ≢ Err ShelfFault.Failed → SameFaults (mem_counts self.old) (mem_counts self.new) }
        ensures failed { result ≡ Err ShelfFault.Failed → Rose (mem_counts self.old).failed_puts (mem_counts self.new).failed_puts }
        ensures long { result ≢ Err ShelfFault.TooLong }
        ensures kept { OnErr result ((n : List ℕ) → mem_files self.new n ≡ mem_files self.old n) }
        ensures answer { (result ≡ put_answer (mem_fails self.old)) ⊎ (result ≡ Err ShelfFault.Memory) }
        ensures counted { mem_counts self.new ≡ put_counts (mem_fails self.old) (mem_counts self.old) }
        ensures failing { self.new.failing ≡ self.old.failing }
    {
        if self.begin() {
            self.failed_puts = self.failed_puts.saturating_add(1);
            return Err(ShelfFault::Failed);
        }
        match self.files.push(name, bytes) {
            Ok(()) => Ok(()),
            Err(_) => Err(ShelfFault::Memory),
        }
    }
}
