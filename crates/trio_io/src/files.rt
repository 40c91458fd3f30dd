//! Files by name, and counts, as a caller makes them for the forms in memory.
ghost use Rattle.std.specs.Prelude.{◌≡◌, ◌≢◌, ℕ, List, OnOk, OnErr, Option};
ghost use Rattle.std.specs.Option.{option_map};
ghost use Rattle.trio_io.specs.MemoryShelf.{files_of};

use std::alloc::{AllocError, Global};
use std::collections::BTreeMap;

/// A list of counts, as the numbers of the calls that are to fail.
pub type Counts = trio_base::List<u64>;

/// Names, each with the bytes of its file.
#[derive(Drop)]
pub struct Files {
    alloc: Global,
    entries: BTreeMap<String, Vec<u8>>,
}

impl Files {
    /// No files. It takes no memory.
    pub fn new(alloc: Global) -> Files
        ensures { (n : List ℕ) → files_of result n ≡ None }
    {
        Files {
            alloc,
            entries: BTreeMap::new(alloc),
        }
    }

    /// Replaces the file of this name, or adds it. Only want of memory refuses it, and then all is as before.
    pub fn push(&mut self, name: &str, bytes: &[u8]) -> Result<(), AllocError>
        ensures ok { OnOk result (files_of self.new name.now ≡ Some bytes.now) }
        ensures others { (n : List ℕ) → n ≢ name.now → files_of self.new n ≡ files_of self.old n }
        ensures err { OnErr result ((n : List ℕ) → files_of self.new n ≡ files_of self.old n) }
    {
        let key = String::from_str(self.alloc, name)?;
        let value = Vec::from_slice(self.alloc, bytes)?;
        match self.entries.insert(key, value) {
            Ok(_) => Ok(()),
            Err(_) => Err(AllocError),
        }
    }

    /// The bytes of the file of this name, where there is one.
    pub fn get(&self, name: &str) -> Option<&[u8]>
        ensures { option_map (λ bytes. bytes.now) result ≡ files_of self.now name.now }
    {
        match self.entries.get(name) {
            Some(bytes) => Some(bytes.as_slice()),
            None => None,
        }
    }
}
