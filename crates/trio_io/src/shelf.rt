//! A shelf of files, reached by name.
ghost use Rattle.std.specs.Prelude.{◌≡◌, ◌≢◌, ℕ, List, OnOk, OnErr};
ghost use Rattle.trio_io.specs.Outside.{ShelfView, IsLater, SameFaults, OnlyReads, Holds, IsLonger, Fetched, HasFetchCause, Rose};

/// Why a shelf refused.
#[derive(Clone, Copy, Debug, PartialEq, Eq)]
pub enum ShelfFault {
    /// There is no such file, or it could not be read or written.
    Failed,
    /// The file is longer than the caller allows.
    TooLong,
    /// Want of memory.
    Memory,
}

/// Files by name.
pub trait Shelf {
    /// Whether the shelf tells which files it holds; the bytes of the file under each name, where there is one; the counts of absences, failed
    /// fetches, failed puts and calls, of which none ever falls. One that stands at the last value of its 64 bits stays there.
    ghost seen: { Self → ShelfView };

    /// Appends the bytes of the file to `into`, where there are at most `max`; a refused fetch leaves `into` as it was.
    fn fetch(&mut self, name: &str, max: u64, into: &mut Vec<u8>) -> Result<(), ShelfFault>
        ensures reads { OnlyReads 1 (seen self.old) (seen self.new) }
        ensures ok { OnOk result (Fetched (seen self.old) name.now max into.old.items into.new.items) }
        ensures calm { result ≢ Err ShelfFault.Failed → SameFaults (seen self.old).counts (seen self.new).counts }
        ensures failed { result ≡ Err ShelfFault.Failed → HasFetchCause (seen self.old) (seen self.new) name.now }
        ensures long { result ≡ Err ShelfFault.TooLong → IsLonger (seen self.old) name.now max }
        ensures err { OnErr result (into.new.items ≡ into.old.items) };

    /// Replaces the file of this name, or makes it. After a refused put only the other files are known.
    fn put(&mut self, name: &str, bytes: &[u8]) -> Result<(), ShelfFault>
        ensures later { IsLater 1 (seen self.old).counts (seen self.new).counts }
        ensures still { (seen self.new).tells ≡ (seen self.old).tells }
        ensures others { (n : List ℕ) → n ≢ name.now → (seen self.new).file n ≡ (seen self.old).file n }
        ensures ok { OnOk result (Holds (seen self.new) name.now (Some bytes.now)) }
        ensures calm { result ≢ Err ShelfFault.Failed → SameFaults (seen self.old).counts (seen self.new).counts }
        ensures failed { result ≡ Err ShelfFault.Failed → Rose (seen self.old).counts.failed_puts (seen self.new).counts.failed_puts }
        ensures long { result ≢ Err ShelfFault.TooLong };
}
