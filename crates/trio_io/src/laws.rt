//! What the words of the contracts mean, in plain words.
ghost use Rattle.std.specs.Prelude.{◌≡◌, ◌≢◌, ◌↔◌, ℕ, ◌+◌, ◌<◌, ◌≤◌, ◌-◌, ◌^◌, ◌++◌, Bool, List, Option, None, Some, Result, Ok, length, true};
ghost use Rattle.trio_io.specs.Outside.{Rose, ShelfCounts, SameFaults, ShelfView, Holds, IsLonger, SinkView, Writes, WritesFront, WritesPart, Wrote, BellView, Asked};

/// A count that rose is greater than before, but for one that stood at the last value of its 64 bits.
pub fn count_that_rose_is_greater()
    ensures { (before now : ℕ) → before < 2 ^ 64 - 1 → Rose before now → before < now }
{}

/// A count that got greater rose.
pub fn greater_count_rose()
    ensures { (before now : ℕ) → before < now → Rose before now }
{}

/// A sink that tells has what it had, and behind it the bytes that were written.
pub fn written_bytes_stand_behind()
    ensures { (before now : SinkView) (bytes : List ℕ) → before.tells ≡ true → Writes before now bytes → now.written ≡ before.written ++ bytes }
{}

/// A sink that tells has what it had, and behind it the bytes up to a rest.
pub fn written_front_stands_behind()
    ensures { (before now : SinkView) (bytes : List ℕ) → before.tells ≡ true → (part : WritesFront before now bytes) → now.written ++ part.rest ≡ before.written ++ bytes }
{}

/// After a write that failed, the count of faults rose, and what a sink that tells has is not all of the bytes behind what it had.
pub fn failed_write_is_not_whole()
    ensures counted { (before now : SinkView) (bytes : List ℕ) → WritesPart before now bytes → Rose before.faults now.faults }
    ensures unfinished { (before now : SinkView) (bytes : List ℕ) → before.tells ≡ true → WritesPart before now bytes → now.written ≢ before.written ++ bytes }
{}

/// A whole write counted no fault, and a sink that tells has what it had, and behind it the bytes.
pub fn whole_write_counted_no_fault()
    ensures calm { (before now : SinkView) (bytes : List ℕ) → Wrote before now bytes (Ok tt) → now.faults ≡ before.faults }
    ensures written { (before now : SinkView) (bytes : List ℕ) → before.tells ≡ true → Wrote before now bytes (Ok tt) → now.written ≡ before.written ++ bytes }
{}

/// Where no fault was counted, the counts of absences, failed fetches and failed puts stand as before.
pub fn calm_counts_stand_as_before()
    ensures { (before now : ShelfCounts) → SameFaults before now ↔
        ((now.absences ≡ before.absences) × (now.failed_fetches ≡ before.failed_fetches) × (now.failed_puts ≡ before.failed_puts)) }
{}

/// A bell that is not armed does not ring. The count of rings rises just where it rings, and that of quiet asks by one at most.
pub fn bells_ring_armed_and_counted()
    ensures armed { (before now : BellView) → before.armed ≡ None → Asked true before now → ⊥ }
    ensures counted { (answer : Bool) (before now : BellView) → Asked answer before now
        → (before.rings ≤ now.rings) × ((answer ≡ true) ↔ (before.rings < now.rings)) }
    ensures quiet { (answer : Bool) (before now : BellView) → Asked answer before now → (before.quiet ≤ now.quiet) × (now.quiet ≤ before.quiet + 1) }
{}

/// Where a shelf tells its files, what is said to stand under a name does, and a file that is said to be longer is.
pub fn told_files_are_the_files()
    ensures holds { (shelf : ShelfView) (name : List ℕ) (file : Option (List ℕ)) → shelf.tells ≡ true → Holds shelf name file ↔ (shelf.file name ≡ file) }
    ensures longer { (shelf : ShelfView) (name : List ℕ) (max : ℕ) → shelf.tells ≡ true
        → IsLonger shelf name max ↔ ((bytes : List ℕ) × (shelf.file name ≡ Some bytes) × (max < length bytes)) }
{}
