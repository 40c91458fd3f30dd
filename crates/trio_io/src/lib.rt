//! What the program reaches outside itself: shelves of files, sinks for text, bells. Each is a trait, with forms of it
//! in memory that tell all they hold, and adapters over the real thing that tell nothing of content.
#![tactic(auto)]

mod bell;
mod file_shelf;
mod files;
mod laws;
mod memory_shelf;
mod memory_sink;
mod out_sink;
mod shelf;
mod sink;
mod sure;
mod words;

pub use bell::{Bell, StillBell};
pub use file_shelf::FileShelf;
pub use files::{Counts, Files};
pub use laws::{
    bells_ring_armed_and_counted, calm_counts_stand_as_before, count_that_rose_is_greater,
    failed_write_is_not_whole, greater_count_rose, told_files_are_the_files,
    whole_write_counted_no_fault, written_bytes_stand_behind, written_front_stands_behind,
};
pub use memory_shelf::MemShelf;
pub use memory_sink::MemSink;
pub use out_sink::OutSink;
pub use shelf::{Shelf, ShelfFault};
pub use sink::{Sink, SinkFault, write_pieces, write_whole};
pub use sure::{SureShelf, SureSink};
pub use words::{is_file_name, words_given};

#[cfg(test)]
mod tests;
