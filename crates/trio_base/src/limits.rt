//! The limits of specifications and of texts, each once: definitions and code name them.

/// The most instants that time has; it has one at least.
pub const MOST_INSTANTS: u32 = 256;

/// The most values that a domain has; it has one at least.
pub const MOST_VALUES: u32 = 64;

/// The most arguments that an item has.
pub const MOST_ARGUMENTS: u32 = 4;

/// The greatest number that is written in the text of a specification.
pub const GREATEST_NUMBER: u32 = 1_000_000;

/// The most items of a specification.
pub const MOST_ITEMS: u32 = 256;

/// The most cells of a specification.
pub const MOST_CELLS: u32 = 1024;

/// The greatest sum of the numbers of values of all cells.
pub const MOST_SIZES: u32 = 4096;

/// The greatest static bound of a term.
pub const GREATEST_BOUND: u64 = 1_000_000_000_000;

/// The greatest instance count of a specification.
pub const MOST_INSTANCES: u32 = 1_000_000;

/// The most brackets `(` and `[` that are open at a token of a text, and of a canonical text.
pub const MOST_OPEN: u32 = 100;

/// The most bytes of a text of a specification.
pub const MOST_SPEC_BYTES: u64 = 262_144;

/// The most bytes of a text of a history.
pub const MOST_HISTORY_BYTES: u64 = 1_048_576;
