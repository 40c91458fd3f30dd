//! Why a text is no history.
use std::alloc::AllocError;
use thiserror::Error;

/// Why a text is no history of a specification. Bytes count from 0, lines and columns from 1, rows from 0 by items and tuples of arguments.
#[derive(Clone, Copy, Debug, Error)]
pub enum HistFault {
    /// The first byte outside blanks and comments that begins no token; looked for in the whole text first.
    #[error("byte {0} begins no token")]
    Lex(u64),
    /// The line has tokens and is no row.
    #[error("line {0} is no row")]
    Syntax(u64),
    /// The line's name is no item, or its arguments are not a tuple of the item's domains.
    #[error("line {0} is the row of no item")]
    UnknownRow(u64),
    /// An earlier line is the same row.
    #[error("line {0} repeats a row")]
    TwiceRow(u64),
    /// The line has more or fewer values than there are instants.
    #[error("line {0} has not one value for each instant")]
    Length(u64),
    /// The value at this line and column is neither `?` nor in the item's domain.
    #[error("value {1} of line {0} is not in its domain")]
    Value(u64, u64),
    /// No line is the row of this number; looked for last.
    #[error("row {0} is missing")]
    MissingRow(u32),
    /// Want of memory.
    #[error("out of memory")]
    Memory,
}

impl From<AllocError> for HistFault {
    ghost use Rattle.std.specs.Prelude.{◌≡◌};
    ghost use Rattle.history_table.specs.declared.fault.HistFault.TheVariants.{Memory};

    ghost from_gives = { λ _ e. e ≡ Memory };

    fn from(_error: AllocError) -> HistFault {
        HistFault::Memory
    }
}
