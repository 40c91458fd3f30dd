//! Why a text is no specification.

use std::alloc::AllocError;
use trio_types::Which;

/// Why a text is no specification: the phases in their order, each over the whole text. The first that finds a fault reports its first
/// place: a byte from 0 for `Lex`, the number of a token from 0 for the others but `Limit`.
#[derive(Clone, Copy, Debug)]
pub enum SpecFault {
    /// A byte that begins no token.
    Lex(u64),
    /// A `(` or `[` with which more than 100 are open.
    Deep(u64),
    /// The first token such that no text of the grammar begins with the tokens up to and including it; their number where the text stops
    /// too early.
    Syntax(u64),
    /// A name that is used and not declared before.
    Unknown(u64),
    /// A name that is declared twice.
    Twice(u64),
    /// A use of a wrong kind.
    Kind(u64),
    /// A number, word or argument that is out of range.
    Range(u64),
    /// A count that is above its limit, and the count, where 64 bits hold it, and else the greatest number that they hold.
    Limit(Which, u64),
    /// Want of memory.
    Memory,
}

impl From<AllocError> for SpecFault {
    ghost use Rattle.std.specs.Prelude.{◌≡◌};
    ghost use Rattle.trio_reader.specs.declared.fault.SpecFault.TheVariants.{Memory};

    ghost from_gives = { λ _ e. e ≡ Memory };

    fn from(_error: AllocError) -> SpecFault {
        SpecFault::Memory
    }
}
