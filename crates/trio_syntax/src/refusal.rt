//! Why a part of a text was not read.
use std::alloc::AllocError;

/// Why a part of a text was not read. The parser then stands where no text of the part goes on.
#[derive(Clone, Copy)]
pub enum Refusal {
    /// The next token, or the end of the text, goes on with no text of the part.
    Syntax,
    /// Want of memory.
    Memory,
}

impl From<AllocError> for Refusal {
    ghost use Rattle.std.specs.Prelude.{◌≡◌};
    ghost use Rattle.trio_syntax.specs.declared.refusal.Refusal.TheVariants.{Memory};

    ghost from_gives = { λ _ e. e ≡ Memory };

    fn from(_error: AllocError) -> Refusal {
        Refusal::Memory
    }
}
