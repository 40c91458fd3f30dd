//! Where the reader stands in a list of tokens.
ghost use Rattle.std.specs.Prelude.{ℕ, ◌+◌, ◌<◌, ◌^◌, length};

use std::alloc::Global;
use trio_text::Lexeme;

/// A place in a list of tokens: what is left to read, and how many tokens stand before it.
#[derive(Drop)]
pub struct Parser<'a> {
    pub alloc: Global,
    pub rest: &'a [Lexeme],
    pub at: usize,
    ghost fits: { at + length rest.now < 2 ^ 64 },
}
