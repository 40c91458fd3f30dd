//! How many brackets are open.
ghost use Rattle.std.specs.Prelude.{◌≡◌, ◌+◌, ◌≤◌, ◌<◌, ◌^◌, length};
ghost use Rattle.trio_base.specs.declared.limits.TheConstants.{MOST_OPEN};
ghost use Rattle.trio_syntax.specs.Depth.{open_after, first_deep};

use trio_base::limits::MOST_OPEN;
use trio_text::{Lexeme, Symbol};

/// How many brackets are open behind this token, where this many are open before it.
fn open_after(opened: usize, token: &Lexeme) -> usize
    requires { opened ≤ MOST_OPEN }
    ensures { result ≡ open_after opened token.now }
{
    match token {
        Lexeme::Sign(Symbol::LeftRound | Symbol::LeftSquare) => opened + 1,
        Lexeme::Sign(Symbol::RightRound | Symbol::RightSquare) => opened.saturating_sub(1),
        _ => opened,
    }
}

/// The place of the first bracket with which too many are open.
pub fn first_deep(lexemes: &[Lexeme]) -> Option<usize>
    ensures { result ≡ first_deep lexemes.now }
{
    let mut opened = 0;
    for (place, lexeme) in lexemes.iter().enumerate() {
        opened = open_after(opened, lexeme);
        if opened > MOST_OPEN as usize {
            return Some(place);
        }
    }
    None
}
