//! The line and the column of a byte.
ghost use Rattle.std.specs.Prelude.{◌≡◌, ◌≤◌, ◌+◌, ◌==◌, not, take, drop, take_while, length, reverse};
ghost use Rattle.std.specs.List.{filter};
ghost use Rattle.explain_answers.specs.Place.{line_behind, column_behind};

/// Where a byte stands, both counted from 1; columns count bytes.
#[derive(Clone, Copy)]
pub struct Place {
    pub line: usize,
    pub column: usize,
}

/// The place of the byte of this number, from 0: its line is one more than the LFs before it, its column one more than the bytes since the
/// last of them. A number that is no byte's stands for the end of the text.
pub fn place_of(text: &[u8], byte: usize) -> Place
    ensures line { result.line ≡ line_behind (take byte text.now) }
    ensures column { result.column ≡ column_behind (take byte text.now) }
{
    let front = parted(text, byte).0;
    Place {
        line: line_behind(front),
        column: column_behind(front),
    }
}

/// The first bytes of a text, so many or all, and those behind them.
pub fn parted(text: &[u8], count: usize) -> (&[u8], &[u8])
    ensures front { result.0.now ≡ take count text.now }
    ensures behind { result.1.now ≡ drop count text.now }
{
    if count < text.len() {
        text.split_at(count)
    } else {
        (text, b"")
    }
}

/// One more than the LFs.
fn line_behind(text: &[u8]) -> usize
    ensures { result ≡ line_behind text.now }
{
    line_ends(text) + 1
}

/// One more than the bytes behind the last LF, or in all.
pub fn column_behind(text: &[u8]) -> usize
    ensures is { result ≡ column_behind text.now }
    ensures within { result ≤ length text.now + 1 }
{
    last_line_length(text) + 1
}

fn line_ends(text: &[u8]) -> usize
    ensures count { result ≡ length (filter (λ b. b == 10) text.now) }
    ensures few { result ≤ length text.now }
{
    text.iter().filter(|byte| **byte == b'\n').count()
}

/// How many bytes stand behind the last LF, or in all.
fn last_line_length(text: &[u8]) -> usize
    ensures count { result ≡ length (take_while (λ b. not (b == 10)) (reverse text.now)) }
    ensures few { result ≤ length text.now }
{
    text.iter().rev().take_while(|byte| **byte != b'\n').count()
}
