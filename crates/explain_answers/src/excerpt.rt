//! The line of a text in which something stands, with a mark under it.
ghost use Rattle.std.specs.Prelude.{◌≡◌, ◌++◌, ◌∷◌, [], length, take, drop, take_while, not, ◌||◌, ◌==◌, ◌≤◌, map, codes, decimal, IfOk, OnOk};
ghost use Rattle.explain_answers.specs.Place.{line_behind, column_behind};
ghost use Rattle.explain_answers.specs.Excerpt.{place_words, shown, blank, line_so_far, rest_of_line, excerpt};
ghost use Rattle.explain_answers.specs.Said.{said_at};

use crate::place::{column_behind, parted, place_of};
use crate::source::Source;
use crate::writing::{put, put_number};
use std::alloc::{AllocError, Global};

/// The place of the byte of this number, a sentence, and the line of the text with a mark under the byte.
pub fn said_at(
    alloc: Global,
    source: Source<'_>,
    byte: usize,
    sentence: &[u8],
) -> Result<Vec<u8>, AllocError>
    ensures { IfOk result (λ words. words.items ≡ said_at source.entry.file.now source.entry.text.now byte sentence.now) }
{
    let mut words = Vec::new(alloc);
    put_place(&mut words, source, byte)?;
    words.extend_from_slice(sentence)?;
    put(&mut words, "\n")?;
    put_excerpt(&mut words, source.text, byte)?;
    Ok(words)
}

/// Puts `FILE:LINE:COLUMN: ` for the byte of this number.
pub fn put_place(out: &mut Vec<u8>, source: Source<'_>, byte: usize) -> Result<(), AllocError>
    ensures { OnOk result (out.new.items ≡ out.old.items ++ place_words source.entry.file.now source.entry.text.now byte) }
{
    let place = place_of(source.text, byte);
    put(out, source.file)?;
    put(out, ":")?;
    put_number(out, place.line as u64)?;
    put(out, ":")?;
    put_number(out, place.column as u64)?;
    put(out, ": ")
}

/// Puts `line L, column C` for the byte of this number.
pub fn put_line_and_column(
    out: &mut Vec<u8>,
    source: Source<'_>,
    byte: usize,
) -> Result<(), AllocError>
    ensures { OnOk result (out.new.items ≡ out.old.items ++ codes "line " ++ decimal (line_behind (take byte source.entry.text.now))
        ++ codes ", column " ++ decimal (column_behind (take byte source.entry.text.now))) }
{
    let place = place_of(source.text, byte);
    put(out, "line ")?;
    put_number(out, place.line as u64)?;
    put(out, ", column ")?;
    put_number(out, place.column as u64)
}

/// Puts the line of a text in which the byte of this number stands, and a line with a caret under it. Of a long line the part round the byte
/// is shown.
pub fn put_excerpt(out: &mut Vec<u8>, text: &[u8], byte: usize) -> Result<(), AllocError>
    ensures { OnOk result (out.new.items ≡ out.old.items ++ excerpt text.now byte) }
{
    let (front, behind) = parted(text, byte);
    let before = line_so_far(front);
    put_shown(out, before)?;
    put_shown(out, rest_of_line(behind))?;
    put(out, "\n")?;
    put_blanks(out, before)?;
    put(out, "^\n")
}

/// The last bytes of a text that stand on one line, at most 60.
fn line_so_far(text: &[u8]) -> &[u8]
    ensures { result.now ≡ line_so_far text.now }
{
    let count = (column_behind(text) - 1).min(60);
    &text[text.len() - count..]
}

/// The bytes from the front on that stand on one line, at most 40.
fn rest_of_line(text: &[u8]) -> &[u8]
    ensures { result.now ≡ rest_of_line text.now }
{
    parted(line_of(text), 40).0
}

/// The bytes from the front on that stand on one line.
fn line_of(text: &[u8]) -> &[u8]
    ensures { result.now ≡ take_while (λ b. not (b == 10 || b == 13)) text.now }
{
    parted(text, line_length(text)).0
}

/// How many bytes stand before the first LF or CR, or in all.
fn line_length(text: &[u8]) -> usize
    ensures { result ≡ length (take_while (λ b. not (b == 10 || b == 13)) text.now) }
{
    text.iter()
        .take_while(|byte| !(**byte == b'\n' || **byte == b'\r'))
        .count()
}

/// Puts bytes, with `?` for those that steer a terminal.
fn put_shown(out: &mut Vec<u8>, bytes: &[u8]) -> Result<(), AllocError>
    ensures { OnOk result (out.new.items ≡ out.old.items ++ map shown bytes.now) }
{
    for byte in bytes {
        out.push(shown(*byte))?;
    }
    Ok(())
}

fn shown(byte: u8) -> u8
    ensures { result ≡ shown byte }
{
    if byte < 32 && byte != b'\t' || byte == 127 {
        b'?'
    } else {
        byte
    }
}

/// Puts what is as wide as these bytes: a tab for a tab, a blank for every other character.
fn put_blanks(out: &mut Vec<u8>, bytes: &[u8]) -> Result<(), AllocError>
    ensures { OnOk result (out.new.items ≡ out.old.items ++ map blank bytes.now) }
{
    for byte in bytes {
        out.push(blank(*byte))?;
    }
    Ok(())
}

/// What is as wide as a byte. Bytes outside ASCII stand in comments alone, which end their lines, so none comes before a place on its line.
fn blank(byte: u8) -> u8
    ensures { result ≡ blank byte }
{
    if byte == b'\t' { b'\t' } else { b' ' }
}
