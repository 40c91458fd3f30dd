//! Words and numbers put behind a text.
ghost use Rattle.std.specs.Prelude.{◌≡◌, ◌++◌, decimal, OnOk};
ghost use Rattle.std.specs.List.{flat_map};

use itoa::Buffer;
use std::alloc::AllocError;

/// Puts a text behind another.
pub fn put(out: &mut Vec<u8>, words: &str) -> Result<(), AllocError>
    ensures { OnOk result (out.new.items ≡ out.old.items ++ words.now) }
{
    out.extend_from_slice(words.as_bytes())
}

/// Puts words, bytes of a text and words behind a text.
pub fn put_around(
    out: &mut Vec<u8>,
    before: &str,
    bytes: &[u8],
    behind: &str,
) -> Result<(), AllocError>
    ensures { OnOk result (out.new.items ≡ out.old.items ++ before.now ++ bytes.now ++ behind.now) }
{
    put(out, before)?;
    out.extend_from_slice(bytes)?;
    put(out, behind)
}

/// Puts texts behind another, in a row.
pub fn put_all(out: &mut Vec<u8>, pieces: &[&str]) -> Result<(), AllocError>
    ensures { OnOk result (out.new.items ≡ out.old.items ++ flat_map (λ piece. piece.now) pieces.now) }
{
    for piece in pieces {
        put(out, piece)?;
    }
    Ok(())
}

/// Puts a number behind a text.
pub fn put_number(out: &mut Vec<u8>, number: u64) -> Result<(), AllocError>
    ensures { OnOk result (out.new.items ≡ out.old.items ++ decimal number) }
{
    let mut digits = Buffer::new();
    put(out, digits.format(number))
}

/// Puts words, a number and words behind a text.
pub fn put_counted(
    out: &mut Vec<u8>,
    before: &str,
    number: u64,
    behind: &str,
) -> Result<(), AllocError>
    ensures { OnOk result (out.new.items ≡ out.old.items ++ before.now ++ decimal number ++ behind.now) }
{
    put(out, before)?;
    put_number(out, number)?;
    put(out, behind)
}

/// Puts a word and as many blanks as make it this wide; a wider word loses its end.
pub fn put_padded(out: &mut Vec<u8>, word: &[u8], width: usize) -> Result<(), AllocError> {
    for place in 0..width {
        match word.get(place) {
            Some(byte) => out.push(*byte)?,
            None => out.push(b' ')?,
        }
    }
    Ok(())
}

/// Puts a byte so many times.
pub fn fill(out: &mut Vec<u8>, byte: u8, count: usize) -> Result<(), AllocError> {
    for _place in 0..count {
        out.push(byte)?;
    }
    Ok(())
}

/// Puts this byte, and a word behind as many more of them as make it this wide; a wider word loses its end.
pub fn put_aligned(
    out: &mut Vec<u8>,
    byte: u8,
    word: &[u8],
    width: usize,
) -> Result<(), AllocError> {
    let count = word.len().min(width);
    fill(out, byte, (width - count).saturating_add(1))?;
    out.extend_from_slice(word.split_at(count).0)
}
