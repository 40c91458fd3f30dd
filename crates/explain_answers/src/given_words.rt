//! What is said of a given history that is to be completed.
ghost use Rattle.std.specs.Prelude.{◌≡◌, ◌++◌, is_none, length, IfOk, OnOk};
ghost use Rattle.std.specs.List.{filter};
ghost use Rattle.explain_answers.specs.VerdictWords.{unknown_words, readable_line};

use crate::writing::{put, put_counted};
use std::alloc::{AllocError, Global};

/// That both texts can be read, how many of the history's values are not known, and what `trio` lists.
pub fn readable_line(
    alloc: Global,
    spec_name: &str,
    history_name: &str,
    given: &[Option<u16>],
) -> Result<Vec<u8>, AllocError>
    ensures { IfOk result (λ words. words.items ≡ readable_line spec_name.now history_name.now given.now) }
{
    let mut words = Vec::new(alloc);
    put(&mut words, spec_name)?;
    put(&mut words, " and ")?;
    put(&mut words, history_name)?;
    put(&mut words, " can be read; ")?;
    put_unknown(&mut words, unknown_count(given), given.len())?;
    put(&mut words, " the specification\n")?;
    Ok(words)
}

/// Puts how many of so many values are not known, and which histories `trio` lists, up to the name of what they satisfy.
fn put_unknown(out: &mut Vec<u8>, unknown: usize, values: usize) -> Result<(), AllocError>
    ensures { OnOk result (out.new.items ≡ out.old.items ++ unknown_words unknown values) }
{
    let values = values as u64;
    if unknown == 0 {
        put(
            out,
            "every value is known, and `trio complete` lists the history if it satisfies",
        )
    } else if unknown == 1 {
        put_counted(
            out,
            "1 of ",
            values,
            " values is not known, and `trio complete` lists the histories that fill it in and satisfy",
        )
    } else {
        put_counted(out, "", unknown as u64, " of ")?;
        put_counted(
            out,
            "",
            values,
            " values are not known, and `trio complete` lists the histories that fill them in and satisfy",
        )
    }
}

/// How many values are not known.
fn unknown_count(given: &[Option<u16>]) -> usize
    ensures { result ≡ length (filter is_none given.now) }
{
    given.iter().filter(|index| index.is_none()).count()
}
