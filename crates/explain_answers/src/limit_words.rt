//! Lines on counts above their limits, and on files that are too long.
ghost use Rattle.std.specs.Prelude.{◌≡◌, ◌++◌, codes, decimal, IfOk, OnOk};
ghost use Rattle.trio_types.specs.Limits.{limit_of};
ghost use Rattle.explain_answers.specs.LimitWords.{counted, limit_line, too_long_line};

use crate::writing::{put, put_counted};
use std::alloc::{AllocError, Global};
use trio_base::limits::{
    GREATEST_BOUND, MOST_CELLS, MOST_HISTORY_BYTES, MOST_INSTANCES, MOST_ITEMS, MOST_OPEN,
    MOST_SIZES, MOST_SPEC_BYTES,
};
use trio_reader::Which;

/// The line on a specification's count that is above its limit.
pub fn limit_line(
    alloc: Global,
    file: &str,
    which: Which,
    count: u64,
) -> Result<Vec<u8>, AllocError>
    ensures { IfOk result (λ words. words.items ≡ limit_line file.now which count) }
{
    let mut words = Vec::new(alloc);
    put(&mut words, file)?;
    put(&mut words, ": ")?;
    put_counted(&mut words, counted(which), count, ", and the limit is ")?;
    put_counted(&mut words, "", limit(which), "\n")?;
    Ok(words)
}

fn counted(which: Which) -> &'static str
    ensures { result.now ≡ counted which }
{
    match which {
        Which::Items => "the number of items is ",
        Which::Cells =>
            "the number of cells, one for each item, tuple of arguments and instant, is ",
        Which::Sizes => "the number of values of all cells together is ",
        Which::Bound => "the greatest number that a term can reach is ",
        Which::Instances =>
            "the number of instances of formulas, over all values and instants, is ",
        Which::Nest => "the number of brackets that are open at once in the canonical text is ",
    }
}

fn limit(which: Which) -> u64
    ensures { result ≡ limit_of which }
{
    match which {
        Which::Items => u64::from(MOST_ITEMS),
        Which::Cells => u64::from(MOST_CELLS),
        Which::Sizes => u64::from(MOST_SIZES),
        Which::Bound => GREATEST_BOUND,
        Which::Instances => u64::from(MOST_INSTANCES),
        Which::Nest => u64::from(MOST_OPEN),
    }
}

/// The line on a file that is longer than a specification's may be, or a history's.
pub fn too_long_line(alloc: Global, file: &str, is_spec: bool) -> Result<Vec<u8>, AllocError>
    ensures { IfOk result (λ words. words.items ≡ too_long_line file.now is_spec) }
{
    let mut words = Vec::new(alloc);
    put(&mut words, file)?;
    if is_spec {
        put_most_bytes(
            &mut words,
            ": a specification has at most ",
            MOST_SPEC_BYTES,
        )?;
        Ok(words)
    } else {
        put_most_bytes(&mut words, ": a history has at most ", MOST_HISTORY_BYTES)?;
        Ok(words)
    }
}

fn put_most_bytes(out: &mut Vec<u8>, before: &str, most: u64) -> Result<(), AllocError>
    ensures { OnOk result (out.new.items ≡ out.old.items ++ before.now ++ decimal most ++ codes " bytes, and this file is longer\n") }
{
    put_counted(out, before, most, " bytes, and this file is longer\n")
}
