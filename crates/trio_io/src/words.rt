//! The words of a command line, and which of them name files.
ghost use Rattle.std.specs.Prelude.{◌≡◌, ◌≢◌, [], IfErr, IsErr, IsOkAnd};
ghost use Rattle.std.specs.IoError.{error_kind};
ghost use Rattle.trio_io.specs.Words.{names_a_file};

use std::alloc::{AllocError, Global};
use std::env::Args;
use std::io::ErrorKind;
use std::rt::Env;
use std::{env, io};

/// The words behind the program's name. Only want of memory refuses it; words that are no text count as none.
pub fn words_given<R: Env + AllocGlobal>(rt: &R) -> Result<Vec<String>, AllocError> {
    words_behind(rt.alloc(), env::args(rt))
}

/// The words but the first, of those that could be read. Only want of memory refuses it.
fn words_behind(alloc: Global, given: io::Result<Args>) -> Result<Vec<String>, AllocError>
    ensures wants { IfErr given (λ error. error_kind error ≡ ErrorKind.OutOfMemory → IsErr result) }
    ensures unread { IfErr given (λ error. error_kind error ≢ ErrorKind.OutOfMemory → IsOkAnd result (λ words. words.items ≡ [])) }
{
    match given {
        Ok(all) => all.skip(1).collect(alloc),
        Err(error) if error.kind() == ErrorKind::OutOfMemory => Err(AllocError),
        Err(_) => Ok(Vec::new(alloc)),
    }
}

/// Whether a word names a file: it is not empty and does not begin with `--`.
pub fn is_file_name(word: &str) -> bool
    ensures { result ≡ names_a_file word.now }
{
    match word.as_bytes() {
        [] => false,
        [b'-', b'-', ..] => false,
        _ => true,
    }
}
