//! `trio_explain`: says in words, with the place in the text, what `trio` answers in short.
#![tactic(auto)]

use explain_answers::{Status, explained};
use std::process::ExitCode;
use std::rt::{Env, Files};
use trio_io::{FileShelf, OutSink, words_given};

#[cfg(test)]
mod tests;

/// Serves the words over real files and standard output.
fn served<R: Env + Files + Print + AllocGlobal>(rt: &R) -> Status {
    match words_given(rt) {
        Ok(words) => {
            let mut shelf = FileShelf::new(rt);
            let mut out = OutSink::new(rt);
            explained(rt.alloc(), words.as_slice(), &mut shelf, &mut out)
        }
        Err(_) => Status::Memory,
    }
}

fn main(rt: HostRuntime) -> ExitCode {
    ExitCode::from(served(&rt).number())
}
