//! `trio`: whether a recorded history satisfies a specification in a metric temporal logic over finite time and finite domains.
#![tactic(auto)]

mod complete;
mod laws;
mod top;

use std::process::ExitCode;
use std::rt::{Env, Files};
use trio_io::{FileShelf, OutSink, StillBell, words_given};

#[cfg(test)]
mod tests;

use crate::top::trio_plain;
use trio_jobs::Status;

/// Serves the words over real files and standard output.
fn served<R: Env + Files + Print + AllocGlobal>(rt: &R) -> Status {
    match words_given(rt) {
        Ok(words) => {
            let mut shelf = FileShelf::new(rt);
            let mut out = OutSink::new(rt);
            let mut bell = StillBell::new();
            trio_plain(
                rt.alloc(),
                words.as_slice(),
                &mut shelf,
                &mut out,
                &mut bell,
            )
        }
        Err(_) => Status::Memory,
    }
}

fn main(rt: HostRuntime) -> ExitCode {
    ExitCode::from(served(&rt).number())
}
