//! What a command answers, before it is written and as it is written.
ghost use Rattle.std.specs.Prelude.{◌≡◌, IfOk, string_bytes};
ghost use Rattle.trio_jobs.specs.Answer.{Gives};
ghost use Rattle.trio_jobs.specs.Text.{text_of};

use crate::fault::Fault;
use crate::status::Status;
use std::alloc::{AllocError, Global};
use trio_io::{Sink, write_pieces};

/// A status, and the text that is written with it in these pieces.
#[derive(Drop)]
pub struct Answer {
    pub status: Status,
    pub pieces: Vec<Vec<u8>>,
}

impl Answer {
    /// An answer of one piece. Only want of memory refuses it.
    pub fn line(alloc: Global, status: Status, text: String) -> Result<Answer, AllocError>
        ensures status { IfOk result (λ answer. answer.status ≡ status) }
        ensures text { IfOk result (λ answer. text_of answer ≡ string_bytes text) }
    {
        let pieces = vec![in alloc; text.into_bytes()]?;
        Ok(Answer { status, pieces })
    }
}

/// Writes an answer, which takes no memory, and answers its status. `Write` comes where a write failed.
pub fn give<K: Sink>(out: &mut K, answer: &Answer) -> Result<Status, Fault>
    ensures { Gives answer.now.status (text_of answer.now) (K.seen out.old) (K.seen out.new) result }
{
    match write_pieces(out, answer.pieces.as_slice()) {
        Ok(()) => Ok(answer.status),
        Err(_) => Err(Fault::Write),
    }
}
