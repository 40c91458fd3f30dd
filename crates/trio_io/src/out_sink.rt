//! The sink that is standard output. It tells nothing of what was written.
ghost use Rattle.std.specs.Prelude.{◌≡◌, false, []};

use crate::sink::{Sink, SinkFault};

/// Standard output of the runtime, with a count of the writes that failed.
#[derive(Drop)]
pub struct OutSink<'a, R: Print> {
    rt: &'a R,
    pub(crate) faults: u64,
}

impl<'a, R: Print> OutSink<'a, R> {
    /// A sink over this runtime.
    pub fn new(rt: &'a R) -> OutSink<'a, R>
        ensures { result.faults ≡ 0 }
    {
        OutSink { rt, faults: 0 }
    }
}

impl<'a, R: Print> Sink for OutSink<'a, R> {
    ghost seen = { λ sink. record { tells = false; written = []; faults = sink.faults } };

    fn write(&mut self, piece: &[u8]) -> Result<usize, SinkFault> {
        if piece.is_empty() {
            return Ok(0);
        }
        match self.rt.write_some(piece) {
            Ok(0) | Err(_) => {
                self.faults = self.faults.saturating_add(1);
                Err(SinkFault::Failed)
            }
            Ok(count) => Ok(count),
        }
    }
}
