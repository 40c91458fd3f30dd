//! A sink in memory, which tells what was written.
ghost use Rattle.std.specs.Prelude.{◌≡◌, ◌==◌, ◌<◌, ◌≤◌, ◌++◌, true, List, [], take, length, IfOk, OnOk, OnErr, IsOk, vec_len, vec_capacity, if◌then◌else◌};
ghost use Rattle.std.specs.Result.{is_ok};

use crate::files::Counts;
use crate::sink::{Sink, SinkFault};
use std::alloc::{AllocError, Global};

/// Keeps what is written, up to `room` bytes in all and `most` at a time. The writes whose numbers, counted from 1,
/// are among `failing` fail; a write of an empty piece has no number.
#[derive(Drop)]
pub struct MemSink {
    bytes: Vec<u8>,
    room: u64,
    most: u64,
    failing: Counts,
    faults: u64,
    writes: u64,
    ghost fits: { vec_len bytes ≤ room },
    ghost reserved: { room ≤ vec_capacity bytes },
    ghost some: { 0 < most },
}

impl MemSink {
    ghost use Rattle.trio_io.specs.MemorySink.{mem_written, mem_faults};

    /// An empty sink, which takes memory for its room at once. Only want of memory refuses it.
    pub fn new(alloc: Global, room: u64, most: u64, failing: Counts) -> Result<MemSink, AllocError>
        requires { 0 < most }
        ensures empty { IfOk result (λ sink. mem_written sink ≡ []) }
        ensures faults { IfOk result (λ sink. mem_faults sink ≡ 0) }
        ensures limits { IfOk result (λ sink. (sink.room ≡ room) × (sink.most ≡ most)) }
        ensures failing { IfOk result (λ sink. (sink.failing ≡ failing) × (sink.writes ≡ 0)) }
    {
        let bytes = Vec::with_capacity(alloc, room as usize)?;
        Ok(MemSink {
            bytes,
            room,
            most,
            failing,
            faults: 0,
            writes: 0,
        })
    }

    /// All that was written.
    pub fn written(&self) -> &[u8]
        ensures { result.now ≡ mem_written self.now }
    {
        self.bytes.as_slice()
    }
}

impl Sink for MemSink {
    ghost use Rattle.trio_io.specs.Outside.{StaysSink, Writes, Rose, raised};
    ghost use Rattle.trio_io.specs.MemorySink.{mem_written, mem_faults, mem_sink_seen, write_answer};

    ghost seen = { mem_sink_seen };

    fn write(&mut self, piece: &[u8]) -> Result<usize, SinkFault>
        ensures stays { StaysSink (mem_sink_seen self.old) (mem_sink_seen self.new) }
        ensures took { IfOk result (λ n. n ≤ length piece.now) }
        ensures some { IfOk result (λ n. 0 < length piece.now → 0 < n) }
        ensures ok { IfOk result (λ n. Writes (mem_sink_seen self.old) (mem_sink_seen self.new) (take n piece.now)) }
        ensures calm { IfOk result (λ n. mem_faults self.new ≡ mem_faults self.old) }
        ensures failed { OnErr result (Rose (mem_faults self.old) (mem_faults self.new)) }
        ensures err { OnErr result (Writes (mem_sink_seen self.old) (mem_sink_seen self.new) []) }
        ensures empty { length piece.now ≡ 0 → IsOk result }
        ensures answer { result ≡ write_answer self.old (length piece.now) }
        ensures faults { mem_faults self.new ≡ (if is_ok result then mem_faults self.old else raised (mem_faults self.old)) }
        ensures writes { self.new.writes ≡ (if length piece.now == 0 then self.old.writes else raised self.old.writes) }
        ensures limits { (self.new.room ≡ self.old.room) × (self.new.most ≡ self.old.most) × (self.new.failing ≡ self.old.failing) }
    {
        if piece.is_empty() {
            return Ok(0);
        }
        self.writes = self.writes.saturating_add(1);
        let left = self.room - self.bytes.len() as u64;
        if self.failing.as_slice().contains(&self.writes) || left == 0 {
            self.faults = self.faults.saturating_add(1);
            return Err(SinkFault::Failed);
        }
        let count = (piece.len() as u64).min(self.most).min(left) as usize;
        self.bytes.extend_from_slice(&piece[..count]).unwrap();
        Ok(count)
    }
}
