//! A sink that bytes are written to.
ghost use Rattle.std.specs.Prelude.{◌≡◌, ◌<◌, ◌≤◌, [], take, length, IfOk, OnErr, IsOk};
ghost use Rattle.std.specs.List.{flat_map};
ghost use Rattle.trio_io.specs.Outside.{SinkView, StaysSink, Rose, Writes, Wrote};

use std::convert::AsSlice;

/// Why a sink refused.
#[derive(Clone, Copy, Debug, PartialEq, Eq)]
pub enum SinkFault {
    /// It took nothing.
    Failed,
}

/// Takes bytes, piece by piece.
pub trait Sink {
    /// Whether the sink tells what was written to it; all that was written; how many writes failed. The count never falls, and stays where it
    /// stands at the last value of its 64 bits.
    ghost seen: { Self → SinkView };

    /// Takes a front of the piece, and answers how many bytes it took: at least one, where the piece is not empty.
    fn write(&mut self, piece: &[u8]) -> Result<usize, SinkFault>
        ensures stays { StaysSink (seen self.old) (seen self.new) }
        ensures took { IfOk result (λ n. n ≤ length piece.now) }
        ensures some { IfOk result (λ n. 0 < length piece.now → 0 < n) }
        ensures ok { IfOk result (λ n. Writes (seen self.old) (seen self.new) (take n piece.now)) }
        ensures calm { IfOk result (λ n. (seen self.new).faults ≡ (seen self.old).faults) }
        ensures failed { OnErr result (Rose (seen self.old).faults (seen self.new).faults) }
        ensures err { OnErr result (Writes (seen self.old) (seen self.new) []) }
        ensures empty { length piece.now ≡ 0 → IsOk result };
}

/// Writes all the bytes. After a fault a front of them went out, and not all. It takes no memory.
pub fn write_whole<K: Sink>(sink: &mut K, bytes: &[u8]) -> Result<(), SinkFault>
    ensures { Wrote (K.seen sink.old) (K.seen sink.new) bytes.now result }
{
    let mut rest = bytes;
    while !rest.is_empty() {
        let count = sink.write(rest)?;
        rest = &rest[count..];
    }
    Ok(())
}

/// Writes the pieces one after another. After a fault a front of all of them went out, and not all. It takes no memory.
pub fn write_pieces<K: Sink, P: AsSlice<u8>>(sink: &mut K, pieces: &[P]) -> Result<(), SinkFault>
    ensures { Wrote (K.seen sink.old) (K.seen sink.new) (flat_map P.items pieces.now) result }
{
    for piece in pieces {
        write_whole(sink, piece.as_slice())?;
    }
    Ok(())
}
