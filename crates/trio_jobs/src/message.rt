//! Writes what is said of a fault. It takes no memory.
ghost use Rattle.std.specs.Prelude.{◌≡◌, ◌++◌, codes, decimal};
ghost use Rattle.trio_io.specs.Outside.{Wrote};
ghost use Rattle.trio_jobs.specs.Message.{numbered, long_line, limit_words, spec_message, history_message, message};
ghost use Rattle.trio_jobs.specs.Answer.{Says};

use crate::fault::{Fault, Text};
use crate::status::Status;
use history_table::HistFault;
use itoa::Buffer;
use trio_io::{Sink, SinkFault, write_pieces, write_whole};
use trio_reader::{SpecFault, Which};

/// Writes a fault's message and answers the fault's status, or `WriteFault` where a write failed. Of a failed write nothing is said.
pub fn say<K: Sink>(out: &mut K, fault: &Fault) -> Status
    ensures { Says fault.now (K.seen out.old) (K.seen out.new) result }
{
    match fault {
        Fault::Write => Status::WriteFault,
        _ => match write_message(out, fault) {
            Ok(()) => fault.status(),
            Err(_) => Status::WriteFault,
        },
    }
}

fn write_message<K: Sink>(out: &mut K, fault: &Fault) -> Result<(), SinkFault>
    ensures { Wrote (K.seen out.old) (K.seen out.new) (message fault.now) result }
{
    match fault {
        Fault::Read => write_whole(out, b"fault read\n"),
        Fault::TooLong(which) => write_whole(out, long_line(*which).as_bytes()),
        Fault::Spec(fault) => write_spec_fault(out, *fault),
        Fault::History(fault) => write_history_fault(out, *fault),
        Fault::Missing(row) => write_missing(out, row.as_str()),
        Fault::Unknown(row, instant) => write_unknown(out, row.as_str(), *instant),
        Fault::Goal => write_whole(out, b"refused goal\n"),
        Fault::Write => Ok(()),
        Fault::Memory => write_whole(out, b"fault memory\n"),
    }
}

fn long_line(which: Text) -> &'static str
    ensures { result.now ≡ long_line which }
{
    match which {
        Text::Spec => "refused spec long\n",
        Text::History => "refused history long\n",
    }
}

fn write_spec_fault<K: Sink>(out: &mut K, fault: SpecFault) -> Result<(), SinkFault>
    ensures { Wrote (K.seen out.old) (K.seen out.new) (spec_message fault) result }
{
    match fault {
        SpecFault::Lex(place) => write_numbered(out, "refused spec lex ", place),
        SpecFault::Deep(place) => write_numbered(out, "refused spec deep ", place),
        SpecFault::Syntax(place) => write_numbered(out, "refused spec syntax ", place),
        SpecFault::Unknown(place) => write_numbered(out, "refused spec unknown ", place),
        SpecFault::Twice(place) => write_numbered(out, "refused spec twice ", place),
        SpecFault::Kind(place) => write_numbered(out, "refused spec kind ", place),
        SpecFault::Range(place) => write_numbered(out, "refused spec range ", place),
        SpecFault::Limit(which, count) => write_numbered(out, limit_words(which), count),
        SpecFault::Memory => write_whole(out, b"refused spec memory\n"),
    }
}

fn limit_words(which: Which) -> &'static str
    ensures { result.now ≡ limit_words which }
{
    match which {
        Which::Items => "refused spec limit items ",
        Which::Cells => "refused spec limit cells ",
        Which::Sizes => "refused spec limit sizes ",
        Which::Bound => "refused spec limit bound ",
        Which::Instances => "refused spec limit instances ",
        Which::Nest => "refused spec limit nest ",
    }
}

fn write_history_fault<K: Sink>(out: &mut K, fault: HistFault) -> Result<(), SinkFault>
    ensures { Wrote (K.seen out.old) (K.seen out.new) (history_message fault) result }
{
    match fault {
        HistFault::Lex(place) => write_numbered(out, "refused history lex ", place),
        HistFault::Syntax(line) => write_numbered(out, "refused history syntax ", line),
        HistFault::UnknownRow(line) => write_numbered(out, "refused history unknownrow ", line),
        HistFault::TwiceRow(line) => write_numbered(out, "refused history twicerow ", line),
        HistFault::Length(line) => write_numbered(out, "refused history length ", line),
        HistFault::Value(line, column) => write_value(out, line, column),
        HistFault::MissingRow(row) => write_numbered(out, "refused history missing ", row as u64),
        HistFault::Memory => write_whole(out, b"refused history memory\n"),
    }
}

fn write_numbered<K: Sink>(out: &mut K, words: &str, number: u64) -> Result<(), SinkFault>
    ensures { Wrote (K.seen out.old) (K.seen out.new) (numbered words.now number) result }
{
    let mut digits = Buffer::new();
    write_pieces(out, &[words, digits.format(number), "\n"])
}

fn write_value<K: Sink>(out: &mut K, line: u64, column: u64) -> Result<(), SinkFault>
    ensures { Wrote (K.seen out.old) (K.seen out.new) (numbered (codes "refused history value " ++ decimal line ++ codes " ") column) result }
{
    let mut line_digits = Buffer::new();
    let mut column_digits = Buffer::new();
    let line = line_digits.format(line);
    let column = column_digits.format(column);
    write_pieces(out, &["refused history value ", line, " ", column, "\n"])
}

fn write_missing<K: Sink>(out: &mut K, row: &str) -> Result<(), SinkFault>
    ensures { Wrote (K.seen out.old) (K.seen out.new) (codes "refused history missing " ++ row.now ++ codes "\n") result }
{
    write_pieces(out, &["refused history missing ", row, "\n"])
}

fn write_unknown<K: Sink>(out: &mut K, row: &str, instant: u32) -> Result<(), SinkFault>
    ensures { Wrote (K.seen out.old) (K.seen out.new) (numbered (codes "unknown " ++ row.now ++ codes " ") instant) result }
{
    let mut digits = Buffer::new();
    write_pieces(out, &["unknown ", row, " ", digits.format(instant), "\n"])
}
