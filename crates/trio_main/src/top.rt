//! The top call: words, files and a sink in, a status out.
ghost use Rattle.std.specs.Prelude.{◌≡◌, ◌⊎◌, None, Some};
ghost use Rattle.trio_io.specs.Outside.{StaysSink};
ghost use Rattle.trio_io.specs.Words.{word_bytes};
ghost use Rattle.trio_jobs.specs.Answer.{Said, Ends, Finishes};
ghost use Rattle.trio_jobs.specs.Call.{call_of, Beside};
ghost use Rattle.trio_jobs.specs.Check.{TellsCheck};
ghost use Rattle.trio_jobs.specs.Command.{command_of};
ghost use Rattle.trio_jobs.specs.Message.{usage_line};
ghost use Rattle.trio_main.specs.Complete.{TellsComplete};
ghost use Rattle.trio_main.specs.Due.{job_of};
ghost use Rattle.trio_main.specs.Tell.{Tells, GivesDue, Leaves};

use crate::complete::job_complete;
use history_table::text_has_one_history;
use std::alloc::Global;
use trio_io::{Bell, Shelf, Sink, write_whole};
use trio_jobs::{Command, Fault, Status, WordsFault, job_check, read_words, say};
use trio_reader::{
    faulty_text_is_no_specification, text_has_one_fault, text_has_one_specification,
};

/// The usage line: it names every command, also those that are not built yet.
const USAGE: &str =
    "usage: trio check SPEC HIST | complete SPEC HIST [--workers=N] [--limit=N] [--seconds=N] [--save=NAME] | resume FRONTIER [the same] | cases SPEC HIST GOAL [--workers=N] | play SPEC HIST SCHEDULE | bench NUMBER [--workers=N]\n";

/// Reads the words, does what they ask for and writes the answer to `out`; it always returns, and waits for nothing. Every command is served
/// with one worker. The bell is neither armed nor asked.
pub fn trio_plain<F: Shelf, K: Sink, B: Bell>(
    alloc: Global,
    words: &[String],
    shelf: &mut F,
    out: &mut K,
    bell: &mut B,
) -> Status
    requires { (B.seen bell.old).armed ≡ None }

    // The one statement that the others read out: an answer with its cause was written to its end, or the writing of it failed.
    ensures answer { Finishes (job_of (command_of (word_bytes words.now))) (K.seen out.old) (K.seen out.new) result
        (call_of (F.seen shelf.old) (F.seen shelf.new) (B.seen bell.old) (B.seen bell.new)) }

    // What each status tells, for every command; and where nothing fails, the answer due is given, or want of memory.
    ensures tells { Tells (command_of (word_bytes words.now)) (call_of (F.seen shelf.old) (F.seen shelf.new) (B.seen bell.old) (B.seen bell.new))
        (K.seen out.old) (K.seen out.new) result }
    ensures due { GivesDue (command_of (word_bytes words.now)) (call_of (F.seen shelf.old) (F.seen shelf.new) (B.seen bell.old) (B.seen bell.new))
        (K.seen out.old) (K.seen out.new) result }

    // Words that are no command are answered with the usage line, unless a write fails or memory runs out, and nothing is fetched.
    ensures no_command { command_of (word_bytes words.now) ≡ None → (result ≡ Status.Usage) ⊎ ((result ≡ Status.WriteFault) ⊎ (result ≡ Status.Memory)) }
    ensures unfetched { command_of (word_bytes words.now) ≡ None → F.seen shelf.new ≡ F.seen shelf.old }

    // What a status tells of a command, in words of its own.
    ensures check { TellsCheck (command_of (word_bytes words.now)) (call_of (F.seen shelf.old) (F.seen shelf.new) (B.seen bell.old) (B.seen bell.new))
        (K.seen out.old) (K.seen out.new) result }
    ensures complete { TellsComplete (command_of (word_bytes words.now)) (call_of (F.seen shelf.old) (F.seen shelf.new) (B.seen bell.old) (B.seen bell.new))
        (K.seen out.old) (K.seen out.new) result }

    // What a call leaves, so that another may follow it: every file but one that the command saves, what the shelf and the sink tell, and a bell that
    // is not armed. No count falls, and the shelf is called at most as often as the words have places of files.
    ensures leaves { Leaves (command_of (word_bytes words.now)) (call_of (F.seen shelf.old) (F.seen shelf.new) (B.seen bell.old) (B.seen bell.new)) }
    ensures sink { StaysSink (K.seen out.old) (K.seen out.new) }
    ensures bell { bell.new ≡ bell.old }
{
    let _ = bell;
    text_has_one_specification();
    text_has_one_fault();
    faulty_text_is_no_specification();
    text_has_one_history();
    run(alloc, words, shelf, out)
}

/// The words read as a command, and what it asks for.
fn run<F: Shelf, K: Sink>(alloc: Global, words: &[String], shelf: &mut F, out: &mut K) -> Status
    ensures leaves { Beside (F.seen shelf.old) (F.seen shelf.new) (Leaves (command_of (word_bytes words.now))) }
    ensures unfetched { command_of (word_bytes words.now) ≡ None → F.seen shelf.new ≡ F.seen shelf.old }
    ensures answer { Beside (F.seen shelf.old) (F.seen shelf.new) (Finishes (job_of (command_of (word_bytes words.now))) (K.seen out.old) (K.seen out.new) result) }
{
    match read_words(alloc, words) {
        Ok(command) => serve(alloc, &command, shelf, out),
        Err(WordsFault::Usage) => say_usage(out),
        Err(WordsFault::Memory) => say(out, &Fault::Memory),
    }
}

/// Writes the usage line.
fn say_usage<K: Sink>(out: &mut K) -> Status
    ensures { Said Status.Usage usage_line (K.seen out.old) (K.seen out.new) result }
{
    match write_whole(out, USAGE.as_bytes()) {
        Ok(()) => Status::Usage,
        Err(_) => Status::WriteFault,
    }
}

/// Does what the command asks for, and says its fault.
fn serve<F: Shelf, K: Sink>(alloc: Global, command: &Command, shelf: &mut F, out: &mut K) -> Status
    ensures leaves { Beside (F.seen shelf.old) (F.seen shelf.new) (Leaves (Some command.now)) }
    ensures answer { Beside (F.seen shelf.old) (F.seen shelf.new) (Finishes (job_of (Some command.now)) (K.seen out.old) (K.seen out.new) result) }
{
    match job(alloc, command, shelf, out) {
        Ok(status) => status,
        Err(fault) => say(out, &fault),
    }
}

/// The job of the command.
fn job<F: Shelf, K: Sink>(
    alloc: Global,
    command: &Command,
    shelf: &mut F,
    out: &mut K,
) -> Result<Status, Fault>
    ensures leaves { Beside (F.seen shelf.old) (F.seen shelf.new) (Leaves (Some command.now)) }
    ensures ends { Beside (F.seen shelf.old) (F.seen shelf.new) (Ends (job_of (Some command.now)) (K.seen out.old) (K.seen out.new) result) }
{
    match command {
        Command::Check(spec, history) => job_check(alloc, shelf, out, spec, history),
        Command::Complete(spec, history) => job_complete(alloc, shelf, out, spec, history),
    }
}
