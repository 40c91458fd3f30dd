//! What is said of a command: a text for people, and the status with which `trio` ends.
ghost use Rattle.std.specs.Prelude.{◌≡◌, ◌≤◌, ◌<◌, ◌⊎◌, ◌++◌, ℕ, length, codes, Some, None, IfOk, MatchResult};
ghost use Rattle.trio_io.specs.Outside.{OnlyReads};
ghost use Rattle.trio_io.specs.Words.{word_bytes};
ghost use Rattle.trio_types.specs.Cells.{IsTable, rows_of};
ghost use Rattle.trio_types.specs.Verdict.{world_of, first_false};
ghost use Rattle.trio_reader.specs.Reading.{HasFault};
ghost use Rattle.history_table.specs.History.{HasHistFault};
ghost use Rattle.history_table.specs.Fitting.{IsGiven};
ghost use Rattle.explain_answers.specs.Command.{asked_of};
ghost use Rattle.explain_answers.specs.Sources.{AreTokensOf};
ghost use Rattle.explain_answers.specs.SpecWords.{SaysSpecFault};
ghost use Rattle.explain_answers.specs.HistoryWords.{SaysHistoryFault};
ghost use Rattle.explain_answers.specs.Explained.{usage_line, memory_line, unread_line, most_bytes, IsFile, FileEnds, SpecEnds, IsSpecFile, HistoryEnds, IsHistoryFile, SaysVerdict, Tells, Serves, SaysOf, Said, Finishes, TellsStatus};

use crate::command::{Command, Task, read_words};
use crate::given_words::readable_line;
use crate::history_words::history_fault_words;
use crate::limit_words::too_long_line;
use crate::source::Source;
use crate::spec_words::spec_fault_words;
use crate::status::Status;
use crate::verdict_words::{false_words, true_line, unknown_line};
use crate::writing::put;
use history_check::{Verdict, check};
use history_table::{Given, HistFault, Table, read_history};
use std::alloc::{AllocError, Global};
use trio_base::limits::{MOST_HISTORY_BYTES, MOST_SPEC_BYTES};
use trio_io::{Shelf, ShelfFault, Sink, write_whole};
use trio_reader::{SpecFault, read_spec};
use trio_text::{LexFault, TokenList, tokens};
use trio_types::{List, Spec, cell_count};

/// A status and what is said with it.
#[derive(Drop)]
struct Answer {
    status: Status,
    text: Vec<u8>,
}

/// A specification with its text and tokens.
#[derive(Drop)]
struct SpecText {
    text: Vec<u8>,
    tokens: TokenList,
    spec: Spec,
}

/// Reads the words behind the program's name, does what they ask for, writes what is to be said of it to `out`, and answers the status.
pub fn explained<F: Shelf, K: Sink>(
    alloc: Global,
    words: &[String],
    shelf: &mut F,
    out: &mut K,
) -> Status
    // The one statement that the others read out: what was said has its cause, or the writing of it failed.
    ensures finishes { Finishes (asked_of (word_bytes words.now)) (F.seen shelf.old) (F.seen shelf.new) (K.seen out.old) (K.seen out.new) result }

    // What each status tells.
    ensures tells { TellsStatus (asked_of (word_bytes words.now)) (F.seen shelf.old) (F.seen shelf.new) (K.seen out.old) (K.seen out.new) result }

    // Words that are no command fetch nothing; no other words have the shelf called more than twice, and no file changes.
    ensures unfetched { asked_of (word_bytes words.now) ≡ None → F.seen shelf.new ≡ F.seen shelf.old }
    ensures reads { OnlyReads 2 (F.seen shelf.old) (F.seen shelf.new) }
{
    run(alloc, words, shelf, out)
}

/// What is said of the words, written.
fn run<F: Shelf, K: Sink>(alloc: Global, words: &[String], shelf: &mut F, out: &mut K) -> Status
    ensures reads { OnlyReads 2 (F.seen shelf.old) (F.seen shelf.new) }
    ensures finishes { Finishes (asked_of (word_bytes words.now)) (F.seen shelf.old) (F.seen shelf.new) (K.seen out.old) (K.seen out.new) result }
    ensures unfetched { asked_of (word_bytes words.now) ≡ None → F.seen shelf.new ≡ F.seen shelf.old }
{
    match answered(alloc, words, shelf) {
        Ok(answer) => give(out, answer.status, answer.text.as_slice()),
        Err(_) => give(out, Status::Memory, b"there is not memory enough\n"),
    }
}

/// Writes a text, and answers its status or that of a failed write.
fn give<K: Sink>(out: &mut K, status: Status, text: &[u8]) -> Status
    ensures { Said status text.now (K.seen out.old) (K.seen out.new) result }
{
    match write_whole(out, text) {
        Ok(()) => status,
        Err(_) => Status::WriteFault,
    }
}

fn answered<F: Shelf>(alloc: Global, words: &[String], shelf: &mut F) -> Result<Answer, AllocError>
    ensures reads { OnlyReads 2 (F.seen shelf.old) (F.seen shelf.new) }
    ensures unfetched { asked_of (word_bytes words.now) ≡ None → F.seen shelf.new ≡ F.seen shelf.old }
    ensures says { IfOk result (λ answer. SaysOf (asked_of (word_bytes words.now)) (F.seen shelf.old) (F.seen shelf.new) answer.status answer.text.items) }
{
    match read_words(words) {
        Some(command) => served(alloc, shelf, command),
        None => Ok(Answer {
            status: Status::Usage,
            text: line(
                alloc,
                "usage: trio_explain check SPEC HIST | complete SPEC HIST\n",
            )?,
        }),
    }
}

fn line(alloc: Global, words: &str) -> Result<Vec<u8>, AllocError>
    ensures { IfOk result (λ text. text.items ≡ words.now) }
{
    let mut text = Vec::new(alloc);
    put(&mut text, words)?;
    Ok(text)
}

/// What is said of what is asked for.
fn served<F: Shelf>(
    alloc: Global,
    shelf: &mut F,
    command: Command<'_>,
) -> Result<Answer, AllocError>
    ensures reads { OnlyReads 2 (F.seen shelf.old) (F.seen shelf.new) }
    ensures serves { IfOk result (λ answer. Serves (record { task_ = command.entry.task; spec = command.entry.spec.now; history = command.entry.history.now }) (F.seen shelf.old) (F.seen shelf.new) answer.status answer.text.items) }
{
    match load_spec(alloc, shelf, command.spec)? {
        Ok(loaded) => match load_history(alloc, shelf, &loaded.spec, command.history)? {
            Ok(given) => told(alloc, command, &loaded, &given),
            Err(answer) => Ok(answer),
        },
        Err(answer) => Ok(answer),
    }
}

/// The bytes of a file, which is a specification's or a history's, or why it goes no further. `Err` is want of memory.
fn load_text<F: Shelf>(
    alloc: Global,
    shelf: &mut F,
    name: &str,
    is_spec: bool,
) -> Result<Result<Vec<u8>, Answer>, AllocError>
    ensures reads { OnlyReads 1 (F.seen shelf.old) (F.seen shelf.new) }
    ensures loads { IfOk result (λ loaded. MatchResult loaded (λ bytes. IsFile (F.seen shelf.old) is_spec name.now bytes.items) (λ answer. FileEnds is_spec (F.seen shelf.old) (F.seen shelf.new) name.now answer.status answer.text.items)) }
{
    let mut bytes = Vec::new(alloc);
    match shelf.fetch(name, most_bytes(is_spec), &mut bytes) {
        Ok(()) => Ok(Ok(bytes)),
        Err(ShelfFault::TooLong) => Ok(Err(Answer {
            status: Status::Refused,
            text: too_long_line(alloc, name, is_spec)?,
        })),
        Err(ShelfFault::Failed) => Ok(Err(Answer {
            status: Status::ReadFault,
            text: unread_line(alloc, name)?,
        })),
        Err(ShelfFault::Memory) => Err(AllocError),
    }
}

/// The most bytes of a specification, or of a history.
fn most_bytes(is_spec: bool) -> u64
    ensures { result ≡ most_bytes is_spec }
{
    if is_spec {
        MOST_SPEC_BYTES
    } else {
        MOST_HISTORY_BYTES
    }
}

fn unread_line(alloc: Global, name: &str) -> Result<Vec<u8>, AllocError>
    ensures { IfOk result (λ text. text.items ≡ unread_line name.now) }
{
    let mut text = Vec::new(alloc);
    put(&mut text, name)?;
    put(&mut text, ": there is no such file, or it cannot be read\n")?;
    Ok(text)
}

/// The tokens of a text; none where a byte of it begins no token.
fn tokens_of(alloc: Global, text: &[u8]) -> Result<TokenList, AllocError>
    ensures { IfOk result (AreTokensOf text.now) }
{
    match tokens(alloc, text) {
        Ok(found) => Ok(found),
        Err(LexFault::Byte(_)) => Ok(List::new(alloc)),
        Err(LexFault::Memory) => Err(AllocError),
    }
}

/// The specification in a file, or why it goes no further.
fn load_spec<F: Shelf>(
    alloc: Global,
    shelf: &mut F,
    name: &str,
) -> Result<Result<SpecText, Answer>, AllocError>
    ensures reads { OnlyReads 1 (F.seen shelf.old) (F.seen shelf.new) }
    ensures loads { IfOk result (λ loaded. MatchResult loaded (λ found. IsSpecFile (F.seen shelf.old) name.now found.text.items found.tokens found.spec) (λ answer. SpecEnds (F.seen shelf.old) (F.seen shelf.new) name.now answer.status answer.text.items)) }
{
    let text = match load_text(alloc, shelf, name, true)? {
        Ok(text) => text,
        Err(answer) => return Ok(Err(answer)),
    };
    let tokens = tokens_of(alloc, text.as_slice())?;
    match read_spec(alloc, text.as_slice()) {
        Ok(spec) => Ok(Ok(SpecText { text, tokens, spec })),
        Err(fault) => {
            let source = Source {
                file: name,
                text: text.as_slice(),
                tokens: tokens.as_slice(),
            };
            Ok(Err(spec_refused(alloc, source, fault)?))
        }
    }
}

/// What is said of a specification that is refused.
fn spec_refused(alloc: Global, source: Source<'_>, fault: SpecFault) -> Result<Answer, AllocError>
    ensures { IfOk result (λ answer. (answer.status ≡ Status.Refused) × SaysSpecFault source.entry.file.now source.entry.text.now source.entry.tokens.now fault answer.text.items) }
{
    Ok(Answer {
        status: Status::Refused,
        text: spec_fault_words(alloc, source, fault)?,
    })
}

/// The given history in a file, or why it goes no further.
fn load_history<F: Shelf>(
    alloc: Global,
    shelf: &mut F,
    spec: &Spec,
    name: &str,
) -> Result<Result<Given, Answer>, AllocError>
    ensures reads { OnlyReads 1 (F.seen shelf.old) (F.seen shelf.new) }
    ensures loads { IfOk result (λ loaded. MatchResult loaded (IsHistoryFile (world_of spec.now) (F.seen shelf.old) name.now) (λ answer. HistoryEnds (world_of spec.now) (F.seen shelf.old) (F.seen shelf.new) name.now answer.status answer.text.items)) }
    ensures fits { IfOk result (λ loaded. IfOk loaded (IsGiven (world_of spec.now))) }
{
    let text = match load_text(alloc, shelf, name, false)? {
        Ok(text) => text,
        Err(answer) => return Ok(Err(answer)),
    };
    match read_history(alloc, spec, text.as_slice()) {
        Ok(given) => Ok(Ok(given)),
        Err(fault) => {
            let tokens = tokens_of(alloc, text.as_slice())?;
            let source = Source {
                file: name,
                text: text.as_slice(),
                tokens: tokens.as_slice(),
            };
            Ok(Err(history_refused(alloc, source, spec, fault)?))
        }
    }
}

/// What is said of a history that is refused.
fn history_refused(
    alloc: Global,
    source: Source<'_>,
    spec: &Spec,
    fault: HistFault,
) -> Result<Answer, AllocError>
    requires { (row : ℕ) → fault ≡ HistFault.MissingRow row → row < length (rows_of (world_of spec.now)) }
    ensures { IfOk result (λ answer. (answer.status ≡ Status.Refused) × SaysHistoryFault (world_of spec.now) source.entry.file.now source.entry.text.now source.entry.tokens.now fault answer.text.items) }
{
    Ok(Answer {
        status: Status::Refused,
        text: history_fault_words(alloc, source, spec, fault)?,
    })
}

/// What is said of a specification and a given history of it.
fn told(
    alloc: Global,
    command: Command<'_>,
    loaded: &SpecText,
    given: &Given,
) -> Result<Answer, AllocError>
    requires { IsGiven (world_of loaded.now.spec) given.now }
    ensures { IfOk result (λ answer. Tells command.entry.task command.entry.spec.now loaded.now.text.items loaded.now.tokens loaded.now.spec command.entry.history.now given.now answer.status answer.text.items) }
{
    match command.task {
        Task::Check => {
            let source = Source {
                file: command.spec,
                text: loaded.text.as_slice(),
                tokens: loaded.tokens.as_slice(),
            };
            judged(alloc, source, &loaded.spec, given, command.history)
        }
        Task::Complete => Ok(Answer {
            status: Status::Done,
            text: readable_line(alloc, command.spec, command.history, given.as_slice())?,
        }),
    }
}

/// What is said of a given history that is checked: the verdict, or the first value that is not known.
fn judged(
    alloc: Global,
    source: Source<'_>,
    spec: &Spec,
    given: &Given,
    history_name: &str,
) -> Result<Answer, AllocError>
    requires { IsGiven (world_of spec.now) given.now }
    ensures { IfOk result (λ answer. Tells Task.Check source.entry.file.now source.entry.text.now source.entry.tokens.now spec.now history_name.now given.now answer.status answer.text.items) }
{
    let mut table = blank_table(alloc, cell_count(spec))?;
    match given.whole(&mut table) {
        Ok(()) => verdict_on(alloc, source, spec, &table, history_name),
        Err(cell) => Ok(Answer {
            status: Status::Refused,
            text: unknown_line(alloc, spec, history_name, cell)?,
        }),
    }
}

/// What is said of the verdict on a table.
fn verdict_on(
    alloc: Global,
    source: Source<'_>,
    spec: &Spec,
    table: &Table,
    history_name: &str,
) -> Result<Answer, AllocError>
    requires { IsTable (world_of spec.now) table.now }
    ensures { IfOk result (λ answer. SaysVerdict source.entry.file.now source.entry.text.now source.entry.tokens.now spec.now history_name.now (first_false spec.now table.now) answer.status answer.text.items) }
{
    match check(alloc, spec, table)? {
        Verdict::True => Ok(Answer {
            status: Status::Done,
            text: true_line(alloc, source.file, history_name)?,
        }),
        Verdict::False(number, instant) => Ok(Answer {
            status: Status::False,
            text: false_words(alloc, source, spec, table, number, instant)?,
        }),
    }
}

/// A table of this many cells, each with the index 0.
fn blank_table(alloc: Global, cells: u32) -> Result<Table, AllocError>
    ensures { IfOk result (λ table. length table ≡ cells) }
{
    let mut table = Table::new(alloc);
    for _cell in 0..cells {
        if let Err((_, error)) = table.push(0) {
            return Err(error);
        }
    }
    Ok(table)
}
