//! The law of completions, and what each status tells in words, as the contracts of functions that do nothing.
ghost use Rattle.trio_main.specs.Laws.{CompletionsLaw, CompletionsOrder};
ghost use Rattle.trio_main.specs.Told.{CheckTrueLaw, CheckFalseLaw, CheckRefusedLaw, CompleteLaw, CompleteRefusedLaw, NeverFalseLaw, UsageLaw, UnreadLaw, UnwrittenLaw, MemoryLaw, NeverLaw, TwoFilesLaw, SavesNoneLaw, JudgesTwice};
ghost use Rattle.std.specs.Prelude.{◌≡◌, None};
ghost use Rattle.trio_io.specs.Words.{word_bytes};
ghost use Rattle.trio_jobs.specs.Command.{command_of};

use crate::top::trio_plain;
use history_table::given_values_stay_and_gaps_are_found;
use std::alloc::Global;
use trio_io::{Bell, Shelf, Sink};
use trio_jobs::Status;

/// The completions of a given history are the tables that extend it and make the specification true. They are in order, each once.
pub fn completions_are_the_true_extensions()
    ensures all { CompletionsLaw }
    ensures once { CompletionsOrder }
{}

/// Status 0 of `check` tells that every axiom is true throughout the history, status 1 which is the first that is false and where, and status 4
/// the first fault of the files, or the first cell whose value is not known; each with what was written.
pub fn check_tells_the_truth()
    ensures done { CheckTrueLaw }
    ensures fails { CheckFalseLaw }
    ensures refused { CheckRefusedLaw }
{
    given_values_stay_and_gaps_are_found();
}

/// Status 0 of `complete` tells that just the true extensions of the given history were listed, in order; status 1 never comes, and status 4 tells
/// the first fault of the files.
pub fn complete_lists_the_true_extensions()
    ensures done { CompleteLaw }
    ensures never { NeverFalseLaw }
    ensures refused { CompleteRefusedLaw }
{}

/// The statuses 2, 5, 6 and 7 of any command tell their causes, and what was written; 3 and 8 never come.
pub fn statuses_tell_their_causes()
    ensures usage { UsageLaw }
    ensures unread { UnreadLaw }
    ensures unwritten { UnwrittenLaw }
    ensures memory { MemoryLaw }
    ensures never { NeverLaw }
{}

/// Each command has places for two files, so a call fetches two at most; and none saves a file.
pub fn commands_read_two_files_and_save_none()
    ensures reads { TwoFilesLaw }
    ensures saves { SavesNoneLaw }
{}

/// Two calls with the same words over one shelf, one sink and one bell. Where the words are `check`, shelf and sink tell and both calls end with 0, every
/// axiom is true throughout the history that the shelf told at first, and `true` was written twice: what a call leaves is what the next one needs.
pub fn check_twice<F: Shelf, K: Sink, B: Bell>(
    alloc: Global,
    words: &[String],
    shelf: &mut F,
    out: &mut K,
    bell: &mut B,
) -> (Status, Status)
    requires { (B.seen bell.old).armed ≡ None }
    ensures { JudgesTwice (command_of (word_bytes words.now)) (F.seen shelf.old) (K.seen out.old) (K.seen out.new) result.0 result.1 }
{
    let first = trio_plain(alloc, words, shelf, out, bell);
    let second = trio_plain(alloc, words, shelf, out, bell);
    (first, second)
}
