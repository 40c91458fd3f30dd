//! The words of the command line.
ghost use Rattle.std.specs.Prelude.{◌≡◌, ◌∷◌, [], IfOk};
ghost use Rattle.trio_io.specs.Words.{word_bytes};
ghost use Rattle.trio_jobs.specs.Command.{command_of};

use std::alloc::Global;
use trio_base::Name;
use trio_io::is_file_name;

/// What the words ask for.
#[derive(Drop)]
pub enum Command {
    /// Whether a history satisfies a specification: the names of the specification's and the history's file.
    Check(Name, Name),
    /// Every complete history that extends a given one and satisfies a specification: the names of the specification's and the history's file.
    Complete(Name, Name),
}

/// Why words are no command.
#[derive(Clone, Copy)]
pub enum WordsFault {
    /// They ask for nothing that there is.
    Usage,
    /// Want of memory.
    Memory,
}

/// The command that the words are. `Usage` comes exactly where they are none.
pub fn read_words(alloc: Global, words: &[String]) -> Result<Command, WordsFault>
    ensures ok { IfOk result (λ command. command_of (word_bytes words.now) ≡ Some command) }
    ensures usage { result ≡ Err WordsFault.Usage → command_of (word_bytes words.now) ≡ None }
{
    match words {
        [word, spec, history] => read_three(alloc, word.as_str(), spec.as_str(), history.as_str()),
        _ => Err(WordsFault::Usage),
    }
}

fn read_three(alloc: Global, word: &str, spec: &str, history: &str) -> Result<Command, WordsFault>
    ensures ok { IfOk result (λ command. command_of (word.now ∷ spec.now ∷ history.now ∷ []) ≡ Some command) }
    ensures usage { result ≡ Err WordsFault.Usage → command_of (word.now ∷ spec.now ∷ history.now ∷ []) ≡ None }
{
    if !is_file_name(spec) || !is_file_name(history) {
        return Err(WordsFault::Usage);
    }
    let is_check = word == "check";
    if !is_check && word != "complete" {
        return Err(WordsFault::Usage);
    }
    let spec = Name::new(alloc, spec).map_err(|_| WordsFault::Memory)?;
    let history = Name::new(alloc, history).map_err(|_| WordsFault::Memory)?;
    if is_check {
        return Ok(Command::Check(spec, history));
    }
    Ok(Command::Complete(spec, history))
}
