//! The words of the command line.
ghost use Rattle.std.specs.Prelude.{◌≡◌, ◌∷◌, [], Some, None, MatchOption};
ghost use Rattle.trio_io.specs.Words.{word_bytes};
ghost use Rattle.explain_answers.specs.Command.{task_of, asked_on, asked_of};

use trio_io::is_file_name;

/// What a command does with a specification and a history.
#[derive(Clone, Copy, PartialEq, Eq)]
pub enum Task {
    /// Whether the history satisfies the specification.
    Check,
    /// Every complete history that extends the given one and satisfies the specification.
    Complete,
}

/// What the words ask for: a task, with the names of the specification's and the history's file.
#[derive(Clone, Copy)]
pub struct Command<'a> {
    pub task: Task,
    pub spec: &'a str,
    pub history: &'a str,
}

/// The command that the words are, if they are one.
pub fn read_words(words: &[String]) -> Option<Command<'_>>
    ensures { MatchOption result (asked_of (word_bytes words.now) ≡ None) (λ command. asked_of (word_bytes words.now) ≡ Some (record { task_ = command.task; spec = command.spec.now; history = command.history.now })) }
{
    match words {
        [word, spec, history] => read_three(word.as_str(), spec.as_str(), history.as_str()),
        _ => None,
    }
}

fn read_three<'a>(word: &str, spec: &'a str, history: &'a str) -> Option<Command<'a>>
    ensures { MatchOption result (asked_of (word.now ∷ spec.now ∷ history.now ∷ []) ≡ None) (λ command. asked_of (word.now ∷ spec.now ∷ history.now ∷ []) ≡ Some (record { task_ = command.task; spec = command.spec.now; history = command.history.now })) }
{
    if !is_file_name(spec) || !is_file_name(history) {
        return None;
    }
    match task_of(word) {
        Some(task) => Some(Command {
            task,
            spec,
            history,
        }),
        None => None,
    }
}

fn task_of(word: &str) -> Option<Task>
    ensures { result ≡ task_of word.now }
{
    if word == "check" {
        Some(Task::Check)
    } else if word == "complete" {
        Some(Task::Complete)
    } else {
        None
    }
}
