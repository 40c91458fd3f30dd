//! How a command ended.
ghost use Rattle.std.specs.Prelude.{◌≡◌};
ghost use Rattle.trio_jobs.specs.Status.{status_number};

/// How a command ended.
#[derive(Clone, Copy)]
pub enum Status {
    /// The text due was written to its end.
    Done,
    /// `check` found the specification false in the history.
    False,
    /// The words are no command.
    Usage,
    /// A run was stopped, and what it found and left was saved. No command stops yet.
    Stopped,
    /// A text was refused.
    Refused,
    /// A file is not there, or could not be read.
    ReadFault,
    /// A write failed.
    WriteFault,
    /// Want of memory.
    Memory,
    /// A file could not be saved. No command saves yet.
    SaveFault,
}

impl Status {
    /// The number with which the program ends.
    pub fn number(self) -> u8
        ensures { result ≡ status_number self }
    {
        match self {
            Status::Done => 0,
            Status::False => 1,
            Status::Usage => 2,
            Status::Stopped => 3,
            Status::Refused => 4,
            Status::ReadFault => 5,
            Status::WriteFault => 6,
            Status::Memory => 7,
            Status::SaveFault => 8,
        }
    }
}
