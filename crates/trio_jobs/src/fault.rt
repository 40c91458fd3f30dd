//! Why a command could not answer.
ghost use Rattle.std.specs.Prelude.{◌≡◌, ◌<◌, ◌⊎◌, ℕ, length};
ghost use Rattle.trio_types.specs.Cells.{rows_of};
ghost use Rattle.trio_types.specs.Verdict.{world_of};
ghost use Rattle.trio_jobs.specs.Fault.{status_of, spec_refusal, history_refusal};

use crate::status::Status;
use history_table::{HistFault, row_name};
use std::alloc::Global;
use trio_base::Name;
use trio_reader::SpecFault;
use trio_types::Spec;

/// A text that a command reads.
#[derive(Clone, Copy)]
pub enum Text {
    Spec,
    History,
}

/// Why a command could not answer. No fault that the readers' refusals become has an inner want of memory, or a missing row without its name.
#[derive(Drop)]
pub enum Fault {
    /// A file is not there, or could not be read.
    Read,
    /// A file is longer than its limit.
    TooLong(Text),
    /// The specification's text is refused.
    Spec(SpecFault),
    /// The history's text is refused.
    History(HistFault),
    /// The history has no line for the row of this name.
    Missing(Name),
    /// The history does not know the value of this row at this instant, which the command needs.
    Unknown(Name, u32),
    /// The specification has no goal of the name that is asked for.
    Goal,
    /// A write failed.
    Write,
    /// Want of memory.
    Memory,
}

impl Fault {
    /// The refusal of a specification's text.
    pub fn of_spec(fault: SpecFault) -> Fault
        ensures { result ≡ spec_refusal fault }
    {
        match fault {
            SpecFault::Memory => Fault::Memory,
            _ => Fault::Spec(fault),
        }
    }

    /// The refusal of a history's text. A missing row is named, and where there is no memory for its name the fault is that.
    pub fn of_history(alloc: Global, spec: &Spec, fault: HistFault) -> Fault
        requires { (row : ℕ) → fault ≡ HistFault.MissingRow row → row < length (rows_of (world_of spec.now)) }
        ensures { (result ≡ history_refusal (world_of spec.now) fault) ⊎ (result ≡ Fault.Memory) }
    {
        match fault {
            HistFault::Memory => Fault::Memory,
            HistFault::MissingRow(row) => match row_name(alloc, spec, row) {
                Ok(name) => Fault::Missing(name),
                Err(_) => Fault::Memory,
            },
            _ => Fault::History(fault),
        }
    }

    /// How a command with this fault ends.
    pub fn status(&self) -> Status
        ensures { result ≡ status_of self.now }
    {
        match self {
            Fault::Read => Status::ReadFault,
            Fault::TooLong(_)
            | Fault::Spec(_)
            | Fault::History(_)
            | Fault::Missing(_)
            | Fault::Unknown(_, _)
            | Fault::Goal => Status::Refused,
            Fault::Write => Status::WriteFault,
            Fault::Memory => Status::Memory,
        }
    }
}
