//! `complete`: every complete history that extends a given one and satisfies the specification.
ghost use Rattle.std.specs.Prelude.{Some};
ghost use Rattle.trio_types.specs.Verdict.{world_of};
ghost use Rattle.history_table.specs.Texts.{list_text};
ghost use Rattle.branch_state.specs.Models.{models};
ghost use Rattle.trio_jobs.specs.Answer.{Ends, GivesOrWants};
ghost use Rattle.trio_jobs.specs.Call.{Beside};
ghost use Rattle.trio_jobs.specs.declared.command.Command.{Command};
ghost use Rattle.trio_jobs.specs.declared.status.Status.{Status};
ghost use Rattle.trio_main.specs.Complete.{complete_job};
ghost use Rattle.trio_main.specs.Tell.{Leaves};

use branch_state::Problem;
use std::alloc::Global;
use trio_base::Name;
use trio_io::{Shelf, Sink};
use trio_jobs::{Fault, Status, give_list, load};
use trio_workers::all_models;

/// Writes the list of the complete histories that extend the given history in one file and satisfy the specification in another. The fault that
/// comes back is still to be said, but for `Write`.
pub fn job_complete<F: Shelf, K: Sink>(
    alloc: Global,
    shelf: &mut F,
    out: &mut K,
    spec: &Name,
    history: &Name,
) -> Result<Status, Fault>
    ensures leaves { Beside (F.seen shelf.old) (F.seen shelf.new) (Leaves (Some (Command.Complete spec.now history.now))) }
    ensures ends { Beside (F.seen shelf.old) (F.seen shelf.new) (Ends (complete_job spec.now history.now) (K.seen out.old) (K.seen out.new) result) }
{
    let problem = load(alloc, shelf, spec, history, None)?;
    give_models(alloc, out, &problem)
}

/// Writes the list of a problem's models. `Memory` comes before the first write.
fn give_models<K: Sink>(alloc: Global, out: &mut K, problem: &Problem) -> Result<Status, Fault>
    ensures { GivesOrWants Status.Done (list_text (world_of problem.now.spec) (models problem.now)) (K.seen out.old) (K.seen out.new) result }
{
    match all_models(alloc, problem) {
        Ok(found) => give_list(alloc, out, &problem.spec, found),
        Err(_) => Err(Fault::Memory),
    }
}
