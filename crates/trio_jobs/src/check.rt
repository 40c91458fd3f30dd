//! `check`: whether a history satisfies a specification.
ghost use Rattle.std.specs.Prelude.{◌≡◌, ◌<◌, ◌⊎◌, ◌++◌, length, Some, IfOk, string_bytes, slice_get, codes, decimal};
ghost use Rattle.trio_io.specs.Outside.{OnlyReads};
ghost use Rattle.trio_types.specs.Verdict.{world_of, first_false};
ghost use Rattle.trio_types.specs.Cells.{cells_of, IsTable};
ghost use Rattle.history_table.specs.Fitting.{IsGiven};
ghost use Rattle.history_check.specs.Answers.{verdict_of};
ghost use Rattle.trio_jobs.specs.Call.{Beside};
ghost use Rattle.trio_jobs.specs.Check.{check_job, name_of, SaysVerdict, unknown_fault, Judges};
ghost use Rattle.trio_jobs.specs.Answer.{Computes, Ends};
ghost use Rattle.trio_jobs.specs.Text.{text_of};

use crate::answer::{Answer, give};
use crate::fault::Fault;
use crate::loading::{load_history, load_spec};
use crate::status::Status;
use history_check::{Verdict, check};
use history_table::{Given, Table, row_name};
use std::alloc::{AllocError, Global};
use trio_base::Name;
use trio_io::{Shelf, Sink};
use trio_types::{Spec, cell_count};

/// Checks whether the history in one file satisfies the specification in another, and writes the verdict. The fault that comes back is still to
/// be said, but for `Write`.
pub fn job_check<F: Shelf, K: Sink>(
    alloc: Global,
    shelf: &mut F,
    out: &mut K,
    spec: &Name,
    history: &Name,
) -> Result<Status, Fault>
    ensures reads { OnlyReads 2 (F.seen shelf.old) (F.seen shelf.new) }
    ensures ends { Beside (F.seen shelf.old) (F.seen shelf.new) (Ends (check_job spec.now history.now) (K.seen out.old) (K.seen out.new) result) }
{
    match check_answer(alloc, shelf, spec, history) {
        Ok(answer) => give(out, &answer),
        Err(fault) => Err(fault),
    }
}

/// Reads the two files and checks the one against the other. It writes nothing.
fn check_answer<F: Shelf>(
    alloc: Global,
    shelf: &mut F,
    spec_name: &Name,
    history_name: &Name,
) -> Result<Answer, Fault>
    ensures reads { OnlyReads 2 (F.seen shelf.old) (F.seen shelf.new) }
    ensures computes { Beside (F.seen shelf.old) (F.seen shelf.new) (Computes (check_job spec_name.now history_name.now) result) }
{
    let spec = match load_spec(alloc, shelf, spec_name) {
        Ok(spec) => spec,
        Err(fault) => return Err(fault),
    };
    let given = load_history(alloc, shelf, &spec, history_name)?;
    judged(alloc, &spec, &given)
}

/// The verdict on a given history, or the fault that names its first unknown cell.
fn judged(alloc: Global, spec: &Spec, given: &Given) -> Result<Answer, Fault>
    requires { IsGiven (world_of spec.now) given.now }
    ensures { Judges spec.now given.now result }
{
    let Ok(mut table) = Table::blank(alloc, cell_count(spec)) else {
        return Err(Fault::Memory);
    };
    match given.whole(&mut table) {
        Ok(()) => match verdict_answer(alloc, spec, &table) {
            Ok(answer) => Ok(answer),
            Err(_) => Err(Fault::Memory),
        },
        Err(cell) => Err(unknown(alloc, spec, cell)),
    }
}

/// The fault that names a cell, or want of memory for its row's name.
fn unknown(alloc: Global, spec: &Spec, cell: u32) -> Fault
    requires { cell < length (cells_of (world_of spec.now)) }
    ensures { (result ≡ unknown_fault (world_of spec.now) cell) ⊎ (result ≡ Fault.Memory) }
{
    match row_name(alloc, spec, cell / spec.instants) {
        Ok(name) => Fault::Unknown(name, cell % spec.instants),
        Err(_) => Fault::Memory,
    }
}

/// The verdict on a table, with its line. Only want of memory refuses it.
fn verdict_answer(alloc: Global, spec: &Spec, table: &Table) -> Result<Answer, AllocError>
    requires { IsTable (world_of spec.now) table.now }
    ensures { IfOk result (λ answer. SaysVerdict spec.now (verdict_of (first_false spec.now table.now)) answer.status (text_of answer)) }
{
    match check(alloc, spec, table)? {
        Verdict::True => Answer::line(alloc, Status::Done, String::from_str(alloc, "true\n")?),
        Verdict::False(number, instant) => {
            let line = false_line(alloc, axiom_name(spec, number), instant)?;
            Answer::line(alloc, Status::False, line)
        }
    }
}

fn false_line(alloc: Global, name: &str, instant: u32) -> Result<String, AllocError>
    ensures { IfOk result (λ line. string_bytes line ≡ codes "false " ++ name.now ++ codes " " ++ decimal instant ++ codes "\n") }
{
    let mut line = String::from_str(alloc, "false ")?;
    line.push_str(name)?;
    let rest = format!(in alloc; " {instant}\n")?;
    line.push_str(rest.as_str())?;
    Ok(line)
}

/// The name of the axiom of this number; empty where there is none.
fn axiom_name(spec: &Spec, number: u32) -> &str
    ensures { result.now ≡ name_of (slice_get spec.now.axioms number) }
{
    match spec.axioms.as_slice().get(number as usize) {
        Some(axiom) => axiom.name.as_str(),
        None => "",
    }
}
