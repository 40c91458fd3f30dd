//! Fetching files and reading them.
ghost use Rattle.std.specs.Prelude.{◌≡◌, ◌<◌, ◌≤◌, length, Some, IfOk, IfErr, IfSome, position};
ghost use Rattle.std.specs.Option.{option_map};
ghost use Rattle.std.specs.Result.{result_map_both};
ghost use Rattle.std.specs.Str.{bytes_eq};
ghost use Rattle.trio_io.specs.Outside.{OnlyReads, Holds};
ghost use Rattle.trio_types.specs.Verdict.{world_of};
ghost use Rattle.history_table.specs.Fitting.{IsGiven};
ghost use Rattle.trio_jobs.specs.Load.{most_bytes, FileFault, YieldsSpec, YieldsHistory, IsSpecBytes, IsHistoryBytes, RefusesSpec, RefusesHistory};
ghost use Rattle.trio_jobs.specs.Loading.{HasCause, LoadsProblem, Loads, IsAskedFor, RefusesGoal};

use crate::fault::{Fault, Text};
use branch_state::{Problem, pose};
use derived_ops::{rewrite, with_goal};
use history_table::{Given, read_history};
use std::alloc::{AllocError, Global};
use trio_base::Name;
use trio_base::limits::{MOST_HISTORY_BYTES, MOST_SPEC_BYTES};
use trio_io::{Shelf, ShelfFault};
use trio_reader::read_spec;
use trio_types::{Axiom, Spec};

/// A specification, and the bytes of its file.
#[derive(Drop)]
pub struct SpecFile {
    pub bytes: Vec<u8>,
    pub spec: Spec,
}

/// A given history, and the bytes of its file.
#[derive(Drop)]
pub struct HistoryFile {
    pub bytes: Vec<u8>,
    pub given: Given,
}

/// Why a file gives nothing, and its bytes where they were read and refused.
#[derive(Drop)]
pub struct FileRefusal {
    pub fault: Fault,
    pub bytes: Vec<u8>,
}

/// The most bytes that a text of this kind may have.
fn limit(which: Text) -> u64
    ensures { result ≡ most_bytes which }
{
    match which {
        Text::Spec => MOST_SPEC_BYTES,
        Text::History => MOST_HISTORY_BYTES,
    }
}

/// The bytes of a file. `Read` comes where the fetch failed, `TooLong` where the file is longer than its limit.
fn load_text<F: Shelf>(
    alloc: Global,
    shelf: &mut F,
    which: Text,
    name: &Name,
) -> Result<Vec<u8>, Fault>
    ensures reads { OnlyReads 1 (F.seen shelf.old) (F.seen shelf.new) }
    ensures within { IfOk result (λ bytes. length bytes.items ≤ most_bytes which) }
    ensures there { IfOk result (λ bytes. Holds (F.seen shelf.old) name.now (Some bytes.items)) }
    ensures fault { IfErr result (HasCause (F.seen shelf.old) (F.seen shelf.new) (Unit {0}) (FileFault which (F.seen shelf.old) name.now)) }
{
    let mut bytes = Vec::new(alloc);
    match shelf.fetch(name.as_str(), limit(which), &mut bytes) {
        Ok(()) => Ok(bytes),
        Err(ShelfFault::Failed) => Err(Fault::Read),
        Err(ShelfFault::TooLong) => Err(Fault::TooLong(which)),
        Err(ShelfFault::Memory) => Err(Fault::Memory),
    }
}

/// The specification in a file, with the file's bytes.
pub fn load_spec_file<F: Shelf>(
    alloc: Global,
    shelf: &mut F,
    name: &Name,
) -> Result<SpecFile, FileRefusal>
    ensures reads { OnlyReads 1 (F.seen shelf.old) (F.seen shelf.new) }
    ensures loads { Loads (F.seen shelf.old) (F.seen shelf.new) (YieldsSpec (F.seen shelf.old) name.now) (result_map_both (λ file. file.spec) (λ refusal. refusal.fault) result) }
    ensures bytes { IfOk result (λ file. IsSpecBytes (F.seen shelf.old) name.now file.bytes.items file.spec) }
    ensures refused { IfErr result (λ refusal. RefusesSpec (F.seen shelf.old) name.now refusal.bytes.items refusal.fault) }
{
    let bytes = match load_text(alloc, shelf, Text::Spec, name) {
        Ok(bytes) => bytes,
        Err(fault) => return Err(FileRefusal::unread(alloc, fault)),
    };
    match read_spec(alloc, bytes.as_slice()) {
        Ok(spec) => Ok(SpecFile { bytes, spec }),
        Err(fault) => Err(FileRefusal {
            fault: Fault::of_spec(fault),
            bytes,
        }),
    }
}

/// The given history in a file, with the file's bytes.
pub fn load_history_file<F: Shelf>(
    alloc: Global,
    shelf: &mut F,
    spec: &Spec,
    name: &Name,
) -> Result<HistoryFile, FileRefusal>
    ensures reads { OnlyReads 1 (F.seen shelf.old) (F.seen shelf.new) }
    ensures loads { Loads (F.seen shelf.old) (F.seen shelf.new) (YieldsHistory (world_of spec.now) (F.seen shelf.old) name.now) (result_map_both (λ file. file.given) (λ refusal. refusal.fault) result) }
    ensures bytes { IfOk result (λ file. IsHistoryBytes (world_of spec.now) (F.seen shelf.old) name.now file.bytes.items file.given) }
    ensures refused { IfErr result (λ refusal. RefusesHistory (world_of spec.now) (F.seen shelf.old) name.now refusal.bytes.items refusal.fault) }
    ensures fits { IfOk result (λ file. IsGiven (world_of spec.now) file.given) }
{
    let bytes = match load_text(alloc, shelf, Text::History, name) {
        Ok(bytes) => bytes,
        Err(fault) => return Err(FileRefusal::unread(alloc, fault)),
    };
    match read_history(alloc, spec, bytes.as_slice()) {
        Ok(given) => Ok(HistoryFile { bytes, given }),
        Err(fault) => Err(FileRefusal {
            fault: Fault::of_history(alloc, spec, fault),
            bytes,
        }),
    }
}

impl FileRefusal {
    ghost use Rattle.std.specs.Prelude.{◌≡◌, []};

    /// The refusal of a file whose bytes were not read.
    fn unread(alloc: Global, fault: Fault) -> FileRefusal
        ensures fault { result.fault ≡ fault }
        ensures none { result.bytes.items ≡ [] }
    {
        FileRefusal {
            fault,
            bytes: Vec::new(alloc),
        }
    }
}

/// The specification in a file.
pub(crate) fn load_spec<F: Shelf>(alloc: Global, shelf: &mut F, name: &Name) -> Result<Spec, Fault>
    ensures reads { OnlyReads 1 (F.seen shelf.old) (F.seen shelf.new) }
    ensures loads { Loads (F.seen shelf.old) (F.seen shelf.new) (YieldsSpec (F.seen shelf.old) name.now) result }
{
    match load_spec_file(alloc, shelf, name) {
        Ok(file) => Ok(file.spec),
        Err(refusal) => Err(refusal.fault),
    }
}

/// The given history in a file.
pub(crate) fn load_history<F: Shelf>(
    alloc: Global,
    shelf: &mut F,
    spec: &Spec,
    name: &Name,
) -> Result<Given, Fault>
    ensures reads { OnlyReads 1 (F.seen shelf.old) (F.seen shelf.new) }
    ensures loads { Loads (F.seen shelf.old) (F.seen shelf.new) (YieldsHistory (world_of spec.now) (F.seen shelf.old) name.now) result }
    ensures fits { IfOk result (IsGiven (world_of spec.now)) }
{
    match load_history_file(alloc, shelf, spec, name) {
        Ok(file) => Ok(file.given),
        Err(refusal) => Err(refusal.fault),
    }
}

/// The problem that a specification in one file and a given history in another pose, with the goal of this name as its last axiom, if one is asked
/// for. Its core is the specification's axioms, rewritten. The first fault in the order of the names comes back: a file is not there or its fetch
/// failed (`Read`), is longer than its limit (`TooLong`), or its text is refused; and then `Goal`, where the specification has no goal of the name.
pub fn load<F: Shelf>(
    alloc: Global,
    shelf: &mut F,
    spec_name: &Name,
    history_name: &Name,
    goal: Option<&Name>,
) -> Result<Problem, Fault>
    ensures reads { OnlyReads 2 (F.seen shelf.old) (F.seen shelf.new) }
    ensures loads { LoadsProblem (F.seen shelf.old) (F.seen shelf.new) spec_name.now history_name.now (option_map (λ name. name.now) goal.entry) result }
{
    let spec = load_spec(alloc, shelf, spec_name)?;
    let given = load_history(alloc, shelf, &spec, history_name)?;
    let spec = asked_for(alloc, spec, goal)?;
    match rewrite(alloc, &spec) {
        Ok(core) => Ok(pose(spec, core, given)),
        Err(_) => Err(Fault::Memory),
    }
}

/// The specification with the goal of this name among its axioms, if one is asked for. `Goal` comes where it has none of that name.
fn asked_for(alloc: Global, spec: Spec, goal: Option<&Name>) -> Result<Spec, Fault>
    ensures asked { IfOk result (IsAskedFor spec (option_map (λ name. name.now) goal.entry)) }
    ensures fault { IfErr result (RefusesGoal spec (option_map (λ name. name.now) goal.entry)) }
{
    let Some(name) = goal else {
        return Ok(spec);
    };
    let Some(goal) = goal_named(spec.goals.as_slice(), name.as_str()) else {
        return Err(Fault::Goal);
    };
    let Ok(goal) = u32::try_from(goal) else {
        return Err(Fault::Memory);
    };
    match with_goal(alloc, &spec, goal) {
        Ok(asked) => Ok(asked),
        Err(AllocError) => Err(Fault::Memory),
    }
}

/// The number of the goal of this name.
fn goal_named(goals: &[Axiom], name: &str) -> Option<usize>
    ensures is { result ≡ position (λ goal. bytes_eq goal.name name.now) goals.now }
    ensures within { IfSome result (λ goal. goal < length goals.now) }
{
    goals.iter().position(|goal| goal.name.as_str() == name)
}
