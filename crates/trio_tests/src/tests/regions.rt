//! Regions of the search, put together as it goes and afterwards, and runs of one worker.
ghost use Rattle.std.specs.Prelude.{◌≡◌, ◌<◌, ◌-◌, [], All, Some, length, slice_get};
ghost use Rattle.branch_state.specs.Branches.{Fits};

use super::branches::{add_branch, fitting_root, problem_of, stepped};
use super::claims::{holds, same as equal};
use super::tables::read_table;
use super::texts::Text;
use branch_state::{Branch, Branches, List, Problem, Tables, copy, same, same_problem};
use decompose::{Stepped, Steps};
use emit_ledger::{Assembled, Region, assemble, sort_tables};
use std::marker::Brand;
use std::process::Abort;
use std::sync::ledger::{Blank, Ledger};
use trio_workers::laws::root_gives_all_models;
use trio_workers::{Outcome, Stopped, all_models, run_one};

/// Once `p` holds, it holds at each later instant.
const LASTING: &str = "time 3; item p : bool; axiom A : Dist(true, 1) & p -> Futr(p, 1);";

/// The same problem, under another name of its axiom.
const RENAMED: &str = "time 3; item p : bool; axiom B : Dist(true, 1) & p -> Futr(p, 1);";

/// Its models.
const MODELS: [[u16; 3]; 4] = [[0, 0, 0], [0, 0, 1], [0, 1, 1], [1, 1, 1]];

/// The same with another table.
const WITH_KEPT: [[u16; 3]; 5] = [[0, 0, 0], [0, 0, 1], [0, 1, 0], [0, 1, 1], [1, 1, 1]];

/// The problem of a specification on `p` at three instants, with no value given.
fn open(rt: &(impl Abort + AllocGlobal), spec: &str) -> Problem {
    problem_of(rt, spec, b"p: ? ? ?")
}

/// All tables, in order.
const TABLES: [[u16; 3]; 8] = [
    [0, 0, 0],
    [0, 0, 1],
    [0, 1, 0],
    [0, 1, 1],
    [1, 0, 0],
    [1, 0, 1],
    [1, 1, 0],
    [1, 1, 1],
];

/// Asserts that tables are these, in this order.
fn are(rt: &impl Abort, tables: &Tables, wanted: &[[u16; 3]]) {
    equal(rt, &tables.len(), &wanted.len());
    for (table, want) in tables.as_slice().iter().zip(wanted) {
        equal(rt, &table.as_slice(), &want.as_slice());
    }
}

/// Asserts that branches are this one alone.
fn is_alone(rt: &impl Abort, branches: &Branches, wanted: &Branch) {
    equal(rt, &branches.len(), &1);
    for branch in branches.as_slice() {
        holds(rt, same(branch, wanted));
    }
}

/// The region of one step on a branch.
fn region_of_step<'p>(
    rt: &(impl Abort + AllocGlobal),
    problem: &'p Problem,
    branch: Branch,
) -> Region<'p>
    requires { Fits problem.now branch }
    ensures problem { result.problem ≡ problem.now }
    ensures start { result.start ≡ branch }
{
    match stepped(rt, problem, branch) {
        Stepped::Closed(shut) => Region::shut(rt.alloc(), &shut).expect(rt, "memory"),
        Stepped::Whole(leaf) => Region::leaf(rt.alloc(), leaf).expect(rt, "memory"),
        Stepped::Two(fork, _, _) => Region::fork(rt.alloc(), fork).expect(rt, "memory"),
    }
}

/// The region of a step on the last given branch of a region.
fn part_of_last<'p>(rt: &(impl Abort + AllocGlobal), region: &Region<'p>) -> Region<'p>
    requires { region.now.given ≡ [] → ⊥ }
    ensures problem { result.problem ≡ region.now.problem }
    ensures last { slice_get region.now.given (length region.now.given - 1) ≡ Some result.start }
{
    let problem = region.problem();
    let given = region.given();
    let last = copy(rt.alloc(), given.get(given.len() - 1)).expect(rt, "memory");
    region_of_step(rt, problem, last)
}

/// Absorbs the region of a step on the last given branch.
fn advance(rt: &(impl Abort + AllocGlobal), region: &mut Region<'_>)
    requires { region.old.given ≡ [] → ⊥ }
{
    let part = part_of_last(rt, region);
    if region.absorb(rt.alloc(), part).is_err() {
        panic!(rt; "memory");
    }
}

/// A region of the root that absorbs steps until nothing is given, and the regions of these steps.
#[derive(Drop)]
struct Searched<'p> {
    whole: Region<'p>,
    parts: Vec<Region<'p>>,
}

/// A search of at most 200 steps.
fn search<'p>(rt: &(impl Abort + AllocGlobal), problem: &'p Problem) -> Searched<'p> {
    let root = fitting_root(rt, problem);
    let mut searched = Searched {
        whole: Region::give(rt.alloc(), problem, &root).expect(rt, "memory"),
        parts: Vec::new(rt.alloc()),
    };
    take_steps(rt, &mut searched);
    searched
}

fn take_steps(rt: &(impl Abort + AllocGlobal), searched: &mut Searched<'_>) {
    for _ in 0..200 {
        if !searched.whole.given().is_empty() {
            let part = part_of_last(rt, &searched.whole);
            searched.parts.push(part).expect(rt, "memory");
            advance(rt, &mut searched.whole);
        }
    }
}

/// The root of a problem, in a list.
fn root_alone(rt: &(impl Abort + AllocGlobal), problem: &Problem) -> Branches
    ensures { All (Fits problem.now) result }
{
    let mut starts = Vec::new(rt.alloc());
    starts.push(fitting_root(rt, problem)).expect(rt, "memory");
    List::from_vec(starts)
}

/// The regions of the steps of a search.
fn parts_of<'p>(rt: &(impl Abort + AllocGlobal), problem: &'p Problem) -> Vec<Region<'p>> {
    let Searched { parts, .. } = search(rt, problem);
    parts
}

/// Asserts that a region of the root has found the models and gives nothing.
fn is_whole(rt: &(impl Abort + AllocGlobal), problem: &Problem, whole: Region<'_>) {
    let root = fitting_root(rt, problem);
    holds(rt, whole.given().is_empty());
    equal(rt, &whole.found().len(), &4);
    holds(rt, same(whole.start(), &root));
    holds(rt, same_problem(whole.problem(), problem));
    let found = sort_tables(whole.into_parts().found);
    are(rt, &found, &MODELS);
}

fn absorbs(rt: &(impl Abort + AllocGlobal), problem: &Problem) {
    let Searched { whole, .. } = search(rt, problem);
    is_whole(rt, problem, whole);
}

/// What a region of the root gives before the first step and behind each: the halves of a branch stand in its place, the left one last.
const GIVEN: [&str; 4] = [
    "3 3 3; 9 0 t 0; 9 1 t 0; 9 2 t 0",
    "3 3 3; 4 0 f 0; 8 0 t 0; 9 1 t 0; 9 2 t 0 | 3 3 3; 4 0 t 0; 9 1 t 0; 9 2 t 0",
    "3 3 3; 4 0 f 0; 8 0 t 0; 9 1 t 0; 9 2 t 0 | 3 3 3; 1 0 t 0; 2 0 f 0; 9 1 t 0; 9 2 t 0 | 3 3 3; 1 0 f 0; 9 1 t 0; 9 2 t 0",
    "3 3 3; 4 0 f 0; 8 0 t 0; 9 1 t 0; 9 2 t 0 | 3 3 3; 1 0 t 0; 2 0 f 0; 9 1 t 0; 9 2 t 0",
];

/// The branches that a region gives, with `|` between them.
fn given_text(rt: &(impl Abort + AllocGlobal), region: &Region<'_>) -> String {
    let mut text = Text::new(rt.alloc());
    for branch in region.given().as_slice() {
        text.put_between(" | ");
        add_branch(&mut text, branch);
    }
    text.whole(rt)
}

fn gives_in_order(rt: &(impl Abort + AllocGlobal), problem: &Problem) {
    let root = fitting_root(rt, problem);
    let mut whole = Region::give(rt.alloc(), problem, &root).expect(rt, "memory");
    for want in &GIVEN {
        let text = given_text(rt, &whole);
        equal(rt, &text.as_str(), want);
        if !whole.given().is_empty() {
            advance(rt, &mut whole);
        }
    }
}

/// Where nothing is wanted the tables are found in order, the left half of each branch before the right one.
#[test]
fn what_a_region_finds_in_order(rt: HostRuntime) {
    let problem = open(&rt, "time 3; item p : bool;");
    let Searched { whole, .. } = search(&rt, &problem);
    are(&rt, whole.found(), &TABLES);
}

/// What is assembled of these regions from the root.
fn assembled<'p>(
    rt: &(impl Abort + AllocGlobal),
    problem: &'p Problem,
    parts: Vec<Region<'p>>,
) -> Assembled
    ensures { All (Fits problem.now) result.rest }
{
    let starts = root_alone(rt, problem);
    assemble(rt.alloc(), problem, starts, List::from_vec(parts)).expect(rt, "memory")
}

/// Asserts that all regions are used.
fn uses_all(rt: &(impl Abort + AllocGlobal), problem: &Problem) {
    let made = assembled(rt, problem, parts_of(rt, problem));
    are(rt, &made.found, &MODELS);
    holds(rt, made.rest.is_empty());
    equal(rt, &made.dropped, &0);
}

/// Asserts that tables, with those that a region found, are the models.
fn are_with(rt: &impl Abort, found: Tables, last: Region<'_>) {
    let mut found = found.into_vec();
    let mut more = last.into_parts().found.into_vec();
    found.append(&mut more).expect(rt, "memory");
    let found = sort_tables(List::from_vec(found));
    are(rt, &found, &MODELS);
}

/// Asserts that without the last region just its branch is left. The search ends with a step that gives nothing, so that nothing follows from
/// it.
fn leaves_the_last(rt: &(impl Abort + AllocGlobal), problem: &Problem) {
    let mut parts = parts_of(rt, problem);
    let last = parts.pop().expect(rt, "a step");
    let made = assembled(rt, problem, parts);
    is_alone(rt, &made.rest, last.start());
    equal(rt, &made.dropped, &0);
    are_with(rt, made.found, last);
}

/// Asserts that no region is used where there is no start.
fn starts_nowhere(rt: &(impl Abort + AllocGlobal), problem: &Problem) {
    let parts = parts_of(rt, problem);
    let count = parts.len();
    let regions = List::from_vec(parts);
    let made = assemble(rt.alloc(), problem, List::new(rt.alloc()), regions);
    let made = made.expect(rt, "memory");
    holds(rt, made.found.is_empty());
    holds(rt, made.rest.is_empty());
    holds(rt, count > 0);
    equal(rt, &made.dropped, &(count as u64));
}

/// Asserts that the root alone is left where no region is used, of so many.
fn leaves_the_root<'p>(
    rt: &(impl Abort + AllocGlobal),
    problem: &'p Problem,
    parts: Vec<Region<'p>>,
) {
    let root = fitting_root(rt, problem);
    let count = parts.len();
    let made = assembled(rt, problem, parts);
    is_alone(rt, &made.rest, &root);
    holds(rt, made.found.is_empty());
    equal(rt, &made.dropped, &(count as u64));
}

/// What regions give and find, and what is assembled of all regions of a search, of all but the last, of none, and from no start.
#[test]
fn regions_of_a_search(rt: HostRuntime) {
    let problem = open(&rt, LASTING);
    gives_in_order(&rt, &problem);
    absorbs(&rt, &problem);
    uses_all(&rt, &problem);
    starts_nowhere(&rt, &problem);
    leaves_the_root(&rt, &problem, Vec::new(rt.alloc()));
    leaves_the_last(&rt, &problem);
}

/// No region of the second problem is used for the first.
#[test]
fn assembled_of_regions_of_another_problem(rt: HostRuntime) {
    let problem = open(&rt, LASTING);
    let renamed = open(&rt, RENAMED);
    let parts = parts_of(&rt, &renamed);
    holds(&rt, !parts.is_empty());
    leaves_the_root(&rt, &problem, parts);
}

/// A run, over a count of its own.
fn run(
    rt: &(impl Abort + AllocGlobal),
    problem: &Problem,
    kept: Tables,
    starts: Branches,
) -> Outcome
    requires { All (Fits problem.now) starts }
{
    counted::<Brand>(rt, problem, kept, starts, Blank::new(1))
}

fn counted<L: Ledger>(
    rt: &(impl Abort + AllocGlobal),
    problem: &Problem,
    kept: Tables,
    starts: Branches,
    blank: Blank,
) -> Outcome
    requires fit { All (Fits problem.now) starts }
    requires name { blank.name ≡ L.name }
    requires parts { blank.parts ≡ L.parts }
    requires some { 0 < L.parts }
{
    let mut steps = Steps::<L>::start(blank);
    run_one(rt.alloc(), problem, kept, starts, &mut steps).expect(rt, "memory")
}

/// The halves of the root, in a list.
fn halves(rt: &(impl Abort + AllocGlobal), problem: &Problem) -> Branches
    ensures { All (Fits problem.now) result }
{
    let root = fitting_root(rt, problem);
    let part = region_of_step(rt, problem, root);
    part.into_parts().given
}

/// Asserts that a run from the halves of the root finds the models beside what is kept, which stays, though it is no model.
fn runs_beside_kept(rt: &(impl Abort + AllocGlobal), problem: &Problem) {
    let starts = halves(rt, problem);
    equal(rt, &starts.len(), &2);
    let mut kept = Vec::new(rt.alloc());
    let table = read_table(rt, &problem.spec, "p: 0 1 0");
    kept.push(table).expect(rt, "memory");
    let outcome = run(rt, problem, List::from_vec(kept), starts);
    are(rt, &outcome.found, &WITH_KEPT);
    holds(rt, outcome.rest.is_empty());
    holds(rt, outcome.stopped == Stopped::No);
}

/// Asserts that a run from what an assembly leaves, with what it has found, finds the models where the later half of the steps was not taken.
fn goes_on_from_half(rt: &(impl Abort + AllocGlobal), problem: &Problem) {
    let mut parts = parts_of(rt, problem);
    parts.truncate(parts.len() / 2);
    let made = assembled(rt, problem, parts);
    holds(rt, !made.rest.is_empty());
    let outcome = run(rt, problem, made.found, made.rest);
    are(rt, &outcome.found, &MODELS);
}

/// The start of a region, in a list.
fn start_alone(rt: &(impl Abort + AllocGlobal), region: &Region<'_>) -> Branches
    ensures { All (Fits region.now.problem) result }
{
    let _problem = region.problem();
    let mut starts = Vec::new(rt.alloc());
    let start = copy(rt.alloc(), region.start()).expect(rt, "memory");
    starts.push(start).expect(rt, "memory");
    List::from_vec(starts)
}

/// Asserts that a run from the start of a region finds what the region has found, which gives nothing.
fn starts_again(rt: &(impl Abort + AllocGlobal), problem: &Problem) {
    let Searched { whole, .. } = search(rt, problem);
    let starts = start_alone(rt, &whole);
    let outcome = run(rt, whole.problem(), List::new(rt.alloc()), starts);
    are(rt, &outcome.found, &MODELS);
}

fn all_models_are(rt: &(impl Abort + AllocGlobal), problem: &Problem) {
    let found = all_models(rt.alloc(), problem).expect(rt, "memory");
    are(rt, &found, &MODELS);
}

/// What runs find from the root, from its halves, from what an assembly leaves, and from the start of a region.
#[test]
fn runs_of_one_worker(rt: HostRuntime) {
    root_gives_all_models();
    let problem = open(&rt, LASTING);
    all_models_are(&rt, &problem);
    runs_beside_kept(&rt, &problem);
    goes_on_from_half(&rt, &problem);
    starts_again(&rt, &problem);
}
