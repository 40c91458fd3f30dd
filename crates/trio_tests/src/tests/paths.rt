//! Random paths of steps, from the roots of made problems to their ends, against the models that the checker finds.
ghost use Rattle.std.specs.Prelude.{◌≡◌, IfSome};
ghost use Rattle.std.specs.List.{All};
ghost use Rattle.trio_types.specs.Cells.{IsTable};
ghost use Rattle.branch_state.specs.Posed.{world_of_problem};
ghost use Rattle.branch_state.specs.Branches.{Fits};

use super::branches::{fitting_root, half, problem_of, stepped};
use super::claims::{holds, same};
use super::maker::Maker;
use super::models::{holding, models_of};
use super::spec_maker::made_small_spec;
use super::tables::made_open_given;
use super::weights::weight;
use branch_state::{Branch, Problem};
use decompose::{Fork, Stepped};
use history_table::{Table, given_text};
use std::process::Abort;
use trio_reader::read_spec;
use trio_types::Bytes;

/// How many paths ended with no model and with one, and how often a half got all models of a branch and each half some.
#[derive(Drop)]
struct Seen {
    closed: u32,
    whole: u32,
    kept: u32,
    shared: u32,
}

/// Which of the models a branch, its left half and its right half hold in.
#[derive(Drop)]
struct Shares {
    start: Vec<bool>,
    left: Vec<bool>,
    right: Vec<bool>,
}

/// Where the halves of a fork hold, beside where its branch does.
fn shares_of(
    rt: &(impl Abort + AllocGlobal),
    problem: &Problem,
    fork: &Fork<'_>,
    models: &[Table],
    start: Vec<bool>,
) -> Shares
    requires of_problem { fork.now.problem ≡ problem.now }
    requires tables_fit { All (IsTable (world_of_problem problem.now)) models.now }
{
    let _problem = fork.problem();
    let left = holding(rt, problem, fork.left(), models);
    let right = holding(rt, problem, fork.right(), models);
    Shares { start, left, right }
}

/// Asserts that each model of a branch is one of just one half, and each other model of none.
fn parts(rt: &impl Abort, shares: &Shares) {
    for place in 0..shares.start.len() {
        let start = is_at(shares.start.as_slice(), place);
        let left = is_at(shares.left.as_slice(), place);
        let right = is_at(shares.right.as_slice(), place);
        holds(rt, is_parted(start, left, right));
    }
}

fn is_parted(start: bool, left: bool, right: bool) -> bool {
    if start {
        left != right
    } else {
        !left && !right
    }
}

fn is_at(held: &[bool], place: usize) -> bool {
    match held.get(place) {
        Some(is) => *is,
        None => false,
    }
}

fn count_parted(shares: &Shares, seen: &mut Seen) {
    if shares.left.contains(&true) && shares.right.contains(&true) {
        seen.shared = seen.shared.saturating_add(1);
    } else if shares.start.contains(&true) {
        seen.kept = seen.kept.saturating_add(1);
    }
}

/// Asserts that a branch holds in its table, and in no other model.
fn is_alone(rt: &impl Abort, held: &[bool], models: &[Table], table: &Table) {
    holds(rt, held.contains(&true));
    for (place, model) in models.iter().enumerate() {
        let is_table = model.as_slice() == table.as_slice();
        same(rt, &is_table, &is_at(held, place));
    }
}

/// One step: asserts what its answer holds, and gives one of the halves of a branch that is parted.
fn next(
    rt: &(impl Abort + AllocGlobal),
    problem: &Problem,
    branch: Branch,
    models: &[Table],
    is_left: bool,
    seen: &mut Seen,
) -> Option<Branch>
    requires fits { Fits problem.now branch }
    requires tables_fit { All (IsTable (world_of_problem problem.now)) models.now }
    ensures { IfSome result (Fits problem.now) }
{
    let start = holding(rt, problem, &branch, models);
    match stepped(rt, problem, branch) {
        Stepped::Closed(_) => {
            ends_closed(rt, start.as_slice(), seen);
            None
        }
        Stepped::Whole(leaf) => {
            ends_whole(rt, start.as_slice(), models, leaf.table(), seen);
            None
        }
        Stepped::Two(fork, _, _) => {
            Some(parted(rt, problem, fork, models, start, is_left, seen))
        }
    }
}

/// Asserts that a branch holds in no model.
fn ends_closed(rt: &impl Abort, held: &[bool], seen: &mut Seen) {
    holds(rt, !held.contains(&true));
    seen.closed = seen.closed.saturating_add(1);
}

fn ends_whole(rt: &impl Abort, held: &[bool], models: &[Table], table: &Table, seen: &mut Seen) {
    is_alone(rt, held, models, table);
    seen.whole = seen.whole.saturating_add(1);
}

/// Asserts that the halves of a branch part its models, and gives one of the two.
fn parted(
    rt: &(impl Abort + AllocGlobal),
    problem: &Problem,
    fork: Fork<'_>,
    models: &[Table],
    start: Vec<bool>,
    is_left: bool,
    seen: &mut Seen,
) -> Branch
    requires of_problem { fork.problem ≡ problem.now }
    requires tables_fit { All (IsTable (world_of_problem problem.now)) models.now }
    ensures { Fits problem.now result }
{
    let shares = shares_of(rt, problem, &fork, models, start);
    parts(rt, &shares);
    count_parted(&shares, seen);
    half(problem, fork, is_left)
}

/// A path from the root to its end: each branch is lighter than the one before, so it ends within the root's weight.
fn path(
    rt: &(impl Abort + AllocGlobal),
    problem: &Problem,
    models: &[Table],
    maker: &mut Maker,
    seen: &mut Seen,
)
    requires { All (IsTable (world_of_problem problem.now)) models.now }
{
    let root = fitting_root(rt, problem);
    holds_in_all(rt, problem, &root, models);
    let most = weight(rt, problem, &root);
    holds(
        rt,
        ends_within(rt, problem, root, models, most, maker, seen),
    );
}

/// Whether a path from a branch ends within one step more than this many.
fn ends_within(
    rt: &(impl Abort + AllocGlobal),
    problem: &Problem,
    root: Branch,
    models: &[Table],
    most: u64,
    maker: &mut Maker,
    seen: &mut Seen,
) -> bool
    requires fits { Fits problem.now root }
    requires tables_fit { All (IsTable (world_of_problem problem.now)) models.now }
{
    let mut branch = root;
    for _step in 0..most.saturating_add(1) {
        match next_lighter(rt, problem, branch, models, maker, seen) {
            Some(chosen) => branch = chosen,
            None => return true,
        }
    }
    false
}

/// One step, to a half that is lighter where the branch is parted.
fn next_lighter(
    rt: &(impl Abort + AllocGlobal),
    problem: &Problem,
    branch: Branch,
    models: &[Table],
    maker: &mut Maker,
    seen: &mut Seen,
) -> Option<Branch>
    requires fits { Fits problem.now branch }
    requires tables_fit { All (IsTable (world_of_problem problem.now)) models.now }
    ensures { IfSome result (Fits problem.now) }
{
    let before = weight(rt, problem, &branch);
    let is_left = maker.number(2) == 0;
    let found = next(rt, problem, branch, models, is_left, seen);
    if let Some(chosen) = &found {
        holds(rt, weight(rt, problem, chosen) < before);
    }
    found
}

fn holds_in_all(
    rt: &(impl Abort + AllocGlobal),
    problem: &Problem,
    branch: &Branch,
    models: &[Table],
)
    requires fits { Fits problem.now branch.now }
    requires tables_fit { All (IsTable (world_of_problem problem.now)) models.now }
{
    let held = holding(rt, problem, branch, models);
    holds(rt, !held.contains(&false));
}

/// The text of a made given history that leaves few tables.
fn made_open_text(rt: &(impl Abort + AllocGlobal), maker: &mut Maker, spec: &str) -> Bytes {
    let spec = read_spec(rt.alloc(), spec.as_bytes()).expect(rt, spec);
    let chance = 1 + maker.number(4);
    let given = made_open_given(rt, maker, &spec, 64, chance);
    given_text(rt.alloc(), &spec, &given).expect(rt, "memory")
}

/// A made problem, with such a history.
fn made_problem(rt: &(impl Abort + AllocGlobal), maker: &mut Maker, number: u64) -> Problem {
    let text = made_small_spec(rt, number);
    let history = made_open_text(rt, maker, text.as_str());
    problem_of(rt, text.as_str(), history.as_slice())
}

/// Two paths of a made problem.
fn check_problem(rt: &(impl Abort + AllocGlobal), number: u64, seen: &mut Seen) {
    let mut maker = Maker::new(number);
    let problem = made_problem(rt, &mut maker, number);
    let models = models_of(rt, &problem);
    path(rt, &problem, models.as_slice(), &mut maker, seen);
    path(rt, &problem, models.as_slice(), &mut maker, seen);
}

#[test]
fn paths_keep_the_models(rt: HostRuntime) {
    let mut seen = Seen {
        closed: 0,
        whole: 0,
        kept: 0,
        shared: 0,
    };
    for number in 0_u64..1200 {
        check_problem(&rt, number, &mut seen);
    }
    holds(&rt, seen.closed >= 800 && seen.whole >= 400);
    holds(&rt, seen.kept >= 150 && seen.shared >= 1000);
}
