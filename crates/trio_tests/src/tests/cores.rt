//! Cores of made specifications in made tables.
ghost use Rattle.trio_types.specs.Verdict.{world_of};
ghost use Rattle.trio_types.specs.Cells.{IsTable};
ghost use Rattle.trio_core.specs.Stands.{StandsFor};
ghost use Rattle.history_table.specs.Fitting.{IsGiven};

use super::claims::{holds, same};
use super::maker::Maker;
use super::sets::truth_under;
use super::spec_maker::made_spec;
use super::tables::{made_given, table_of};
use derived_ops::rewrite;
use history_check::{Verdict, check};
use history_table::{Given, Table, given_text, read_history};
use std::process::Abort;
use trio_core::{Core, Three};
use trio_reader::read_spec;
use trio_types::Spec;

/// How many tables made their specification true and false, and how many of the wider sets left that open.
#[derive(Drop)]
struct Seen {
    yes: u32,
    no: u32,
    open: u32,
}

/// The set of an index alone, by its bit.
fn single(index: u16) -> u64 {
    if index < 64 { 1 << index } else { 0 }
}

fn single_sets(rt: &(impl Abort + AllocGlobal), table: &Table) -> Vec<u64> {
    let mut words = Vec::new(rt.alloc());
    for index in table.as_slice() {
        words.push(single(*index)).expect(rt, "memory");
    }
    words
}

/// The sets, each with the index that is given for its cell.
fn wider_sets(rt: &(impl Abort + AllocGlobal), sets: &[u64], given: &Given) -> Vec<u64> {
    let mut words = Vec::new(rt.alloc());
    for (word, entry) in sets.iter().zip(given.as_slice()) {
        let more = match entry {
            Some(index) => single(*index),
            None => 0,
        };
        words.push(*word | more).expect(rt, "memory");
    }
    words
}

/// What the checker finds.
fn checked(rt: &(impl Abort + AllocGlobal), spec: &Spec, table: &Table) -> Three
    requires { IsTable (world_of spec.now) table.now }
{
    match check(rt.alloc(), spec, table).expect(rt, "memory") {
        Verdict::True => Three::True,
        Verdict::False(_, _) => Three::False,
    }
}

/// Asserts that the core decides under the single sets of a table as the checker does, and under wider sets not against it.
fn agrees(
    rt: &(impl Abort + AllocGlobal),
    spec: &Spec,
    core: &Core,
    table: &Table,
    wider: &Given,
    seen: &mut Seen,
)
    requires stands { StandsFor core.now spec.now }
    requires fits { IsTable (world_of spec.now) table.now }
{
    let want = checked(rt, spec, table);
    let sets = single_sets(rt, table);
    let exactly = truth_under(rt, spec, core, sets.as_slice());
    same(rt, &exactly, &Some(want));
    let words = wider_sets(rt, sets.as_slice(), wider);
    let found = truth_under(rt, spec, core, words.as_slice());
    let is_open = found == Some(Three::Unknown);
    holds(rt, is_open || found == Some(want));
    count(seen, want, is_open);
}

fn count(seen: &mut Seen, truth: Three, is_open: bool) {
    if truth == Three::True {
        seen.yes = seen.yes.saturating_add(1);
    } else {
        seen.no = seen.no.saturating_add(1);
    }
    if is_open {
        seen.open = seen.open.saturating_add(1);
    }
}

/// Makes three tables of a specification.
fn tables_agree(rt: &(impl Abort + AllocGlobal), spec: &Spec, maker: &mut Maker, seen: &mut Seen) {
    let core = rewrite(rt.alloc(), spec).expect(rt, "memory");
    for _ in 0..3 {
        let given = made_history(rt, maker, spec);
        let table = table_of(rt, spec, &given).expect(rt, "known values");
        let wider = made_given(rt, maker, spec, false);
        agrees(rt, spec, &core, &table, &wider, seen);
    }
}

/// A made history as its text is read.
fn made_history(rt: &(impl Abort + AllocGlobal), maker: &mut Maker, spec: &Spec) -> Given
    ensures { IsGiven (world_of spec.now) result }
{
    let whole = made_given(rt, maker, spec, true);
    let text = given_text(rt.alloc(), spec, &whole).expect(rt, "memory");
    read_history(rt.alloc(), spec, text.as_slice()).expect(rt, "history")
}

/// Makes the specification of this number, and tables of it.
fn number_agrees(rt: &(impl Abort + AllocGlobal), number: u64, seen: &mut Seen) {
    let text = made_spec(rt, number);
    let spec = read_spec(rt.alloc(), text.as_bytes()).expect(rt, text.as_str());
    tables_agree(rt, &spec, &mut Maker::new(number), seen);
}

#[test]
fn cores_agree_with_the_checker(rt: HostRuntime) {
    let mut seen = Seen {
        yes: 0,
        no: 0,
        open: 0,
    };
    for number in 0_u64..1000 {
        number_agrees(&rt, number, &mut seen);
    }
    holds(&rt, seen.yes >= 100 && seen.no >= 100 && seen.open >= 100);
}
