//! Histories that are printed, read and printed again.
ghost use Rattle.std.specs.Prelude.{◌≡◌, length};
ghost use Rattle.trio_types.specs.Verdict.{world_of};
ghost use Rattle.trio_types.specs.Cells.{IsTable, cells_of};
ghost use Rattle.history_table.specs.Fitting.{IsGiven};

use super::claims::same;
use super::maker::Maker;
use super::spec_maker::made_spec;
use super::tables::{made_given, table_of};
use history_table::{Given, Table, given_text, read_history, table_text};
use std::process::Abort;
use trio_reader::read_spec;
use trio_types::Spec;

/// Asserts that what is printed of a given history reads as that history, and where each value is known as that table.
fn comes_back(rt: &(impl Abort + AllocGlobal), spec: &Spec, given: &Given)
    requires { length given.now ≡ length (cells_of (world_of spec.now)) }
{
    let alloc = rt.alloc();
    let text = given_text(alloc, spec, given).expect(rt, "memory");
    let again = read_history(alloc, spec, text.as_slice()).expect(rt, "history");
    same(rt, &again.as_slice(), &given.as_slice());
    let second = given_text(alloc, spec, &again).expect(rt, "memory");
    same(rt, &second.as_slice(), &text.as_slice());
    whole_comes_back(rt, spec, &again, text.as_slice());
}

/// Asserts that the text of a table is that of the given history, and that there is a table exactly where each value is known.
fn whole_comes_back(rt: &(impl Abort + AllocGlobal), spec: &Spec, given: &Given, text: &[u8])
    requires { IsGiven (world_of spec.now) given.now }
{
    let found = table_of(rt, spec, given);
    same(rt, &found.is_some(), &!text.contains(&b'?'));
    if let Some(table) = found {
        is_printed_as(rt, spec, &table, text);
    }
}

fn is_printed_as(rt: &(impl Abort + AllocGlobal), spec: &Spec, table: &Table, text: &[u8])
    requires { IsTable (world_of spec.now) table.now }
{
    let printed = table_text(rt.alloc(), spec, table).expect(rt, "memory");
    same(rt, &printed.as_slice(), &text);
}

/// Makes three histories, of which one is whole.
fn histories_come_back(rt: &(impl Abort + AllocGlobal), spec: &Spec, maker: &mut Maker) {
    for known in [false, true, false] {
        let given = made_given(rt, maker, spec, known);
        comes_back(rt, spec, &given);
    }
}

/// Makes the specification of this number, and histories of it.
fn number_comes_back(rt: &(impl Abort + AllocGlobal), number: u64) {
    let text = made_spec(rt, number);
    let spec = read_spec(rt.alloc(), text.as_bytes()).expect(rt, text.as_str());
    histories_come_back(rt, &spec, &mut Maker::new(number));
}

#[test]
fn made_histories_come_back(rt: HostRuntime) {
    for number in 0_u64..700 {
        number_comes_back(&rt, number);
    }
}
