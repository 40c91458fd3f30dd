//! Texts that are printed, against texts that are written by hand.
ghost use Rattle.std.specs.Prelude.{◌≡◌, ◌++◌, ◌∷◌, []};
ghost use Rattle.trio_types.specs.Verdict.{world_of};
ghost use Rattle.trio_types.specs.Cells.{IsTable};

use super::claims::same;
use super::tables::read_table;
use history_table::{Table, Tables, given_text, list_text, read_history, table_text};
use std::process::Abort;
use trio_reader::{read_spec, spec_text};
use trio_types::{Bytes, Spec};

const SPEC: &str =
    "time 03; // three\ndomain d=-1 .. 02;item p:bool;domain m={red,green};item q(d,m):bool;input x:d;goal G:(true);
axiom A at 0:all v:d(!(q([v+1],red)&x<v)|Until(((p)),x=-[2*v-1]));axiom B:3*[x+1]=[2*[3*x]]-1->p;";

const PRINTED_SPEC: &str = "time 3;
domain d = -1..2;
domain m = {red, green};
item p : bool;
item q(d, m) : bool;
input x : d;
axiom A at 0 : all v : d ((!(q(v + 1, red) & (x < v))) | Until(p, x = -[2 * v - 1]));
axiom B : (3 * [x + 1] = 2 * [3 * x] - 1) -> p;
goal G : true;
";

const SPEC_OF_OPERATORS: &str =
    "time 2;item p:bool;domain d=-3..-1;input x:d;axiom A:(ex v:d(v=x))&Alw(p)&!Alw(p)&(p<->!p)&((p->p)<->(p&p));
goal G at 1:Since(p,Dist(p|(p|p),1+2));axiom B:x+[1-x]-2*x!=-[-1]+0;";

const PRINTED_SPEC_OF_OPERATORS: &str = "time 2;
domain d = -3..-1;
item p : bool;
input x : d;
axiom A : ex v : d (v = x) & Alw(p) & (!Alw(p)) & (p <-> (!p)) & ((p -> p) <-> (p & p));
axiom B : x + [1 - x] - 2 * x != -[-1] + 0;
goal G at 1 : Since(p, Dist(p | (p | p), 1 + 2));
";

const ROWS: &str =
    "time 2; domain d = -1..0; domain m = {red, green}; item p : bool; item c(d, m) : m; item n : d;";

const GIVEN: &str = "n: 0 -1 // the last
c(0, green): ? red

p: true ?
c(-1,red): red green
c(0,red): green green
c(-1,green): ? ?";

const PRINTED_GIVEN: &str = "p: 1 ?
c(-1,red): red green
c(-1,green): ? ?
c(0,red): green green
c(0,green): ? red
n: 0 -1
";

const WHOLE: &str = "n: 00 -1
c(0, green): green red
p: true 0
c(-1,red): red green
c(0,red): green green
c(-1,green): red red";

const PRINTED_TABLE: &str = "p: 1 0
c(-1,red): red green
c(-1,green): red red
c(0,red): green green
c(0,green): green red
n: 0 -1
";

const PRINTED_LIST: &str = "histories 4
history 1
p: 0 0 0
history 2
p: 0 0 1
history 3
p: 0 1 1
history 4
p: 1 1 1
";

/// Asserts what is printed of a specification.
fn spec_is_printed(rt: &(impl Abort + AllocGlobal), text: &str, want: &str) {
    let spec = read_spec(rt.alloc(), text.as_bytes()).expect(rt, "specification");
    let printed = spec_text(rt.alloc(), &spec).expect(rt, "memory");
    same(rt, &printed.as_slice(), &want.as_bytes());
}

#[test]
fn specifications_as_they_are_printed(rt: HostRuntime) {
    spec_is_printed(&rt, SPEC, PRINTED_SPEC);
    spec_is_printed(&rt, SPEC_OF_OPERATORS, PRINTED_SPEC_OF_OPERATORS);
}

/// Asserts of each item whether it is an input.
fn inputs_are(rt: &impl Abort, spec: &Spec, wanted: &[bool]) {
    same(rt, &spec.items.len(), &wanted.len());
    for (item, want) in spec.items.as_slice().iter().zip(wanted) {
        same(rt, &item.input, want);
    }
}

/// Which items are inputs: no command tells, and texts are printed by the words by which they are read.
#[test]
fn inputs_are_told_from_items(rt: HostRuntime) {
    let text = "time 1; item p : bool; input q : bool; item r : bool;";
    let spec = read_spec(rt.alloc(), text.as_bytes()).expect(&rt, text);
    inputs_are(&rt, &spec, &[false, true, false]);
}

/// Asserts what is printed of a given history.
fn given_is_printed(rt: &(impl Abort + AllocGlobal), spec: &Spec) {
    let given = read_history(rt.alloc(), spec, GIVEN.as_bytes()).expect(rt, "history");
    let text = given_text(rt.alloc(), spec, &given).expect(rt, "memory");
    same(rt, &text.as_slice(), &PRINTED_GIVEN.as_bytes());
}

/// Asserts what is printed of a table.
fn table_is_printed(rt: &(impl Abort + AllocGlobal), spec: &Spec) {
    let table = read_table(rt, spec, WHOLE);
    let text = table_text(rt.alloc(), spec, &table).expect(rt, "memory");
    same(rt, &text.as_slice(), &PRINTED_TABLE.as_bytes());
}

#[test]
fn a_given_history_and_a_table_as_they_are_printed(rt: HostRuntime) {
    let spec = read_spec(rt.alloc(), ROWS.as_bytes()).expect(&rt, ROWS);
    given_is_printed(&rt, &spec);
    table_is_printed(&rt, &spec);
}

/// The text of the list of the tables that these texts are.
fn listed(rt: &(impl Abort + AllocGlobal), spec: &Spec, texts: &[&str]) -> Bytes {
    let mut tables = Tables::new(rt.alloc());
    for text in texts {
        let table = read_table(rt, spec, text);
        add_table(rt, &mut tables, table);
    }
    list_text(rt.alloc(), spec, &tables).expect(rt, "memory")
}

fn add_table(rt: &impl Abort, tables: &mut Tables, table: Table)
    ensures { tables.new ≡ tables.old ++ table ∷ [] }
{
    match tables.push(table) {
        Ok(()) => {}
        Err(_) => panic!(rt; "memory"),
    }
}

/// Asserts what is printed of the list of these tables.
fn list_is_printed(rt: &(impl Abort + AllocGlobal), spec: &Spec, texts: &[&str], want: &str) {
    let text = listed(rt, spec, texts);
    same(rt, &text.as_slice(), &want.as_bytes());
}

#[test]
fn a_list_of_tables_as_it_is_printed(rt: HostRuntime) {
    let spec = read_spec(rt.alloc(), b"time 3; item p : bool;").expect(&rt, "specification");
    let texts = ["p: 0 0 0", "p: 0 0 1", "p: 0 1 1", "p: 1 1 1"];
    list_is_printed(&rt, &spec, &texts, PRINTED_LIST);
    list_is_printed(&rt, &spec, &[], "histories 0\n");
}
