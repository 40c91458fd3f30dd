//! The texts of given histories, tables and lists of tables.
ghost use Rattle.std.specs.Prelude.{◌≡◌, ◌<◌, ◌*◌, ◌≤◌, ◌+◌, ◌++◌, ◌∷◌, [], ℕ, List, length, map, Some, slice_get, IfOk, OnOk, string_bytes};
ghost use Rattle.std.specs.List.{flat_map, enumerate_from, list_all};
ghost use Rattle.trio_types.specs.Verdict.{world_of};
ghost use Rattle.trio_types.specs.Cells.{cells_of};
ghost use Rattle.history_table.specs.Texts.{value_domain, entry_behind_blank, entry_text, line_text, lines_text, given_text, table_text, list_text, numbered_text};
ghost use Rattle.history_table.specs.Decoding.{row_from};

use crate::given::Given;
use crate::printing::{add_name, add_value};
use crate::rows::{RowParts, row_count, row_parts};
use crate::table::{Table, Tables};
use std::alloc::{AllocError, Global};
use trio_base::{Bytes, List};
use trio_types::{Item, Spec};

/// The text of a given history: a line for each row in the order of rows, with `?` where a value is not known.
pub fn given_text(alloc: Global, spec: &Spec, given: &Given) -> Result<Bytes, AllocError>
    requires { length given.now ≡ length (cells_of (world_of spec.now)) }
    ensures { IfOk result (λ text. text ≡ given_text (world_of spec.now) given.now) }
{
    let mut text = String::new(alloc);
    add_lines(alloc, &mut text, spec, given.as_slice())?;
    Ok(List::from_vec(text.into_bytes()))
}

/// The text of a table, as that of a given history in which each value is known.
pub fn table_text(alloc: Global, spec: &Spec, table: &Table) -> Result<Bytes, AllocError>
    requires { length table.now ≡ length (cells_of (world_of spec.now)) }
    ensures { IfOk result (λ text. text ≡ table_text (world_of spec.now) table.now) }
{
    let mut text = String::new(alloc);
    add_table(alloc, &mut text, spec, table)?;
    Ok(List::from_vec(text.into_bytes()))
}

/// How many tables there are, and the text of each behind a line with its number, counted from 1.
pub fn list_text(alloc: Global, spec: &Spec, tables: &Tables) -> Result<Bytes, AllocError>
    requires { (k : ℕ) (table : List ℕ) → slice_get tables.now k ≡ Some table → length table ≡ length (cells_of (world_of spec.now)) }
    ensures { IfOk result (λ text. text ≡ list_text (world_of spec.now) tables.now) }
{
    let count = tables.len();
    let mut text = format!(in alloc; "histories {count}\n")?;
    for (place, table) in tables.as_slice().iter().enumerate() {
        let number = place + 1;
        let head = format!(in alloc; "history {number}\n")?;
        text.push_str(head.as_str())?;
        add_table(alloc, &mut text, spec, table)?;
    }
    Ok(List::from_vec(text.into_bytes()))
}

/// Appends the text of a table.
fn add_table(alloc: Global, text: &mut String, spec: &Spec, table: &Table) -> Result<(), AllocError>
    requires { length table.now ≡ length (cells_of (world_of spec.now)) }
    ensures { OnOk result (string_bytes text.new ≡ string_bytes text.old ++ table_text (world_of spec.now) table.now) }
{
    let known = known_throughout(alloc, table.as_slice())?;
    add_lines(alloc, text, spec, known.as_slice())
}

/// The given history that has each of these values.
fn known_throughout(alloc: Global, indexes: &[u16]) -> Result<List<Option<u16>>, AllocError>
    ensures { IfOk result (λ known. known ≡ map Some indexes.now) }
{
    let mut known = Vec::new(alloc);
    known.reserve(indexes.len())?;
    for index in indexes {
        known.push(Some(*index))?;
    }
    Ok(List::from_vec(known))
}

/// Appends the line of each row, with these entries.
fn add_lines(
    alloc: Global,
    text: &mut String,
    spec: &Spec,
    entries: &[Option<u16>],
) -> Result<(), AllocError>
    requires { length entries.now ≡ length (cells_of (world_of spec.now)) }
    ensures { OnOk result (string_bytes text.new ≡ string_bytes text.old ++ given_text (world_of spec.now) entries.now) }
{
    let mut rest = entries;
    for row in 0..row_count(spec) {
        let parts = row_parts(alloc, spec, row)?;
        let (line, behind) = rest.split_at(spec.instants as usize);
        add_line(alloc, text, spec, &parts, line)?;
        rest = behind;
    }
    Ok(())
}

/// Appends the line of a row: its name, `:`, and each entry behind a blank.
fn add_line(
    alloc: Global,
    text: &mut String,
    spec: &Spec,
    row: &RowParts,
    entries: &[Option<u16>],
) -> Result<(), AllocError>
    ensures { OnOk result (string_bytes text.new ≡ string_bytes text.old ++ line_text (world_of spec.now) (row_from row.now) entries.now) }
{
    add_name(alloc, text, spec, row)?;
    text.push_str(":")?;
    let domain = value_domain(spec, row.item);
    for entry in entries {
        add_entry(alloc, text, spec, domain, *entry)?;
    }
    text.push_str("\n")?;
    Ok(())
}

/// Appends a blank and a value, or `?` where it is not known.
fn add_entry(
    alloc: Global,
    text: &mut String,
    spec: &Spec,
    domain: u32,
    entry: Option<u16>,
) -> Result<(), AllocError>
    requires { domain < length spec.now.domains }
    ensures { OnOk result (string_bytes text.new ≡ string_bytes text.old ++ entry_behind_blank (world_of spec.now) domain entry) }
{
    text.push_str(" ")?;
    match entry {
        Some(index) => add_value(alloc, text, spec, domain, u32::from(index)),
        None => text.push_str("?"),
    }
}

/// The domain of an item's values; 0 where there is no such item.
fn value_domain(spec: &Spec, item: u32) -> u32
    ensures is { result ≡ value_domain (slice_get spec.now.items item) }
    ensures there { result < length spec.now.domains }
{
    match spec.items.as_slice().get(item as usize) {
        Some(item) => item.value,
        None => 0,
    }
}
