//! Which row a line names, and what its entries give the cells.
ghost use Rattle.std.specs.Prelude.{◌≡◌, ◌<◌, length, slice_get, position, is_none, map, Some, IsTrue, IfOk, IfSome};
ghost use Rattle.std.specs.Option.{option_and_then, option_map};
ghost use Rattle.trio_types.specs.Verdict.{world_of};
ghost use Rattle.history_table.specs.Rows.{index_in, value_index, arg_indexes, item_named, named_row, entry_cell, is_outside, known_index};
ghost use Rattle.trio_types.specs.Kinds.{args_of};
ghost use Rattle.std.specs.Str.{bytes_eq};
ghost use Rattle.history_table.specs.Decoding.{row_from};
ghost use Rattle.trio_types.specs.Cells.{rows_of, takes};

use crate::line::{Line, Value};
use std::alloc::{AllocError, Global};
use trio_base::{List, Name};
use trio_types::{DomainKind, Ids, Item, Spec, cell_count, cell_of, cell_parts, index_of};

/// A row: the number of its item, and the indexes of its arguments' values.
#[derive(Drop)]
pub struct RowParts {
    pub item: u32,
    pub args: Ids,
}

/// The index of a word among others.
fn word_index(words: &[Name], name: &str) -> Option<usize>
    ensures is { result ≡ position (λ word. bytes_eq word name.now) words.now }
    ensures within { IfSome result (λ place. place < length words.now) }
{
    words.iter().position(|word| word.as_str() == name)
}

/// The index of a written value in the domain of this number.
fn value_index(spec: &Spec, domain: u32, value: &Value) -> Option<u32>
    requires { domain < length spec.now.domains }
    ensures { result ≡ value_index (world_of spec.now) domain value.now }
{
    match (&spec.domains.get(domain as usize).kind, value) {
        (DomainKind::Words(words), Value::Word(name)) => {
            let place = word_index(words.as_slice(), name.as_str())?;
            Some(place as u32)
        }
        (DomainKind::Words(_), _) => None,
        (_, Value::Number(number)) => index_of(spec, domain, i64::from(*number)),
        (_, Value::Opposite(number)) => index_of(spec, domain, -i64::from(*number)),
        (DomainKind::Bool, Value::Truth(value)) => Some(u32::from(*value)),
        _ => None,
    }
}

/// The indexes of written values in the domains of an item's arguments, one for each.
fn arg_indexes(
    alloc: Global,
    spec: &Spec,
    item: u32,
    values: &[Value],
) -> Result<Option<Ids>, AllocError>
    requires { item < length spec.now.items }
    ensures { IfOk result (λ indexes. indexes ≡ arg_indexes (world_of spec.now) (args_of (slice_get spec.now.items item)) values.now) }
{
    let domains = spec.items.get(item as usize).args.as_slice();
    if domains.len() != values.len() {
        return Ok(None);
    }
    let mut indexes = Vec::new(alloc);
    for place in 0..domains.len() {
        let Some(index) = value_index(spec, domains[place], &values[place]) else {
            return Ok(None);
        };
        indexes.push(index)?;
    }
    Ok(Some(List::from_vec(indexes)))
}

/// The row that a line names.
pub fn named_row(alloc: Global, spec: &Spec, line: &Line) -> Result<Option<RowParts>, AllocError>
    ensures named { IfOk result (λ row. option_map row_from row ≡ named_row (world_of spec.now) line.now) }
    ensures within { IfOk result (λ found. IfSome found (λ row. row.item < length spec.now.items)) }
    ensures taken { IfOk result (λ found. IfSome found (λ row. IsTrue (takes (world_of spec.now) row.item row.args))) }
{
    let Some(item) = item_named(spec, line.name.as_str()) else {
        return Ok(None);
    };
    match arg_indexes(alloc, spec, item, line.args.as_slice())? {
        Some(args) => Ok(Some(RowParts { item, args })),
        None => Ok(None),
    }
}

/// The place of the item of this name.
fn item_place(items: &[Item], name: &str) -> Option<usize>
    ensures is { result ≡ position (λ item. bytes_eq item.name name.now) items.now }
    ensures within { IfSome result (λ place. place < length items.now) }
{
    items.iter().position(|item| item.name.as_str() == name)
}

/// The number of the item of this name.
fn item_named(spec: &Spec, name: &str) -> Option<u32>
    ensures is { result ≡ item_named (world_of spec.now) name.now }
    ensures within { IfSome result (λ item. item < length spec.now.items) }
{
    let place = item_place(spec.items.as_slice(), name)?;
    Some(place as u32)
}

/// How many rows there are.
pub fn row_count(spec: &Spec) -> u32
    ensures { result ≡ length (rows_of (world_of spec.now)) }
{
    cell_count(spec) / spec.instants
}

/// The row of this number.
pub fn row_parts(alloc: Global, spec: &Spec, row: u32) -> Result<RowParts, AllocError>
    requires { row < length (rows_of (world_of spec.now)) }
    ensures { IfOk result (λ parts. slice_get (rows_of (world_of spec.now)) row ≡ Some (row_from parts)) }
{
    let cell = cell_parts(spec, row * spec.instants);
    let args = List::from_slice(alloc, &cell.args[..cell.arity as usize])?;
    Ok(RowParts {
        item: cell.item,
        args,
    })
}

/// The number of a row.
pub fn row_number(spec: &Spec, row: &RowParts) -> u32
    requires item_in { row.now.item < length spec.now.items }
    requires args_in { IsTrue (takes (world_of spec.now) row.now.item row.now.args) }
    ensures { slice_get (rows_of (world_of spec.now)) result ≡ Some (row_from row.now) }
{
    cell_of(spec, row.item, row.args.as_slice(), 0) / spec.instants
}

/// What an entry gives a cell of the item of this number: nothing known, or an index; none where it is neither `?` nor in the domain.
fn entry_cell(spec: &Spec, item: u32, entry: &Option<Value>) -> Option<Option<u16>>
    requires { item < length spec.now.items }
    ensures { result ≡ entry_cell (world_of spec.now) item entry.now }
{
    match entry {
        None => Some(None),
        Some(value) => {
            let domain = spec.items.get(item as usize).value;
            let index = value_index(spec, domain, value)?;
            Some(Some(index as u16))
        }
    }
}

/// The place of the first entry that is neither `?` nor in the domain of the item's values.
pub fn first_outside(spec: &Spec, item: u32, entries: &[Option<Value>]) -> Option<usize>
    requires { item < length spec.now.items }
    ensures { result ≡ position (is_outside (world_of spec.now) item) entries.now }
{
    entries
        .iter()
        .position(|entry| entry_cell(spec, item, entry).is_none())
}

/// The indexes that the entries give the cells of the item, where they are known.
pub fn known_cells(
    alloc: Global,
    spec: &Spec,
    item: u32,
    entries: &[Option<Value>],
) -> Result<List<Option<u16>>, AllocError>
    requires { item < length spec.now.items }
    ensures { IfOk result (λ cells. cells ≡ map (known_index (world_of spec.now) item) entries.now) }
{
    let mut cells = Vec::new(alloc);
    for entry in entries {
        cells.push(entry_cell(spec, item, entry).flatten())?;
    }
    Ok(List::from_vec(cells))
}
