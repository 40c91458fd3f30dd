//! A history as a picture in text: a row for each item and its arguments, instants across, round one of them.
ghost use Rattle.std.specs.Prelude.{◌<◌, length};
ghost use Rattle.trio_types.specs.Cells.{cells_of};
ghost use Rattle.trio_types.specs.Verdict.{world_of};

use crate::writing::{fill, put, put_aligned, put_counted, put_padded};
use history_table::{Table, row_name};
use itoa::Buffer;
use std::alloc::{AllocError, Global};
use trio_types::{DomainKind, Item, Name, Spec, cell_count, cell_parts};

/// The most bytes of a line of the picture, of a row's name and of a value.
const MOST_COLUMNS: usize = 100;

const MOST_NAME: usize = 30;

const MOST_VALUE: usize = 12;

/// A row of a history: its name, its item's number, and the number of its first cell.
#[derive(Drop)]
pub struct Row {
    pub name: Name,
    pub item: u32,
    pub cell: u32,
}

/// What is drawn of a history: which instants, and how wide names and values stand.
#[derive(Clone, Copy)]
pub struct Window {
    pub first: usize,
    pub count: usize,
    pub name_width: usize,
    pub value_width: usize,
}

/// The rows of a specification's histories, in the order of items and arguments.
pub fn rows(alloc: Global, spec: &Spec) -> Result<Vec<Row>, AllocError> {
    let mut rows = Vec::new(alloc);
    for cell in 0..cell_count(spec) {
        if begins_row(spec, cell) {
            rows.push(row_at(alloc, spec, cell)?)?;
        }
    }
    Ok(rows)
}

/// Whether a row begins with this cell.
fn begins_row(spec: &Spec, cell: u32) -> bool {
    cell.checked_rem(spec.instants) == Some(0)
}

/// The row whose first cell this is.
fn row_at(alloc: Global, spec: &Spec, cell: u32) -> Result<Row, AllocError>
    requires { cell < length (cells_of (world_of spec.now)) }
{
    let name = row_name(alloc, spec, cell / spec.instants)?;
    let item = cell_parts(spec, cell).item;
    Ok(Row { name, item, cell })
}

/// Puts the picture of a history round this instant, which is marked: first the rows of the items that are read, then the others.
pub fn put_timeline(
    out: &mut Vec<u8>,
    spec: &Spec,
    table: &Table,
    rows: &[Row],
    read: &[bool],
    instant: u32,
) -> Result<(), AllocError> {
    let window = window_round(spec, rows, instant as usize);
    put_folded(out, spec, window)?;
    put_instants(out, window)?;
    put_mark(out, window, instant as usize)?;
    put_rows(out, spec, table, rows, read, true, window)?;
    if rows.iter().any(|row| !is_read(read, row)) {
        put(out, "items that it does not read:\n")?;
        put_rows(out, spec, table, rows, read, false, window)?;
    }
    Ok(())
}

/// The instants that fit into the lines, round this one.
fn window_round(spec: &Spec, rows: &[Row], instant: usize) -> Window {
    let instants = spec.instants as usize;
    let name_width = widest_name(rows).min(MOST_NAME).saturating_add(1);
    let value_width = widest_value(spec).max(digits(instants)).min(MOST_VALUE);
    let count = fitting(name_width, value_width).min(instants);
    let first = instant
        .saturating_sub(count / 2)
        .min(instants.saturating_sub(count));
    Window {
        first,
        count,
        name_width,
        value_width,
    }
}

/// How many instants fit into a line.
fn fitting(name_width: usize, value_width: usize) -> usize {
    let left = MOST_COLUMNS.saturating_sub(name_width);
    match left.checked_div(value_width.saturating_add(1)) {
        Some(count) => count.max(1),
        None => 1,
    }
}

fn widest_name(rows: &[Row]) -> usize {
    let mut widest: usize = 1;
    for row in rows {
        widest = widest.max(row.name.as_str().len());
    }
    widest
}

fn widest_value(spec: &Spec) -> usize {
    let mut widest: usize = 1;
    for item in spec.items.as_slice() {
        widest = widest.max(value_width(spec, item));
    }
    widest
}

/// How wide the widest value of an item is.
fn value_width(spec: &Spec, item: &Item) -> usize {
    match kind_of(spec, item) {
        Some(DomainKind::Range(low, high)) => signed_digits(*low).max(signed_digits(*high)),
        Some(DomainKind::Words(words)) => widest_word(words.as_slice()),
        _ => 1,
    }
}

fn widest_word(words: &[Name]) -> usize {
    let mut widest: usize = 1;
    for word in words {
        widest = widest.max(word.as_str().len());
    }
    widest
}

/// What the values of an item are.
fn kind_of<'a>(spec: &'a Spec, item: &Item) -> Option<&'a DomainKind> {
    match spec.domains.as_slice().get(item.value as usize) {
        Some(domain) => Some(&domain.kind),
        None => None,
    }
}

fn digits(number: usize) -> usize {
    let mut digits = Buffer::new();
    digits.format(number).len()
}

fn signed_digits(number: i64) -> usize {
    let mut digits = Buffer::new();
    digits.format(number).len()
}

/// Puts which instants are shown, where others are not.
fn put_folded(out: &mut Vec<u8>, spec: &Spec, window: Window) -> Result<(), AllocError> {
    if window.count >= spec.instants as usize {
        return Ok(());
    }
    let last = window.first.saturating_add(window.count).saturating_sub(1);
    put_counted(out, "instants ", window.first as u64, " to ")?;
    put_counted(out, "", last as u64, " of ")?;
    put_counted(out, "", u64::from(spec.instants), "\n")
}

/// Puts the line of the instants' numbers.
fn put_instants(out: &mut Vec<u8>, window: Window) -> Result<(), AllocError> {
    fill(out, b' ', window.name_width)?;
    for place in 0..window.count {
        let mut digits = Buffer::new();
        let number = digits.format(window.first.saturating_add(place));
        put_aligned(out, b' ', number.as_bytes(), window.value_width)?;
    }
    put(out, "\n")
}

/// Puts the line with a mark in the column of this instant.
fn put_mark(out: &mut Vec<u8>, window: Window, instant: usize) -> Result<(), AllocError> {
    fill(out, b' ', window.name_width)?;
    for _place in window.first..instant {
        put_aligned(out, b' ', b"", window.value_width)?;
    }
    put_aligned(out, b' ', b"v", window.value_width)?;
    put(out, "\n")
}

/// Whether the item of a row is read.
fn is_read(read: &[bool], row: &Row) -> bool {
    match read.get(row.item as usize) {
        Some(read) => *read,
        None => false,
    }
}

/// Puts the rows of the items that are read, or of the others.
fn put_rows(
    out: &mut Vec<u8>,
    spec: &Spec,
    table: &Table,
    rows: &[Row],
    read: &[bool],
    wanted: bool,
    window: Window,
) -> Result<(), AllocError> {
    for row in rows {
        if is_read(read, row) == wanted {
            put_row(out, spec, table, row, window)?;
        }
    }
    Ok(())
}

fn put_row(
    out: &mut Vec<u8>,
    spec: &Spec,
    table: &Table,
    row: &Row,
    window: Window,
) -> Result<(), AllocError> {
    put_padded(out, row.name.as_str().as_bytes(), window.name_width)?;
    if let Some(kind) = kind_of_row(spec, row) {
        let first = (row.cell as usize).saturating_add(window.first);
        put_values(
            out,
            kind,
            shown(table, first, window.count),
            window.value_width,
        )?;
    }
    put(out, "\n")
}

/// What the values of a row are.
fn kind_of_row<'a>(spec: &'a Spec, row: &Row) -> Option<&'a DomainKind> {
    let item = spec.items.as_slice().get(row.item as usize)?;
    kind_of(spec, item)
}

/// So many indexes of a table from this cell on, or as many as there are.
fn shown(table: &Table, first: usize, count: usize) -> &[u16] {
    let all = table.as_slice();
    let behind = all.split_at(first.min(all.len())).1;
    behind.split_at(count.min(behind.len())).0
}

fn put_values(
    out: &mut Vec<u8>,
    kind: &DomainKind,
    indexes: &[u16],
    width: usize,
) -> Result<(), AllocError> {
    for index in indexes {
        put_value(out, kind, *index, width)?;
    }
    Ok(())
}

/// Puts a value: a level for `bool`, a number, or a word.
fn put_value(
    out: &mut Vec<u8>,
    kind: &DomainKind,
    index: u16,
    width: usize,
) -> Result<(), AllocError> {
    match kind {
        DomainKind::Bool => fill(out, level(index), width.saturating_add(1)),
        DomainKind::Range(low, _) => {
            let mut digits = Buffer::new();
            let number = digits.format(low.saturating_add(i64::from(index)));
            put_aligned(out, b' ', number.as_bytes(), width)
        }
        DomainKind::Words(words) => put_aligned(out, b' ', word(words.as_slice(), index), width),
    }
}

/// The sign for `false`, which has the index 0, or for `true`.
fn level(index: u16) -> u8 {
    if index == 0 { b'_' } else { b'#' }
}

fn word(words: &[Name], index: u16) -> &[u8] {
    match words.get(index as usize) {
        Some(word) => word.as_str().as_bytes(),
        None => b"",
    }
}
