//! The names of rows as they are printed.
ghost use Rattle.std.specs.Prelude.{◌≡◌, ◌<◌, ◌≤◌, ◌*◌, ◌+◌, ◌++◌, ◌∷◌, [], ℕ, length, map, Some, slice_get, slice_index_or, take, drop, zip, IfOk, OnOk, string_bytes, decimal, pos, negsuc, ◌≤ℤ◌, ◌+ℤ◌};
ghost use Rattle.std.specs.Fmt.{signed_decimal};
ghost use Rattle.std.specs.Option.{option_map, unwrap_or};
ghost use Rattle.std.specs.List.{flat_map};
ghost use Rattle.trio_types.specs.Verdict.{world_of};
ghost use Rattle.trio_types.specs.Cells.{rows_of};
ghost use Rattle.history_table.specs.Fitting.{IsGiven};
ghost use Rattle.history_table.specs.Printed.{value_text, args_text, values_text, row_name};
ghost use Rattle.history_table.specs.Decoding.{row_from};

use crate::rows::{RowParts, row_parts};
use std::alloc::{AllocError, Global};
use trio_base::Name;
use trio_types::{DomainKind, Spec};

/// The printed name of the row of this number, as `q(0,red)`.
pub fn row_name(alloc: Global, spec: &Spec, row: u32) -> Result<Name, AllocError>
    requires { row < length (rows_of (world_of spec.now)) }
    ensures { IfOk result (λ name. option_map (row_name (world_of spec.now)) (slice_get (rows_of (world_of spec.now)) row) ≡ Some name) }
{
    let parts = row_parts(alloc, spec, row)?;
    let mut text = String::new(alloc);
    add_name(alloc, &mut text, spec, &parts)?;
    Name::new(alloc, text.as_str())
}

/// Appends the name of a row.
pub fn add_name(
    alloc: Global,
    text: &mut String,
    spec: &Spec,
    row: &RowParts,
) -> Result<(), AllocError>
    ensures { OnOk result (string_bytes text.new ≡ string_bytes text.old ++ row_name (world_of spec.now) (row_from row.now)) }
{
    let Some(item) = spec.items.as_slice().get(row.item as usize) else {
        return Ok(());
    };
    text.push_str(item.name.as_str())?;
    let domains = item.args.as_slice();
    let args = row.args.as_slice();
    if domains.is_empty() || args.is_empty() {
        return Ok(());
    }
    add_values(alloc, text, spec, "(", domains, args)?;
    text.push_str(")")
}

/// Appends values behind this sign, and with `,` between them.
fn add_values(
    alloc: Global,
    text: &mut String,
    spec: &Spec,
    first: &str,
    domains: &[u32],
    values: &[u32],
) -> Result<(), AllocError>
    requires { (k : ℕ) (d : ℕ) → slice_get domains.now k ≡ Some d → d < length spec.now.domains }
    ensures { OnOk result (string_bytes text.new ≡ string_bytes text.old ++ values_text (world_of spec.now) first.now domains.now values.now) }
{
    let mut sign = first;
    for place in 0..domains.len().min(values.len()) {
        text.push_str(sign)?;
        add_value(alloc, text, spec, domains[place], values[place])?;
        sign = ",";
    }
    Ok(())
}

/// Appends a value by its index in the domain of this number.
pub fn add_value(
    alloc: Global,
    text: &mut String,
    spec: &Spec,
    domain: u32,
    index: u32,
) -> Result<(), AllocError>
    requires { domain < length spec.now.domains }
    ensures { OnOk result (string_bytes text.new ≡ string_bytes text.old ++ value_text (world_of spec.now) domain index) }
{
    match &spec.domains.get(domain as usize).kind {
        DomainKind::Bool => add_number(alloc, text, i64::from(index)),
        DomainKind::Range(low, _) => add_number(alloc, text, *low + i64::from(index)),
        DomainKind::Words(words) => text.push_str(word_text(words.as_slice(), index as usize)),
    }
}

/// Appends a number.
fn add_number(alloc: Global, text: &mut String, number: i64) -> Result<(), AllocError>
    ensures { OnOk result (string_bytes text.new ≡ string_bytes text.old ++ signed_decimal number) }
{
    if number == 0 {
        text.push_str("0")?;
        return Ok(());
    }
    if number == 1 {
        text.push_str("1")?;
        return Ok(());
    }
    let digits = format!(in alloc; "{number}")?;
    text.push_str(digits.as_str())
}

/// The word of this index; empty where there is none.
fn word_text(words: &[Name], index: usize) -> &str
    ensures { result.now ≡ unwrap_or (slice_get words.now index) [] }
{
    match words.get(index) {
        Some(word) => word.as_str(),
        None => "",
    }
}
