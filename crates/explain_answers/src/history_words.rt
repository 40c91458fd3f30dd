//! What is said of a history's text that is refused.
ghost use Rattle.std.specs.Prelude.{◌≡◌, ◌<◌, ◌≤◌, ◌+◌, ◌++◌, ℕ, length, codes, position, slice_get, Some, None, IfOk, OnOk, MatchOption};
ghost use Rattle.std.specs.Str.{bytes_eq};
ghost use Rattle.trio_types.specs.Cells.{rows_of};
ghost use Rattle.trio_types.specs.Verdict.{world_of};
ghost use Rattle.explain_answers.specs.Sources.{start_of, word_of};
ghost use Rattle.explain_answers.specs.RowForm.{byte_in, value_of};
ghost use Rattle.explain_answers.specs.Said.{said_at, SaysAt, BeginsWith};
ghost use Rattle.explain_answers.specs.SpecWords.{byte_sentence};
ghost use Rattle.explain_answers.specs.HistoryWords.{missing_line, no_row_cause, no_row_sentence, SaysNoRow, item_of, SaysUnknownRow, SaysHistoryFault};

use crate::excerpt::said_at;
use crate::row_form::Line;
use crate::source::Source;
use crate::spec_words::{byte_sentence, put_found};
use crate::writing::{put, put_all, put_around, put_counted};
use history_table::{HistFault, row_name};
use itoa::Buffer;
use std::alloc::{AllocError, Global};
use trio_types::{Domain, DomainKind, Item, Name, Spec};

/// The place of a fault, a sentence on it, and the line of the text with a mark under it; a missing row has no place.
pub fn history_fault_words(
    alloc: Global,
    source: Source<'_>,
    spec: &Spec,
    fault: HistFault,
) -> Result<Vec<u8>, AllocError>
    requires { (row : ℕ) → fault ≡ HistFault.MissingRow row → row < length (rows_of (world_of spec.now)) }
    ensures { IfOk result (λ words. SaysHistoryFault (world_of spec.now) source.entry.file.now source.entry.text.now source.entry.tokens.now fault words.items) }
{
    match fault {
        HistFault::Lex(byte) => no_token_words(alloc, source, byte as usize),
        HistFault::Syntax(number) => no_row_words(alloc, source, source.line(number)),
        HistFault::UnknownRow(number) => unknown_row_words(
            alloc,
            source,
            spec,
            source.line(number),
        ),
        HistFault::TwiceRow(number) => row_twice_words(alloc, source, source.line(number)),
        HistFault::Length(number) => length_words(alloc, source, spec, source.line(number)),
        HistFault::Value(number, column) => value_words(
            alloc,
            source,
            spec,
            source.line(number),
            column,
        ),
        HistFault::MissingRow(row) => missing_line(alloc, source.file, spec, row),
        HistFault::Memory => Err(AllocError),
    }
}

/// What is said of a row that has no line.
fn missing_line(alloc: Global, file: &str, spec: &Spec, row: u32) -> Result<Vec<u8>, AllocError>
    requires { row < length (rows_of (world_of spec.now)) }
    ensures { IfOk result (λ words. words.items ≡ missing_line (world_of spec.now) file.now row) }
{
    let name = row_name(alloc, spec, row)?;
    let mut words = Vec::new(alloc);
    put(&mut words, file)?;
    put(&mut words, ": no line is the row of `")?;
    put(&mut words, name.as_str())?;
    put(&mut words, "`\n")?;
    Ok(words)
}

/// What is said of a byte that begins no token.
fn no_token_words(alloc: Global, source: Source<'_>, byte: usize) -> Result<Vec<u8>, AllocError>
    ensures { IfOk result (λ words. words.items ≡ said_at source.entry.file.now source.entry.text.now byte (byte_sentence source.entry.text.now byte)) }
{
    let sentence = byte_sentence(alloc, source.text, byte)?;
    said_at(alloc, source, byte, sentence.as_slice())
}

/// The byte at which a token of a line starts, or that behind the line's last token.
fn byte_in(source: Source<'_>, line: Line, token: usize) -> usize
    ensures { result ≡ byte_in source.entry.tokens.now line token }
{
    if token < line.end {
        source.start(token)
    } else {
        source.end_before(line.end)
    }
}

/// What is said of a line that is no row.
fn no_row_words(alloc: Global, source: Source<'_>, line: Line) -> Result<Vec<u8>, AllocError>
    requires { line.first ≤ line.end }
    ensures { IfOk result (λ words. SaysNoRow source.entry.file.now source.entry.text.now source.entry.tokens.now line words.items) }
{
    let token = source.out_of_form(line);
    let sentence = no_row_sentence(alloc, source, line, token)?;
    said_at(
        alloc,
        source,
        byte_in(source, line, token),
        sentence.as_slice(),
    )
}

fn no_row_sentence(
    alloc: Global,
    source: Source<'_>,
    line: Line,
    token: usize,
) -> Result<Vec<u8>, AllocError>
    ensures { IfOk result (λ words. words.items ≡ no_row_sentence source.entry.text.now source.entry.tokens.now line token) }
{
    let mut words = Vec::new(alloc);
    put_no_row_cause(&mut words, source, line, token)?;
    put(
        &mut words,
        "; a row is an item, arguments in `(` and `)` if it has any, `:`, and a value for each instant",
    )?;
    Ok(words)
}

fn put_no_row_cause(
    out: &mut Vec<u8>,
    source: Source<'_>,
    line: Line,
    token: usize,
) -> Result<(), AllocError>
    ensures { OnOk result (out.new.items ≡ out.old.items ++ no_row_cause source.entry.text.now source.entry.tokens.now line token) }
{
    if token < line.end {
        put_found(out, source, token)?;
        put(out, " cannot stand here")
    } else {
        put(out, "the line ends too early")
    }
}

/// What is said of a line whose item there is not, or whose item has other arguments.
fn unknown_row_words(
    alloc: Global,
    source: Source<'_>,
    spec: &Spec,
    line: Line,
) -> Result<Vec<u8>, AllocError>
    requires { line.first ≤ length source.tokens.now }
    ensures { IfOk result (λ words. SaysUnknownRow source.entry.file.now source.entry.text.now source.entry.tokens.now line.first (item_of (world_of spec.now) (word_of source.entry.text.now (slice_get source.entry.tokens.now line.first))) words.items) }
{
    match item_named(spec, source.word(line.first)) {
        None => no_item_words(alloc, source, line.first),
        Some(item) => wrong_arguments_words(alloc, source, spec, line.first + 1, item),
    }
}

fn no_item_words(alloc: Global, source: Source<'_>, token: usize) -> Result<Vec<u8>, AllocError>
    ensures { IfOk result (λ words. words.items ≡ said_at source.entry.file.now source.entry.text.now (start_of source.entry.tokens.now token) (codes "the specification has no item `" ++ word_of source.entry.text.now (slice_get source.entry.tokens.now token) ++ codes "`")) }
{
    let mut sentence = Vec::new(alloc);
    put_around(
        &mut sentence,
        "the specification has no item `",
        source.word(token),
        "`",
    )?;
    said_at(alloc, source, source.start(token), sentence.as_slice())
}

fn wrong_arguments_words(
    alloc: Global,
    source: Source<'_>,
    spec: &Spec,
    token: usize,
    item: &Item,
) -> Result<Vec<u8>, AllocError>
    ensures { IfOk result (λ words. SaysAt source.entry.file.now source.entry.text.now (start_of source.entry.tokens.now token) (BeginsWith (codes "the item is declared as `" ++ item.now.name)) words.items) }
{
    let sentence = declared_sentence(alloc, spec, item)?;
    said_at(alloc, source, source.start(token), sentence.as_slice())
}

fn declared_sentence(alloc: Global, spec: &Spec, item: &Item) -> Result<Vec<u8>, AllocError>
    ensures { IfOk result (λ words. BeginsWith (codes "the item is declared as `" ++ item.now.name) words.items) }
{
    let mut domains = Vec::new(alloc);
    put_domains(&mut domains, spec, item.args.as_slice())?;
    put(&mut domains, "`, and these are no arguments of it")?;
    let mut words = Vec::new(alloc);
    put(&mut words, "the item is declared as `")?;
    put(&mut words, item.name.as_str())?;
    words.extend_from_slice(domains.as_slice())?;
    Ok(words)
}

/// Puts the names of argument domains, in brackets.
fn put_domains(out: &mut Vec<u8>, spec: &Spec, domains: &[u32]) -> Result<(), AllocError> {
    if domains.is_empty() {
        return Ok(());
    }
    let mut sign = "(";
    for domain in domains {
        put(out, sign)?;
        put_domain_name(out, spec, *domain)?;
        sign = ", ";
    }
    put(out, ")")
}

fn put_domain_name(out: &mut Vec<u8>, spec: &Spec, domain: u32) -> Result<(), AllocError> {
    match spec.domains.as_slice().get(domain as usize) {
        Some(found) => put(out, domain_name(found)),
        None => Ok(()),
    }
}

fn domain_name(domain: &Domain) -> &str {
    match domain.kind {
        DomainKind::Bool => "bool",
        _ => domain.name.as_str(),
    }
}

/// The item of this name.
fn item_named<'a>(spec: &'a Spec, name: &[u8]) -> Option<&'a Item>
    ensures { MatchOption result (item_of (world_of spec.now) name.now ≡ None) (λ item. item_of (world_of spec.now) name.now ≡ Some item.now) }
{
    match item_place(spec.items.as_slice(), name) {
        Some(place) => spec.items.as_slice().get(place),
        None => None,
    }
}

fn item_place(items: &[Item], name: &[u8]) -> Option<usize>
    ensures { result ≡ position (λ item. bytes_eq item.name name.now) items.now }
{
    items
        .iter()
        .position(|item| item.name.as_str().as_bytes() == name)
}

/// What is said of a line whose row stands already in an earlier one.
fn row_twice_words(alloc: Global, source: Source<'_>, line: Line) -> Result<Vec<u8>, AllocError>
    ensures { IfOk result (λ words. SaysAt source.entry.file.now source.entry.text.now (start_of source.entry.tokens.now line.first) (BeginsWith (codes "this row stands already in ")) words.items) }
{
    let earlier = earlier_line(alloc, source, line)?;
    let mut sentence = Vec::new(alloc);
    put_around(
        &mut sentence,
        "this row stands already in ",
        earlier.as_slice(),
        "",
    )?;
    said_at(alloc, source, source.start(line.first), sentence.as_slice())
}

/// The words for the first line that has the same row as this one, spelled the same.
fn earlier_line(alloc: Global, source: Source<'_>, line: Line) -> Result<Vec<u8>, AllocError> {
    let mut words = Vec::new(alloc);
    match source.same_row_before(line) {
        Some(token) => put_counted(&mut words, "line ", source.line_of(token), "")?,
        None => put(&mut words, "an earlier line")?,
    }
    Ok(words)
}

/// What is said of a row that has more or fewer values than time has instants.
fn length_words(
    alloc: Global,
    source: Source<'_>,
    spec: &Spec,
    line: Line,
) -> Result<Vec<u8>, AllocError>
    requires { line.end ≤ length source.tokens.now }
    ensures { IfOk result (λ words. SaysAt source.entry.file.now source.entry.text.now (byte_in source.entry.tokens.now line (value_of source.entry.tokens.now line (spec.now.instants + 1))) (BeginsWith (codes "the row has ")) words.items) }
{
    let sentence = length_sentence(alloc, source, spec, line)?;
    let token = source.value(line, u64::from(spec.instants) + 1);
    said_at(
        alloc,
        source,
        byte_in(source, line, token),
        sentence.as_slice(),
    )
}

fn length_sentence(
    alloc: Global,
    source: Source<'_>,
    spec: &Spec,
    line: Line,
) -> Result<Vec<u8>, AllocError>
    ensures { IfOk result (λ words. BeginsWith (codes "the row has ") words.items) }
{
    let counts = count_words(alloc, source, spec, line)?;
    let mut words = Vec::new(alloc);
    put(&mut words, "the row has ")?;
    words.extend_from_slice(counts.as_slice())?;
    Ok(words)
}

/// How many values a row has, and how many instants time has.
fn count_words(
    alloc: Global,
    source: Source<'_>,
    spec: &Spec,
    line: Line,
) -> Result<Vec<u8>, AllocError> {
    let mut words = Vec::new(alloc);
    put_counted(
        &mut words,
        "",
        source.values(line),
        " values, and time has ",
    )?;
    put_counted(&mut words, "", u64::from(spec.instants), " instants")?;
    Ok(words)
}

/// What is said of a value outside its domain.
fn value_words(
    alloc: Global,
    source: Source<'_>,
    spec: &Spec,
    line: Line,
    column: u64,
) -> Result<Vec<u8>, AllocError>
    requires { line.end ≤ length source.tokens.now }
    ensures { IfOk result (λ words. SaysAt source.entry.file.now source.entry.text.now (byte_in source.entry.tokens.now line (value_of source.entry.tokens.now line column)) (BeginsWith (codes "`")) words.items) }
{
    let token = source.value(line, column);
    let sentence = value_sentence(alloc, source, spec, line, column)?;
    said_at(
        alloc,
        source,
        byte_in(source, line, token),
        sentence.as_slice(),
    )
}

fn value_sentence(
    alloc: Global,
    source: Source<'_>,
    spec: &Spec,
    line: Line,
    column: u64,
) -> Result<Vec<u8>, AllocError>
    requires { line.end ≤ length source.tokens.now }
    ensures { IfOk result (λ words. BeginsWith (codes "`") words.items) }
{
    let outside = outside_words(alloc, source, spec, line, column)?;
    let mut words = Vec::new(alloc);
    put(&mut words, "`")?;
    words.extend_from_slice(outside.as_slice())?;
    Ok(words)
}

/// The value of this number in a line, its instant, and the values that it is none of.
fn outside_words(
    alloc: Global,
    source: Source<'_>,
    spec: &Spec,
    line: Line,
    column: u64,
) -> Result<Vec<u8>, AllocError>
    requires { line.end ≤ length source.tokens.now }
{
    let mut words = Vec::new(alloc);
    let word = source.value_word(source.value(line, column));
    put_around(&mut words, "", word, "` at instant ")?;
    put_counted(&mut words, "", column.saturating_sub(1), " is no value of ")?;
    put_values_of(&mut words, spec, source.word(line.first))?;
    Ok(words)
}

/// Puts an item's name and the values of its domain.
fn put_values_of(out: &mut Vec<u8>, spec: &Spec, name: &[u8]) -> Result<(), AllocError> {
    put_around(out, "`", name, "`, whose values are ")?;
    match item_named(spec, name) {
        Some(item) => put_domain_values(out, spec, item.value),
        None => Ok(()),
    }
}

fn put_domain_values(out: &mut Vec<u8>, spec: &Spec, domain: u32) -> Result<(), AllocError> {
    match spec.domains.as_slice().get(domain as usize) {
        Some(found) => put_kind_values(out, &found.kind),
        None => Ok(()),
    }
}

fn put_kind_values(out: &mut Vec<u8>, kind: &DomainKind) -> Result<(), AllocError> {
    match kind {
        DomainKind::Bool => put(out, "0, 1, `false` and `true`"),
        DomainKind::Range(low, high) => put_range(out, *low, *high),
        DomainKind::Words(words) => put_words(out, words.as_slice()),
    }
}

fn put_range(out: &mut Vec<u8>, low: i64, high: i64) -> Result<(), AllocError> {
    let mut low_digits = Buffer::new();
    let mut high_digits = Buffer::new();
    put_all(
        out,
        &[low_digits.format(low), " to ", high_digits.format(high)],
    )
}

fn put_words(out: &mut Vec<u8>, words: &[Name]) -> Result<(), AllocError> {
    let mut sign = "`";
    for word in words {
        put_all(out, &[sign, word.as_str(), "`"])?;
        sign = ", `";
    }
    Ok(())
}
