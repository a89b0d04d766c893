//! What compactions take and make.
ghost use Rattle.std.specs.Prelude.{◌≡◌, ◌≤◌, ◌∷◌, ◌&&◌, ◌||◌, ◌++◌, [], drop, filter, flat_map, length, nat_lt, not, if◌then◌else◌, IfOk, OnOk};
ghost use Rattle.std.specs.List.{list_all, list_any};
ghost use Rattle.std.specs.Str.{bytes_eq};
ghost use Rattle.udt_model.specs.Jobs.{are_new as have_new, goes_with as goes, has_number, is_amid as amid, is_ascending as ascends, is_input as input, is_wanted, numbers_of_pieces, spans_of};
ghost use Rattle.udt_model.specs.Orders.{higher_of, lower_of, meets as meet, span_of as spans, span_of_both, span_of_key};
ghost use Rattle.udt_model.specs.State.{numbers_of};
ghost use Rattle.floor_core.specs.Machine.{are_closed as closed};
ghost use Rattle.floor_core.specs.Steps.{hull_from, hull_of_spans, is_above_last, may_part, parted, span_of_some, span_of_table, span_with, with_span};

use crate::lists::append;
use crate::parts::{CoreTable, has_table};
use std::alloc::{AllocError, Global};
use ts_key::{Key, NoMemory, Version};
use udt_model::{Items, KeySpan, Piece};

// ---- inputs

/// Whether the number is one of these.
fn has(numbers: &[u64], number: u64) -> bool
    ensures { result ≡ has_number numbers.now number }
{
    numbers.iter().any(|o| *o == number)
}

/// Whether the table is an input.
fn is_input(inputs: &[u64], t: &CoreTable) -> bool
    ensures { result ≡ input inputs.now t.now }
{
    has(inputs, t.number)
}

/// Whether a table has the number.
fn is_table(tables: &[CoreTable], number: u64) -> bool
    ensures { result ≡ has_number (numbers_of tables.now) number }
{
    has_table(tables, number)
}

/// Whether each number is that of a table.
fn are_tables(tables: &[CoreTable], inputs: &[u64]) -> bool
    ensures { result ≡ list_all (has_number (numbers_of tables.now)) inputs.now }
{
    inputs.iter().all(|n| is_table(tables, *n))
}

/// Whether the number is above the last one, where there was one.
fn is_next(last: Option<u64>, number: u64) -> bool
    ensures { result ≡ is_above_last last number }
{
    match last {
        None => true,
        Some(before) => before < number,
    }
}

/// Whether the numbers ascend.
fn is_ascending(numbers: &[u64]) -> bool
    ensures { result ≡ ascends numbers.now }
{
    let mut last = None;
    for number in numbers {
        if !is_next(last, *number) {
            return false;
        }
        last = Some(*number);
    }
    true
}

// ---- spans

/// The lower of two keys.
fn lower(a: Key, b: Key) -> Key
    ensures { result ≡ lower_of a b }
{
    if b.bytes().cmp(&a.bytes()).is_lt() {
        b
    } else {
        a
    }
}

/// The higher of two keys.
fn higher(a: Key, b: Key) -> Key
    ensures { result ≡ higher_of a b }
{
    if a.bytes().cmp(&b.bytes()).is_lt() {
        b
    } else {
        a
    }
}

/// Whether the spans have a key in common, or could have.
fn meets(a: &KeySpan, b: &KeySpan) -> bool
    ensures { result ≡ meet a.now b.now }
{
    a.low.bytes().cmp(&b.high.bytes()).is_le() && b.low.bytes().cmp(&a.high.bytes()).is_le()
}

/// The span of one key.
fn key_span(key: &Key) -> Result<KeySpan, NoMemory>
    ensures { IfOk result (λ span. span ≡ span_of_key key.now) }
{
    Ok(KeySpan {
        low: key.copy()?,
        high: key.copy()?,
    })
}

/// The span of the empty key.
fn empty_span(alloc: Global) -> Result<KeySpan, NoMemory>
    ensures { IfOk result (λ span. span ≡ span_of_key []) }
{
    match Key::of(alloc, &[]) {
        Ok(key) => key_span(&key),
        Err(_) => Err(AllocError),
    }
}

fn copy_span(span: &KeySpan) -> Result<KeySpan, NoMemory>
    ensures { IfOk result (λ copy. copy ≡ span.now) }
{
    Ok(KeySpan {
        low: span.low.copy()?,
        high: span.high.copy()?,
    })
}

/// The span from the lowest to the highest of both.
fn join_spans(a: KeySpan, b: KeySpan) -> KeySpan
    ensures { result ≡ span_of_both a b }
{
    KeySpan {
        low: lower(a.low, b.low),
        high: higher(a.high, b.high),
    }
}

/// The span of a key and of what lies behind it, where there is something.
fn join_behind(key: &Key, behind: Option<KeySpan>) -> Result<KeySpan, NoMemory>
    ensures { IfOk result (λ span. span ≡ span_with key.now behind) }
{
    let here = key_span(key)?;
    match behind {
        None => Ok(here),
        Some(span) => Ok(join_spans(here, span)),
    }
}

/// The span of the keys of versions, where there are some.
fn span_of_all(versions: &[Version]) -> Result<Option<KeySpan>, NoMemory>
    ensures { IfOk result (λ span. span ≡ span_of_some versions.now) }
{
    let mut span = None;
    for i in 0..versions.len() {
        let v = &versions[versions.len() - 1 - i];
        span = Some(join_behind(&v.key, span)?);
    }
    Ok(span)
}

/// The same, or the span of the empty key.
fn span_of(alloc: Global, versions: &[Version]) -> Result<KeySpan, NoMemory>
    ensures { IfOk result (λ span. span ≡ spans versions.now) }
{
    match span_of_all(versions)? {
        None => empty_span(alloc),
        Some(span) => Ok(span),
    }
}

/// The span of what lies before and of this one.
fn join_before(before: Option<KeySpan>, span: KeySpan) -> KeySpan
    ensures { result ≡ with_span before span }
{
    match before {
        None => span,
        Some(a) => join_spans(a, span),
    }
}

/// The hull of spans, where there are some.
fn hull_of_all(spans: &[KeySpan]) -> Result<Option<KeySpan>, NoMemory>
    ensures { IfOk result (λ hull. hull ≡ hull_from None spans.now) }
{
    let mut hull = None;
    for span in spans {
        hull = Some(join_before(hull, copy_span(span)?));
    }
    Ok(hull)
}

/// The same, or the span of the empty key.
fn hull_of(alloc: Global, spans: &[KeySpan]) -> Result<KeySpan, NoMemory>
    ensures { IfOk result (λ hull. hull ≡ hull_of_spans spans.now) }
{
    match hull_of_all(spans)? {
        None => empty_span(alloc),
        Some(hull) => Ok(hull),
    }
}

/// Appends the span of a table where it is kept.
fn push_span(spans: &mut Vec<KeySpan>, t: &CoreTable, keep: bool) -> Result<(), NoMemory>
    ensures { OnOk result (spans.new.items ≡ (if keep then spans.old.items ++ span_of_table t.now ∷ [] else spans.old.items)) }
{
    if !keep {
        return Ok(());
    }
    let alloc = *spans.allocator();
    spans.push(span_of(alloc, &t.versions)?)?;
    Ok(())
}

/// The spans of the inputs.
fn input_spans(
    alloc: Global,
    tables: &[CoreTable],
    inputs: &[u64],
) -> Result<Vec<KeySpan>, NoMemory>
    ensures { IfOk result (λ spans. spans.items ≡ spans_of (filter (input inputs.now) tables.now)) }
{
    let mut spans = Vec::new(alloc);
    for t in tables {
        push_span(&mut spans, t, is_input(inputs, t))?;
    }
    Ok(spans)
}

/// Whether the table lies below the level and is no input.
fn is_deeper(inputs: &[u64], level: u32, t: &CoreTable) -> bool
    ensures { result ≡ (nat_lt level t.now.level && not (input inputs.now t.now)) }
{
    level < t.level && !is_input(inputs, t)
}

/// The spans of the tables that lie below the level and are no inputs.
pub(crate) fn deeper_spans(
    alloc: Global,
    tables: &[CoreTable],
    inputs: &[u64],
    level: u32,
) -> Result<Vec<KeySpan>, NoMemory>
    ensures { IfOk result (λ spans. spans.items ≡ spans_of (filter (λ t. nat_lt level t.level && not (input inputs.now t)) tables.now)) }
{
    let mut spans = Vec::new(alloc);
    for t in tables {
        push_span(&mut spans, t, is_deeper(inputs, level, t))?;
    }
    Ok(spans)
}

// ---- plans

/// Whether the second number lies between the others.
fn is_amid(a: u32, b: u32, c: u32) -> bool
    ensures { result ≡ amid a b c }
{
    (a < b && b < c) || (c < b && b < a)
}

/// Whether a table has to be taken in with an input that it meets.
fn goes_with(level: u32, input: &CoreTable, t: &CoreTable) -> bool
    ensures { result ≡ goes level input.now t.now }
{
    t.level == level || is_amid(input.level, t.level, level) || (input.level == 0 && t.level == 0)
}

/// Whether it has to with some input.
fn goes_with_some(tables: &[CoreTable], inputs: &[u64], level: u32, t: &CoreTable) -> bool
    ensures { result ≡ list_any (λ o. input inputs.now o && goes level o t.now) tables.now }
{
    tables
        .iter()
        .any(|o| is_input(inputs, o) && goes_with(level, o, t))
}

/// Whether the table has to be taken in, and is no input.
fn is_left_out(
    alloc: Global,
    tables: &[CoreTable],
    inputs: &[u64],
    level: u32,
    hull: &KeySpan,
    t: &CoreTable,
) -> Result<bool, NoMemory>
    ensures { IfOk result (λ left. left ≡ (not (input inputs.now t.now) && (meet (spans t.now.versions) hull.now && list_any (λ o. input inputs.now o && goes level o t.now) tables.now))) }
{
    if is_input(inputs, t) {
        return Ok(false);
    }
    let span = span_of(alloc, &t.versions)?;
    Ok(meets(&span, hull) && goes_with_some(tables, inputs, level, t))
}

/// Whether each table that has to be taken in is an input.
fn take_in_all(
    alloc: Global,
    tables: &[CoreTable],
    inputs: &[u64],
    level: u32,
) -> Result<bool, NoMemory>
    ensures { IfOk result (λ all. all ≡ list_all (λ t. input inputs.now t || not (is_wanted level (filter (input inputs.now) tables.now) t)) tables.now) }
{
    let spans = input_spans(alloc, tables, inputs)?;
    let hull = hull_of(alloc, &spans)?;
    for t in tables {
        if is_left_out(alloc, tables, inputs, level, &hull, t)? {
            return Ok(false);
        }
    }
    Ok(true)
}

/// Whether the inputs and the output level may be those of a compaction.
pub(crate) fn are_closed(
    alloc: Global,
    tables: &[CoreTable],
    inputs: &[u64],
    level: u32,
) -> Result<bool, NoMemory>
    ensures { IfOk result (λ all. all ≡ closed tables.now inputs.now level) }
{
    let plain = !inputs.is_empty()
        && is_ascending(inputs)
        && are_tables(tables, inputs)
        && 1 <= level
        && level <= 6;
    if !plain {
        return Ok(false);
    }
    let all = take_in_all(alloc, tables, inputs, level)?;
    Ok(all)
}

// ---- ends

/// Appends what a table holds where it is kept.
fn append_if(list: &mut Vec<Version>, t: &CoreTable, keep: bool) -> Result<(), NoMemory>
    ensures { OnOk result (list.new.items ≡ (if keep then list.old.items ++ t.now.versions else list.old.items)) }
{
    if !keep {
        return Ok(());
    }
    append(list, &t.versions)?;
    Ok(())
}

/// The versions of the inputs.
pub(crate) fn input_versions(
    alloc: Global,
    tables: &[CoreTable],
    inputs: &[u64],
) -> Result<Vec<Version>, NoMemory>
    ensures { IfOk result (λ held. held.items ≡ flat_map (λ t. t.versions) (filter (input inputs.now) tables.now)) }
{
    let mut held = Vec::new(alloc);
    for t in tables {
        append_if(&mut held, t, is_input(inputs, t))?;
    }
    Ok(held)
}

/// Whether no table has had one of the pieces' numbers, and no two of them are equal.
pub(crate) fn are_new(used: Vec<u64>, pieces: &[Piece]) -> Result<bool, NoMemory>
    ensures { IfOk result (λ all. all ≡ have_new used.items (numbers_of_pieces pieces.now)) }
{
    let mut used = used;
    for piece in pieces {
        if has(&used, piece.table) {
            return Ok(false);
        }
        used.insert(0, piece.table)?;
    }
    Ok(true)
}

/// Whether the versions are of different keys.
fn differ(a: &Version, b: &Version) -> bool
    ensures { result ≡ not (bytes_eq a.now.key b.now.key) }
{
    a.key.bytes() != b.key.bytes()
}

/// Whether the versions from a place on may be parted behind so many.
fn fits(versions: &[Version], start: usize, count: u64) -> bool
    requires { start ≤ length versions.now }
    ensures { result ≡ may_part (drop start versions.now) count }
{
    if count == 0 || count > (versions.len() - start) as u64 {
        return false;
    }
    let end = start + count as usize;
    if end == versions.len() {
        return true;
    }
    differ(&versions[end - 1], &versions[end])
}

/// A table of copies of the versions.
fn table_of(
    alloc: Global,
    number: u64,
    level: u32,
    versions: &[Version],
) -> Result<CoreTable, NoMemory>
    ensures { IfOk result (λ t. t ≡ record { number = number; level = level; versions = versions.now }) }
{
    let mut copy = Vec::new(alloc);
    append(&mut copy, versions)?;
    Ok(CoreTable {
        number,
        level,
        versions: copy,
    })
}

/// The tables that the pieces make of the versions, unless they are no parts.
pub(crate) fn parts(
    alloc: Global,
    level: u32,
    versions: &[Version],
    pieces: &[Piece],
) -> Result<Option<Items<CoreTable>>, NoMemory>
    ensures { IfOk result (λ tables. tables ≡ parted level versions.now pieces.now) }
{
    let mut tables = Vec::new(alloc);
    let mut start: usize = 0;
    for piece in pieces {
        if !fits(versions, start, piece.count) {
            return Ok(None);
        }
        let end = start + piece.count as usize;
        tables.push(table_of(alloc, piece.table, level, &versions[start..end])?)?;
        start = end;
    }
    if start < versions.len() {
        return Ok(None);
    }
    Ok(Some(Items::of(tables)))
}

/// Appends a copy of a table where it is kept.
fn push_table(tables: &mut Vec<CoreTable>, t: &CoreTable, keep: bool) -> Result<(), NoMemory>
    ensures { OnOk result (tables.new.items ≡ (if keep then tables.old.items ++ t.now ∷ [] else tables.old.items)) }
{
    if !keep {
        return Ok(());
    }
    let alloc = *tables.allocator();
    tables.push(table_of(alloc, t.number, t.level, &t.versions)?)?;
    Ok(())
}

/// Copies of the tables that are no inputs.
pub(crate) fn other_tables(
    alloc: Global,
    tables: &[CoreTable],
    inputs: &[u64],
) -> Result<Vec<CoreTable>, NoMemory>
    ensures { IfOk result (λ others. others.items ≡ filter (λ t. not (input inputs.now t)) tables.now) }
{
    let mut others = Vec::new(alloc);
    for t in tables {
        push_table(&mut others, t, !is_input(inputs, t))?;
    }
    Ok(others)
}
