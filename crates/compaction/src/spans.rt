//! Spans of keys.
ghost use Rattle.std.specs.Prelude.{◌≡◌, ◌++◌, ◌∷◌, [], List, Some, IfOk};
ghost use Rattle.udt_model.specs.Orders.{higher_of, lower_of, meets, span_of_both};
ghost use Rattle.udt_model.specs.declared.reply.KeySpan.{KeySpan as SpanOf};
ghost use Rattle.compaction.specs.Plans.{hull_if_any, meets_some, table_span};

use crate::NoMemory;
use crate::leveled::LeveledTable;
use ts_key::Key;
use udt_model::KeySpan;

/// The lower of two keys.
fn lower(a: Key, b: Key) -> Key
    ensures { result ≡ lower_of a b }
{
    if b.bytes().cmp(&a.bytes()).is_lt() {
        b
    } else {
        a
    }
}

/// The higher of two keys.
fn higher(a: Key, b: Key) -> Key
    ensures { result ≡ higher_of a b }
{
    if a.bytes().cmp(&b.bytes()).is_lt() {
        b
    } else {
        a
    }
}

/// The span from the lowest to the highest of both.
fn span_over(a: KeySpan, b: KeySpan) -> KeySpan
    ensures { result ≡ span_of_both a b }
{
    KeySpan {
        low: lower(a.low, b.low),
        high: higher(a.high, b.high),
    }
}

/// The hull of spans with one more.
pub(crate) fn with_span(before: Option<KeySpan>, span: KeySpan) -> KeySpan
    ensures { (spans : List SpanOf) → before ≡ hull_if_any spans → Some result ≡ hull_if_any (spans ++ span ∷ []) }
{
    match before {
        None => span,
        Some(hull) => span_over(hull, span),
    }
}

/// Whether the spans have a key in common, or could have.
fn meets(a: &KeySpan, b: &KeySpan) -> bool
    ensures { result ≡ meets a.now b.now }
{
    a.low.bytes().cmp(&b.high.bytes()).is_le() && b.low.bytes().cmp(&a.high.bytes()).is_le()
}

/// The same of a hull that may not be there.
pub(crate) fn meets_some(hull: &Option<KeySpan>, span: &KeySpan) -> bool
    ensures { result ≡ meets_some hull.now span.now }
{
    match hull {
        None => false,
        Some(hull) => meets(span, hull),
    }
}

/// All keys from the first of a table to its last.
pub(crate) fn range_of(t: &LeveledTable) -> Result<KeySpan, NoMemory>
    ensures { IfOk result (λ span. span ≡ table_span t.now) }
{
    let properties = t.table.table().properties();
    Ok(KeySpan {
        low: properties.least.copy()?,
        high: properties.greatest.copy()?,
    })
}
