//! Look-ups among the entries of a block, by halving.

ghost use Rattle.std.specs.Prelude.{◌≡◌, ◌≤◌, ◌<◌, ℕ, All, length, slice_index_or, false};
ghost use Rattle.ts_key.specs.Order.{sort_key_of, is_before};
ghost use Rattle.ts_key.specs.Items.{found};
ghost use Rattle.ts_key.specs.Lists.{IsSorted, below};
ghost use Rattle.ts_key.specs.Visible.{is_item_seen, first_of, visible_item};
ghost use Rattle.data_block.specs.Index.{items_at, sort_key_at, IsWithin};
ghost use Rattle.data_block.specs.declared.index.Entry.{Entry as EntryOf};

use crate::index::Entry;
use ts_key::{Hit, KeyRef, Seq, Ts};

/// How many entries stand before a key.
pub(crate) fn lower_bound(keys: &[u8], image: &[u8], entries: &[Entry], to: &KeyRef<'_>) -> usize
    requires within { All (IsWithin keys.now image.now) entries.now }
    requires sorted { IsSorted (items_at keys.now image.now entries.now) }
    ensures value { result ≡ below (sort_key_of to.now) (items_at keys.now image.now entries.now) }
    ensures bound { result ≤ length entries.now }
    ensures from { (k : ℕ) (d : EntryOf) → result ≤ k → k < length entries.now → is_before (sort_key_at keys.now (slice_index_or entries.now k d)) (sort_key_of to.now) ≡ false }
{
    let mut low = 0;
    let mut high = entries.len();
    while low < high {
        let mid = low + (high - low) / 2;
        if entries[mid].is_before(keys, to) {
            low = mid + 1;
        } else {
            high = mid;
        }
    }
    low
}

/// The first entry that a read of the key sees, among entries none of which stands before it. The first of another key
/// ends the search.
fn first_seen<'a>(
    keys: &[u8],
    image: &'a [u8],
    entries: &[Entry],
    key: &[u8],
    t: Ts,
    s: Seq,
) -> Option<Hit<'a>>
    requires within { All (IsWithin keys.now image.now) entries.now }
    requires sorted { IsSorted (items_at keys.now image.now entries.now) }
    requires from { (k : ℕ) (d : EntryOf) → k < length entries.now → is_before (sort_key_at keys.now (slice_index_or entries.now k d)) (record { key = key.now; ts = t.0; seq = s.0 }) ≡ false }
    ensures { found key.now result ≡ first_of (is_item_seen key.now t.0 s.0) (items_at keys.now image.now entries.now) }
{
    for e in entries {
        if !e.is_of(keys, key) {
            return None;
        }
        if e.is_within(t, s) {
            return Some(e.hit(image));
        }
    }
    None
}

/// The newest version of the key with a timestamp up to `t` and a sequence up to `s`.
pub(crate) fn find_in<'a>(
    keys: &[u8],
    image: &'a [u8],
    entries: &[Entry],
    key: &[u8],
    t: Ts,
    s: Seq,
) -> Option<Hit<'a>>
    requires within { All (IsWithin keys.now image.now) entries.now }
    requires sorted { IsSorted (items_at keys.now image.now entries.now) }
    ensures { found key.now result ≡ visible_item (items_at keys.now image.now entries.now) key.now t.0 s.0 }
{
    let to = KeyRef { key, ts: t, seq: s };
    let at = lower_bound(keys, image, entries, &to);
    let (_, rest) = entries.split_at(at);
    first_seen(keys, image, rest, key, t, s)
}
