//! The newest version that a read sees in several lists.
ghost use Rattle.std.specs.Prelude.{◌≡◌, ℕ, List, map};
ghost use Rattle.std.specs.List.{flat_map};
ghost use Rattle.std.specs.Arc.{arc_value};
ghost use Rattle.ts_key.specs.Items.{found, hit_at};
ghost use Rattle.ts_key.specs.Visible.{is_item_newer, newer_item, visible_item};
ghost use Rattle.super_version.specs.Contents.{items_of_level, items_of_memtable, items_of_table};
ghost use Rattle.point_read.specs.Tells.{is_item_above};

use memtable::Mem;
use std::sync::Arc;
use super_version::{LiveTable, SharedList};
use ts_key::{Hit, Seq, Ts};

/// Whether the first is newer: by timestamp, then by sequence.
fn is_newer_than(a: &Hit<'_>, b: &Hit<'_>) -> bool
    ensures { (key : List ℕ) → result ≡ is_item_newer (hit_at key a.now) (hit_at key b.now) }
{
    b.ts.0 < a.ts.0 || (a.ts.0 == b.ts.0 && b.seq.0 < a.seq.0)
}

/// The newer of the best so far and what an older list has, the best where neither is.
fn newer_of<'a>(best: Option<Hit<'a>>, other: Option<Hit<'a>>) -> Option<Hit<'a>>
    ensures { (key : List ℕ) → found key result ≡ newer_item (found key best.entry) (found key other.entry) }
{
    let Some(a) = best else {
        return other;
    };
    let Some(b) = other else {
        return best;
    };
    if is_newer_than(&b, &a) { other } else { best }
}

/// Whether the best so far is above every timestamp of a list.
fn is_above(best: Option<Hit<'_>>, latest: Ts) -> bool
    ensures { (key : List ℕ) → result ≡ is_item_above (found key best.entry) latest.0 }
{
    match best {
        None => false,
        Some(hit) => latest.0 < hit.ts.0,
    }
}

/// What a read sees in a memtable.
fn hit_in<'a>(mem: &'a Mem, key: &[u8], t: Ts, s: Seq) -> Option<Hit<'a>>
    ensures { found key.now result ≡ visible_item (items_of_memtable mem.now) key.now t.0 s.0 }
{
    match mem.find(key, t, s) {
        None => None,
        Some(version) => Some(version.hit()),
    }
}

/// The newer of the best so far and what a read sees in a memtable. One whose timestamps are all smaller is passed over.
pub fn newer_in_mem<'a>(
    best: Option<Hit<'a>>,
    mem: &'a Mem,
    key: &[u8],
    t: Ts,
    s: Seq,
) -> Option<Hit<'a>>
    ensures { found key.now result ≡ newer_item (found key.now best.entry) (visible_item (items_of_memtable mem.now) key.now t.0 s.0) }
{
    if is_above(best, mem.latest()) {
        return best;
    }
    newer_of(best, hit_in(mem, key, t, s))
}

/// The newer of the best so far and what a read sees in memtables.
pub fn newer_in_mems<'a>(
    best: Option<Hit<'a>>,
    mems: &'a [Arc<Mem>],
    key: &[u8],
    t: Ts,
    s: Seq,
) -> Option<Hit<'a>>
    ensures { found key.now result
        ≡ newer_item (found key.now best.entry) (visible_item (flat_map items_of_memtable (map arc_value mems.now)) key.now t.0 s.0) }
{
    let mut newest = best;
    for mem in mems {
        newest = newer_in_mem(newest, mem.as_ref(), key, t, s);
    }
    newest
}

/// The newer of the best so far and what a read sees in a table. One whose timestamps are all smaller is passed over.
fn newer_in_table<'a>(
    best: Option<Hit<'a>>,
    table: &'a LiveTable,
    key: &[u8],
    t: Ts,
    s: Seq,
) -> Option<Hit<'a>>
    ensures { found key.now result ≡ newer_item (found key.now best.entry) (visible_item (items_of_table table.now) key.now t.0 s.0) }
{
    if is_above(best, table.latest()) {
        return best;
    }
    newer_of(best, table.table().find(key, t, s))
}

/// The newer of the best so far and what a read sees in the tables of a level.
fn newer_in_level<'a>(
    best: Option<Hit<'a>>,
    tables: &'a [Arc<LiveTable>],
    key: &[u8],
    t: Ts,
    s: Seq,
) -> Option<Hit<'a>>
    ensures { found key.now result
        ≡ newer_item (found key.now best.entry) (visible_item (items_of_level (map arc_value tables.now)) key.now t.0 s.0) }
{
    let mut newest = best;
    for table in tables {
        newest = newer_in_table(newest, table.as_ref(), key, t, s);
    }
    newest
}

/// The newer of the best so far and what a read sees in the tables of all levels.
pub fn newer_in_levels<'a>(
    best: Option<Hit<'a>>,
    levels: &'a [Arc<SharedList<LiveTable>>],
    key: &[u8],
    t: Ts,
    s: Seq,
) -> Option<Hit<'a>>
    ensures { found key.now result
        ≡ newer_item (found key.now best.entry) (visible_item (flat_map items_of_level (map arc_value levels.now)) key.now t.0 s.0) }
{
    let mut newest = best;
    for tables in levels {
        newest = newer_in_level(newest, tables.as_ref().as_slice(), key, t, s);
    }
    newest
}
