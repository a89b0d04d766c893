//! The versions of a compaction's inputs, taken one by one.
ghost use Rattle.std.specs.Prelude.{◌≡◌, true, All, IfOk, Some, map};
ghost use Rattle.ts_key.specs.Items.{shown};
ghost use Rattle.ts_key.specs.Order.{sort_key_of};
ghost use Rattle.merge_cursor.specs.Sides.{is_apart, key_lent};
ghost use Rattle.data_block.specs.Cursors.{place_of, cursor_items};
ghost use Rattle.history_gc.specs.Pushed.{AreInOrder};
ghost use Rattle.super_version.specs.Contents.{items_of_table, op_of_kind, version_of_item};
ghost use Rattle.flush_job.specs.Props.{in_order_prop};
ghost use Rattle.compaction.specs.Feeding.{ends_at, passed_items, versions_from};

use crate::NoMemory;
use block_table::TableCursor;
use flush_job::Feed;
use merge_tree::MergeTree;
use std::alloc::{AllocError, Global};
use super_version::LiveTable;
use ts_key::{Family, Hit, Key, KeyRef, Kind, Op, Value, Version, compare};

/// The versions of tables of one family, merged. It keeps no copy of a version.
#[derive(Drop)]
pub(crate) struct TableFeed<'a> {
    alloc: Global,
    family: Family,
    merge: MergeTree<TableCursor<'a>>,
    /// Where the version stands that was taken last.
    last: Option<KeyRef<'a>>,
    ghost ends: { ends_at (key_lent last) (passed_items merge.cursors.items) ≡ true },
    ghost in_order: { AreInOrder (versions_from family (passed_items merge.cursors.items)) } by { in_order_prop (versions_from family (passed_items merge.cursors.items)) },
}

/// A cursor at the first version of each table.
fn cursors(alloc: Global, tables: &[LiveTable]) -> Result<Vec<TableCursor<'_>>, NoMemory>
    ensures versions { IfOk result (λ cs. map cursor_items cs.items ≡ map items_of_table tables.now) }
    ensures first { IfOk result (λ cs. All (λ c. place_of c ≡ 1) cs.items) }
{
    let mut all = Vec::with_capacity(alloc, tables.len())?;
    for table in tables {
        all.push(table.table().cursor(alloc)?)?;
    }
    Ok(all)
}

/// A copy of what a version does.
fn op_at(alloc: Global, hit: &Hit<'_>) -> Result<Op, NoMemory>
    ensures { IfOk result (λ op. op ≡ op_of_kind hit.now.kind hit.now.value.now) }
{
    match hit.kind {
        Kind::Del => Ok(Op::Del),
        Kind::Put => match Value::of(alloc, hit.value) {
            Ok(value) => Ok(Op::Put(value)),
            Err(_) => Err(AllocError),
        },
    }
}

/// A copy of the version that a cursor shows.
fn version_at(
    alloc: Global,
    family: Family,
    key: &KeyRef<'_>,
    hit: &Hit<'_>,
) -> Result<Version, NoMemory>
    ensures { IfOk result (λ v. v ≡ version_of_item family (shown (key.now, hit.now))) }
{
    let op = op_at(alloc, hit)?;
    match Key::of(alloc, key.key) {
        Ok(own) => Ok(Version {
            family,
            key: own,
            ts: key.ts,
            seq: key.seq,
            op,
        }),
        Err(_) => Err(AllocError),
    }
}

/// Whether the key stands behind the last one, where there was one.
fn is_behind(last: &Option<KeyRef<'_>>, key: &KeyRef<'_>) -> bool
    ensures { result ≡ is_apart (key_lent last.now) (Some (sort_key_of key.now)) }
{
    match last {
        None => true,
        Some(last) => compare(last, key).is_lt(),
    }
}

impl<'a> TableFeed<'a> {
    ghost use Rattle.std.specs.Prelude.{◌≡◌, [], true, IfOk, map};
    ghost use Rattle.ts_key.specs.Lists.{merged};
    ghost use Rattle.history_gc.specs.Pushed.{AreInOrder};
    ghost use Rattle.merge_cursor.specs.Sides.{key_lent};
    ghost use Rattle.super_version.specs.Contents.{items_of_table};
    ghost use Rattle.compaction.specs.Feeding.{ends_at, left_items, passed_items, versions_from};

    /// Of the versions of these tables none was taken.
    pub(crate) fn new(
        alloc: Global,
        family: Family,
        tables: &'a [LiveTable],
    ) -> Result<TableFeed<'a>, NoMemory>
        ensures family { IfOk result (λ f. f.family ≡ family) }
        ensures taken { IfOk result (λ f. passed_items f.merge.cursors.items ≡ []) }
        ensures coming { IfOk result (λ f. left_items f.merge.cursors.items ≡ merged (map items_of_table tables.now)) }
    {
        let merge = MergeTree::new(alloc, cursors(alloc, tables)?)?;
        Ok(TableFeed {
            alloc,
            family,
            merge,
            last: None,
        })
    }
}

impl Feed for TableFeed<'_> {
    ghost use Rattle.history_gc.specs.Pushed.{AreInOrder};
    ghost use Rattle.compaction.specs.Feeding.{left_items, passed_items, versions_from};

    ghost taken = { λ f. versions_from f.family (passed_items f.merge.cursors.items) };

    ghost coming = { λ f. versions_from f.family (left_items f.merge.cursors.items) };

    fn next(&mut self) -> Result<Option<Version>, NoMemory> {
        let Some((key, hit)) = self.merge.at() else {
            return Ok(None);
        };
        if !is_behind(&self.last, &key) {
            return Err(AllocError);
        }
        let version = version_at(self.alloc, self.family, &key, &hit)?;
        self.merge.next();
        self.last = Some(key);
        Ok(Some(version))
    }

    ghost in_order = { λ f. f.in_order };
}
