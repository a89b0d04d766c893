//! Which level is due for a compaction.
ghost use Rattle.std.specs.Prelude.{◌≡◌, ◌<◌, ◌≤◌, ◌==◌, nat_lt, if◌then◌else◌, length, IfSome};
ghost use Rattle.compaction.specs.Plans.{bytes_limit, file_bytes, due_level, is_level_due, of_level};

use crate::leveled::LeveledTable;
use crate::sizes::{LEVEL0_TABLES, LEVEL1_BYTES, LOWEST_LEVEL};

/// How many tables the level has.
fn count_on(tables: &[LeveledTable], level: usize) -> usize
    ensures count { result ≡ length (of_level level tables.now) }
    ensures within { result ≤ length tables.now }
{
    let mut count = 0;
    for t in tables {
        if t.level == level {
            count += 1;
        }
    }
    count
}

/// How many bytes the table adds to its level; none to another.
fn bytes_on(t: &LeveledTable, level: usize) -> u64
    ensures { result ≡ (if t.now.level == level then length t.now.table.table.image else 0) }
{
    if t.level == level {
        t.table.table().size()
    } else {
        0
    }
}

/// Whether the tables of the level have more bytes than this together.
fn has_more_bytes(tables: &[LeveledTable], level: usize, limit: u64) -> bool
    ensures { result ≡ nat_lt limit (file_bytes (of_level level tables.now)) }
{
    let mut left = limit;
    for t in tables {
        let bytes = bytes_on(t, level);
        if left < bytes {
            return true;
        }
        left -= bytes;
    }
    false
}

/// How many bytes a level from 1 on may have.
fn bytes_limit(level: usize) -> u64
    requires from { 1 ≤ level }
    requires to { level < LOWEST_LEVEL }
    ensures { result ≡ bytes_limit level }
{
    let mut limit = LEVEL1_BYTES;
    for below in 1..level {
        limit *= 10;
    }
    limit
}

/// Whether the level is due.
fn is_due(tables: &[LeveledTable], level: usize) -> bool
    requires { level < LOWEST_LEVEL }
    ensures { result ≡ is_level_due tables.now level }
{
    if level == 0 {
        return LEVEL0_TABLES <= count_on(tables, 0);
    }
    has_more_bytes(tables, level, bytes_limit(level))
}

/// The first level above the lowest that is due.
pub(crate) fn due_level(tables: &[LeveledTable]) -> Option<usize>
    ensures first { result ≡ due_level tables.now }
    ensures above { IfSome result (λ level. level < LOWEST_LEVEL) }
{
    for level in 0..LOWEST_LEVEL {
        if is_due(tables, level) {
            return Some(level);
        }
    }
    None
}
