//! How large levels and tables grow.

use super_version::LEVELS;

/// The level below all others.
pub const LOWEST_LEVEL: usize = LEVELS - 1;

/// How many tables level 0 has before a compaction is due.
pub const LEVEL0_TABLES: usize = 4;

/// How many bytes the tables of level 1 may have together. Each level after it may have ten times as many as the one
/// before.
pub const LEVEL1_BYTES: u64 = 10_485_760;

/// How many bytes the blocks of a table that a compaction makes have at least before the next table begins.
pub const TABLE_BYTES: usize = 2_097_152;
