//! Edits: what the later frames of a manifest will say. None is read or written yet.

use ts_key::{Family, Seq, Ts};
use udt_model::Items;

/// A live table, and the level on which it stands, from 0 on.
#[derive(Clone, Copy, Debug, PartialEq, Eq)]
pub struct TableAt {
    pub level: u32,
    pub number: u64,
}

/// What an edit changes of a family: its floor, the sequence through which its versions are in tables, and its live tables.
#[derive(Debug, Drop)]
pub struct FamilyEdit {
    pub family: Family,
    pub floor: Ts,
    pub through: Seq,
    pub add: Items<TableAt>,
    pub remove: Items<u64>,
}

/// A change of the manifest: the logs that become live and those that are dropped, the number of the next file, the last
/// sequence, and what changes of one family.
#[derive(Debug, Drop)]
pub struct Edit {
    pub add_logs: Items<u64>,
    pub drop_logs: Items<u64>,
    pub next_file: u64,
    pub last: Seq,
    pub family: Option<FamilyEdit>,
}
