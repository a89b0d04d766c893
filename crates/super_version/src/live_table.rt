//! A table that is in use.
ghost use Rattle.std.specs.Prelude.{◌≡◌, IfOk};
ghost use Rattle.block_table.specs.Contents.{greatest_of};

use crate::NoMemory;
use block_table::Table;
use std::marker::Model;
use std::sync::Arc;
use ts_key::Ts;

/// A live table of a family: the number of its file, and what the file holds. Copies share that. Contracts see the table
/// itself.
#[derive(Drop)]
pub struct LiveTable {
    pub number: u64,
    pub table: Arc<Table>,
}

impl Model for LiveTable {
    ghost use Rattle.std.specs.Arc.{arc_value};
    ghost use Rattle.super_version.specs.Live.{Live};

    ghost Value = { Live };

    ghost view = { λ t. record { number = t.number; table = arc_value t.table } };
}

impl LiveTable {
    /// The same table, shared.
    pub fn copy(&self) -> Result<LiveTable, NoMemory>
        ensures { IfOk result (λ table. table ≡ self.now) }
    {
        Ok(LiveTable {
            number: self.number,
            table: Arc::try_clone(&self.table)?,
        })
    }

    /// The number of its file.
    pub fn number(&self) -> u64
        ensures { result ≡ self.now.number }
    {
        self.number
    }

    /// The greatest timestamp of its versions, 0 where it has none: `newest` of a key is never above it.
    pub fn latest(&self) -> Ts
        ensures { result.0 ≡ greatest_of (λ v. v.sort_key.ts) self.now.table.contents.items }
    {
        self.table().properties().greatest_ts
    }

    /// What its file holds.
    pub fn table(&self) -> &Table
        ensures { result.now ≡ self.now.table }
    {
        self.table.as_ref()
    }
}
