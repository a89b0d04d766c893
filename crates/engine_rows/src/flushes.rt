//! Installs of tables whose bytes a test gives.

ghost use Rattle.std.specs.Prelude.{◌≡◌, IfOk, OnOk, IsTrue, []};
ghost use Rattle.std.specs.Arc.{arc_value};
ghost use Rattle.store_engine.specs.Engines.{IsCurrent, IsRunning};

use block_table::Table;
use bytes::Bytes;
use std::alloc::Global;
use std::sync::Arc;
use store_engine::{Engine, EngineFault};
use super_version::{SuperVersion, TableOut};
use ts_key::{Family, Seq, Ts};
use udt_disk::{DiskFile, MemDisk};

/// What a flush of a family made: a table of one version, which takes the place of all that is sealed.
#[derive(Clone, Copy)]
pub struct Flush {
    pub family: u32,
    pub through: u64,
    pub floor: u64,
    pub image: &'static [u8],
}

/// Writes a table to an empty file and syncs it. None where the file failed, or it is no table.
fn table_in<F: DiskFile>(alloc: Global, file: &mut F, image: &'static [u8]) -> Option<Table>
    requires { IsTrue (F.is_told file.old) → F.seen file.old ≡ [] }
    ensures { F.name file.new ≡ F.name file.old }
{
    if file.write_at(0, image).is_err() || file.sync().is_err() {
        return None;
    }
    Table::read(alloc, Bytes::from_static(image)).ok()
}

/// The super version behind the install of a flush.
pub fn flushed(
    alloc: Global,
    engine: &mut Engine<MemDisk>,
    now: &Arc<SuperVersion>,
    flush: Flush,
) -> Result<Arc<SuperVersion>, EngineFault>
    requires running { IsRunning engine.old }
    requires current { IsCurrent engine.old (arc_value now.now) }
    ensures running { OnOk result (IsRunning engine.new) }
    ensures current { IfOk result (λ next. IsCurrent engine.new (arc_value next)) }
{
    let now = now.as_ref();
    let family = Family(flush.family);
    let Some(state) = now.family(family) else {
        return Err(EngineFault::UnknownFamily);
    };
    if flush.through < state.through.0 || flush.through > now.last.0 {
        return Err(EngineFault::UnknownFamily);
    }
    let (number, mut file) = match engine.new_job_file() {
        Ok(made) => made,
        Err(fault) => return Err(fault),
    };
    let Some(table) = table_in(alloc, &mut file, flush.image) else {
        engine.discard(file);
        return Err(EngineFault::DiskFault);
    };
    let out = TableOut {
        table,
        kept: 1,
        floor: Ts(flush.floor),
    };
    let gone = state.sealed.len();
    engine.install_flush(
        alloc,
        now,
        family,
        gone,
        Seq(flush.through),
        number,
        file,
        out,
    )
}
