//! Scripts of calls on an engine in memory.

ghost use Rattle.std.specs.Prelude.{IfOk, OnOk};
ghost use Rattle.std.specs.Arc.{arc_value};
ghost use Rattle.store_engine.specs.Engines.{IsCurrent, IsRunning};

use crate::flushes::{Flush, flushed};
use recovery::{OpenFault, Parts, open_store};
use std::alloc::{AllocError, Global};
use std::sync::Arc;
use store_engine::{Engine, EngineFault, Sealed};
use super_version::SuperVersion;
use ts_key::{Batch, Family, Key, Op, Ts, Value, WriteOp};
use udt_disk::{Disk, MemDisk};

/// A call on an engine.
#[derive(Clone, Copy)]
pub enum Step {
    /// Puts of so many keys at a timestamp.
    Write {
        family: u32,
        ts: u64,
        count: u8,
        sync: bool,
    },
    /// A synced put of a key.
    Put {
        family: u32,
        key: u8,
        ts: u64,
    },
    Raise {
        family: u32,
        floor: u64,
    },
    Sync,
    Seal {
        family: u32,
    },
    /// Makes a file for a job, and gives it back.
    JobFile,
    /// Makes a file for a flush, and installs its table.
    Flush(Flush),
}

/// The put of a key.
fn put_of(alloc: Global, family: u32, ts: u64, key: u8) -> Result<WriteOp, AllocError> {
    let Ok(key) = Key::of(alloc, &[key]) else {
        return Err(AllocError);
    };
    let Ok(value) = Value::of(alloc, b"v") else {
        return Err(AllocError);
    };
    Ok(WriteOp {
        family: Family(family),
        key,
        ts: Ts(ts),
        op: Op::Put(value),
    })
}

/// The puts of a step.
fn batch_of(alloc: Global, family: u32, ts: u64, count: u8) -> Result<Batch, AllocError> {
    let mut ops = Vec::new(alloc);
    for key in 0..count {
        ops.push(put_of(alloc, family, ts, key)?)?;
    }
    Batch::of(ops).map_err(|_| AllocError)
}

/// The put of one key, as a batch.
fn one_put(alloc: Global, family: u32, ts: u64, key: u8) -> Result<Batch, AllocError> {
    let mut ops = Vec::new(alloc);
    ops.push(put_of(alloc, family, ts, key)?)?;
    Batch::of(ops).map_err(|_| AllocError)
}

/// The engine of a store, and the super version of its opening.
fn opened(alloc: Global, disk: MemDisk) -> Result<(Engine<MemDisk>, Arc<SuperVersion>), OpenFault>
    ensures running { IfOk result (λ r. IsRunning r.0) }
    ensures current { IfOk result (λ r. IsCurrent r.0 (arc_value r.1)) }
{
    let parts = match open_store(alloc, disk) {
        Ok(parts) => parts,
        Err((_disk, fault)) => return Err(fault),
    };
    let Parts {
        disk,
        manifest,
        wal,
        version,
    } = parts;
    let engine = Engine::from_parts(alloc, disk, manifest, wal, &version);
    match Arc::new(alloc, version) {
        Ok(now) => Ok((engine, now)),
        Err(_) => {
            let _disk = engine.close();
            Err(OpenFault::NoMemory)
        }
    }
}

/// Syncs an engine, whose super version stays.
fn synced(
    engine: &mut Engine<MemDisk>,
    now: &Arc<SuperVersion>,
) -> Result<Arc<SuperVersion>, EngineFault>
    requires running { IsRunning engine.old }
    requires current { IsCurrent engine.old (arc_value now.now) }
    ensures running { OnOk result (IsRunning engine.new) }
    ensures current { IfOk result (λ next. IsCurrent engine.new (arc_value next)) }
{
    let Ok(same) = Arc::try_clone(now) else {
        return Err(EngineFault::NoMemory);
    };
    match engine.sync() {
        Ok(()) => Ok(same),
        Err(fault) => Err(fault),
    }
}

/// Seals a family. Where nothing is sealed the super version stays.
fn sealed(
    alloc: Global,
    engine: &mut Engine<MemDisk>,
    now: &Arc<SuperVersion>,
    family: Family,
) -> Result<Arc<SuperVersion>, EngineFault>
    requires running { IsRunning engine.old }
    requires current { IsCurrent engine.old (arc_value now.now) }
    ensures running { OnOk result (IsRunning engine.new) }
    ensures current { IfOk result (λ next. IsCurrent engine.new (arc_value next)) }
{
    let Ok(same) = Arc::try_clone(now) else {
        return Err(EngineFault::NoMemory);
    };
    match engine.seal(alloc, now.as_ref(), family) {
        Ok(Sealed::Nothing) => Ok(same),
        Ok(Sealed::Waiting) => Ok(same),
        Ok(Sealed::Rolled { version, mems: _ }) => Ok(version),
        Err(fault) => Err(fault),
    }
}

/// Makes a file for a job, and gives it back. The super version stays.
fn with_job_file(
    engine: &mut Engine<MemDisk>,
    now: &Arc<SuperVersion>,
) -> Result<Arc<SuperVersion>, EngineFault>
    requires running { IsRunning engine.old }
    requires current { IsCurrent engine.old (arc_value now.now) }
    ensures running { OnOk result (IsRunning engine.new) }
    ensures current { IfOk result (λ next. IsCurrent engine.new (arc_value next)) }
{
    let Ok(same) = Arc::try_clone(now) else {
        return Err(EngineFault::NoMemory);
    };
    match engine.new_job_file() {
        Ok((_number, file)) => {
            engine.discard(file);
            Ok(same)
        }
        Err(fault) => Err(fault),
    }
}

/// The super version behind a step.
fn stepped(
    alloc: Global,
    engine: &mut Engine<MemDisk>,
    now: &Arc<SuperVersion>,
    step: Step,
) -> Result<Arc<SuperVersion>, EngineFault>
    requires running { IsRunning engine.old }
    requires current { IsCurrent engine.old (arc_value now.now) }
    ensures running { OnOk result (IsRunning engine.new) }
    ensures current { IfOk result (λ next. IsCurrent engine.new (arc_value next)) }
{
    match step {
        Step::Write {
            family,
            ts,
            count,
            sync,
        } => {
            let Ok(batch) = batch_of(alloc, family, ts, count) else {
                return Err(EngineFault::NoMemory);
            };
            engine.write(alloc, now.as_ref(), &batch, sync)
        }
        Step::Put { family, key, ts } => {
            let Ok(batch) = one_put(alloc, family, ts, key) else {
                return Err(EngineFault::NoMemory);
            };
            engine.write(alloc, now.as_ref(), &batch, true)
        }
        Step::Raise { family, floor } => {
            engine.raise(alloc, now.as_ref(), Family(family), Ts(floor))
        }
        Step::Sync => synced(engine, now),
        Step::Seal { family } => sealed(alloc, engine, now, Family(family)),
        Step::JobFile => with_job_file(engine, now),
        Step::Flush(flush) => flushed(alloc, engine, now, flush),
    }
}

/// Makes steps up to the first that fails, and tells why that one does.
fn run(
    alloc: Global,
    engine: &mut Engine<MemDisk>,
    now: Arc<SuperVersion>,
    steps: &[Step],
) -> Option<EngineFault>
    requires running { IsRunning engine.old }
    requires current { IsCurrent engine.old (arc_value now) }
{
    let mut now = now;
    for step in steps {
        match stepped(alloc, engine, &now, *step) {
            Ok(next) => now = next,
            Err(fault) => return Some(fault),
        }
    }
    None
}

/// The folder of a store behind steps, and why the last of them failed, where it did. The engine is closed.
pub fn history(
    alloc: Global,
    disk: MemDisk,
    steps: &[Step],
) -> Result<(MemDisk, Option<EngineFault>), OpenFault> {
    let (mut engine, now) = match opened(alloc, disk) {
        Ok(opened) => opened,
        Err(fault) => return Err(fault),
    };
    let fault = run(alloc, &mut engine, now, steps);
    Ok((engine.close(), fault))
}

/// The super version of a store that is opened, and closed at once.
pub fn version_of(alloc: Global, disk: MemDisk) -> Result<SuperVersion, OpenFault> {
    match open_store(alloc, disk) {
        Ok(
            Parts {
                mut disk,
                manifest,
                wal,
                version,
            },
        ) => {
            disk.retire(wal.into_file());
            disk.retire(manifest.into_file());
            Ok(version)
        }
        Err((_disk, fault)) => Err(fault),
    }
}
