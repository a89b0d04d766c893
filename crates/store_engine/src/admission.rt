//! Which writes and raises are admitted, by what the store holds now, and the super version behind them.
ghost use Rattle.std.specs.Prelude.{◌≡◌, ◌+◌, ◌<◌, ◌≤◌, [], Bool, ℕ, length, option_map, slice_get, All, IfErr, IfOk, None, OnOk};
ghost use Rattle.std.specs.Arc.{arc_value};
ghost use Rattle.ts_key.specs.declared.limits.TheConstants.{BATCH_LIMIT, SEQUENCE_LIMIT};
ghost use Rattle.ts_key.specs.Visible.{newest_ts};
ghost use Rattle.udt_model.specs.declared.reply.Reply.TheVariants.{Done, OkAt};
ghost use Rattle.udt_model.specs.Acts.Act.{raise as raise_act, write as write_act};
ghost use Rattle.udt_model.specs.State.{State};
ghost use Rattle.udt_model.specs.Steps.{admitted, after, raised};
ghost use Rattle.floor_laws.specs.Sound.{IsSoundState};
ghost use Rattle.super_version.specs.Changes.{ChangesFamily, family_with_floor};
ghost use Rattle.super_version.specs.Contents.{items_of_family};
ghost use Rattle.super_version.specs.Writes.{AddsBatch};
ghost use Rattle.super_version.specs.declared.family.FamilyState.{FamilyState as StateOf};
ghost use Rattle.store_engine.specs.Admission.{IsInMemory, RefusesRaise, RefusesWrite, fault_of, full_fault, is_on_key, latest_at as latest_of_key, op_fault, ops_fault, raise_fault, told_refusal, unknown_in, where_above, write_fault};
ghost use Rattle.store_engine.specs.Now.{IsNow};

use crate::fault::EngineFault;
use crate::latest::latest_in;
use memtable::later_of;
use std::alloc::Global;
use std::sync::Arc;
use super_version::{FamilyState, NoMemory, SuperVersion};
use ts_key::limits::SEQUENCE_LIMIT;
use ts_key::{Batch, Family, Seq, Ts, WriteOp};

/// The greatest timestamp of a key in all lists of a family, where it is above `ts`. Nothing is looked up where no version of the
/// family is above `ts`.
fn newest_above(state: &FamilyState, key: &[u8], ts: Ts) -> Option<Ts>
    ensures { option_map (λ newest. newest.0) result ≡ where_above ts.0 (newest_ts (items_of_family state.now) key.now) }
{
    if latest_in(state).0 <= ts.0 {
        return None;
    }
    let newest = state.newest(key)?;
    if ts.0 < newest.0 { Some(newest) } else { None }
}

/// Whether the operation is on this key.
fn is_on(op: &WriteOp, family: Family, key: &[u8]) -> bool
    ensures { result ≡ is_on_key family key.now op.now }
{
    op.family.0 == family.0 && op.key.bytes() == key
}

/// The greatest timestamp of operations on a key.
fn latest_at(ops: &[WriteOp], family: Family, key: &[u8]) -> Option<Ts>
    ensures { option_map (λ latest. latest.0) result ≡ latest_of_key family key.now ops.now }
{
    let mut latest = None;
    for op in ops {
        if is_on(op, family, key) {
            latest = later_of(latest, Some(op.ts));
        }
    }
    latest
}

/// Judges the operation `number` of a batch, behind the earlier ones.
fn judge_op(
    state: &FamilyState,
    earlier: &[WriteOp],
    op: &WriteOp,
    number: u32,
) -> Result<(), EngineFault>
    ensures { fault_of result ≡ op_fault (Some state.now) earlier.now number op.now }
{
    if op.ts.0 < state.floor.0 {
        return Err(EngineFault::BelowFloor {
            op: number,
            floor: state.floor,
        });
    }
    let key = op.key.bytes();
    let newest = later_of(
        newest_above(state, key, op.ts),
        latest_at(earlier, op.family, key),
    );
    match newest {
        Some(newest) if op.ts.0 < newest.0 => Err(EngineFault::Fell { op: number, newest }),
        _ => Ok(()),
    }
}

/// Judges each operation behind the earlier ones, up to the first that is refused.
fn judge_ops(now: &SuperVersion, ops: &[WriteOp]) -> Result<(), EngineFault>
    requires { length ops.now ≤ BATCH_LIMIT }
    ensures { fault_of result ≡ ops_fault now.now.families [] 1 ops.now }
{
    for (index, op) in ops.iter().enumerate() {
        let (earlier, _) = ops.split_at(index);
        let Some(state) = now.family(op.family) else {
            return Err(EngineFault::UnknownFamily);
        };
        judge_op(state, earlier, op, index as u32 + 1)?;
    }
    Ok(())
}

/// Refuses operations of which one names no family.
fn judge_families(now: &SuperVersion, ops: &[WriteOp]) -> Result<(), EngineFault>
    ensures fault { fault_of result ≡ unknown_in now.now.families ops.now }
    ensures known { OnOk result (All (λ op. op.family.0 < length now.now.families) ops.now) }
{
    for op in ops {
        if now.family(op.family).is_none() {
            return Err(EngineFault::UnknownFamily);
        }
    }
    Ok(())
}

/// Refuses so many operations where there are no sequences left for them.
fn judge_room(last: Seq, count: usize) -> Result<(), EngineFault>
    requires { count ≤ BATCH_LIMIT }
    ensures fault { fault_of result ≡ full_fault last count }
    ensures room { OnOk result (last.0 + count ≤ SEQUENCE_LIMIT) }
{
    if last.0 > SEQUENCE_LIMIT - count as u64 {
        return Err(EngineFault::SequenceFull { last });
    }
    Ok(())
}

/// Judges a batch: first whether all its families are there, then its operations one by one, then whether there are sequences for
/// them.
fn judge(now: &SuperVersion, ops: &[WriteOp]) -> Result<(), EngineFault>
    requires { length ops.now ≤ BATCH_LIMIT }
    ensures fault { fault_of result ≡ write_fault now.now ops.now }
    ensures known { OnOk result (All (λ op. op.family.0 < length now.now.families) ops.now) }
    ensures room { OnOk result (now.now.last.0 + length ops.now ≤ SEQUENCE_LIMIT) }
{
    judge_families(now, ops)?;
    judge_ops(now, ops)?;
    judge_room(now.last, ops.len())
}

/// A super version that is shared.
fn share(alloc: Global, version: SuperVersion) -> Result<Arc<SuperVersion>, NoMemory>
    ensures { IfOk result (λ shared. arc_value shared ≡ version) }
{
    Ok(Arc::new(alloc, version)?)
}

/// The super version behind a batch, which follows the last sequence, or why the batch isn't admitted: the model's refusal. It asks for
/// the newest version of a key at most once an operation, and not at all where the family has nothing above its timestamp.
pub(crate) fn admit(
    alloc: Global,
    now: &SuperVersion,
    batch: &Batch,
) -> Result<Arc<SuperVersion>, EngineFault>
    ensures shown { IfOk result (λ next. AddsBatch batch.now now.now (arc_value next)) }
    ensures answers { told_refusal result ≡ write_fault now.now batch.now }
    ensures room { OnOk result (now.now.last.0 + length batch.now ≤ SEQUENCE_LIMIT) }
    ensures known { OnOk result (All (λ op. op.family.0 < length now.now.families) batch.now) }
    ensures admitted { (m : State) → IsSoundState m → m.halted ≡ None → IsNow now.now m → OnOk result (admitted m batch.now ≡ OkAt (m.last.0 + length batch.now)) }
    ensures next { (m : State) (number : ℕ) (sync : Bool) → IsSoundState m → IsNow now.now m → IfOk result (λ next. IsNow (arc_value next) (after m number (write_act batch.now sync) (OkAt (m.last.0 + length batch.now)))) }
    ensures refused { (m : State) → IsSoundState m → m.halted ≡ None → IsNow now.now m → IfErr result (RefusesWrite m batch.now) }
    ensures memory { IfErr result IsInMemory }
{
    judge(now, batch.ops())?;
    Ok(share(alloc, now.with_write(alloc, batch)?)?)
}

/// Judges a raise.
fn judge_raise(now: &SuperVersion, family: Family, floor: Ts) -> Result<(), EngineFault>
    ensures fault { fault_of result ≡ raise_fault (slice_get now.now.families family.0) floor }
    ensures known { OnOk result (family.0 < length now.now.families) }
    ensures higher { OnOk result ((f : StateOf) → slice_get now.now.families family.0 ≡ Some f → f.floor.0 ≤ floor.0) }
{
    let Some(state) = now.family(family) else {
        return Err(EngineFault::UnknownFamily);
    };
    if floor.0 < state.floor.0 {
        return Err(EngineFault::FloorFell { floor: state.floor });
    }
    Ok(())
}

/// The super version with another floor of a family, or why the raise isn't admitted: the model's refusal.
pub(crate) fn admit_raise(
    alloc: Global,
    now: &SuperVersion,
    family: Family,
    floor: Ts,
) -> Result<Arc<SuperVersion>, EngineFault>
    ensures shown { IfOk result (λ next. ChangesFamily family.0 (family_with_floor floor) now.now (arc_value next)) }
    ensures answers { told_refusal result ≡ raise_fault (slice_get now.now.families family.0) floor }
    ensures known { OnOk result (family.0 < length now.now.families) }
    ensures higher { OnOk result ((f : StateOf) → slice_get now.now.families family.0 ≡ Some f → f.floor.0 ≤ floor.0) }
    ensures admitted { (m : State) → m.halted ≡ None → IsNow now.now m → OnOk result (raised m family floor ≡ Done) }
    ensures next { (m : State) (number : ℕ) → IsNow now.now m → IfOk result (λ next. IsNow (arc_value next) (after m number (raise_act family floor) Done)) }
    ensures refused { (m : State) → m.halted ≡ None → IsNow now.now m → IfErr result (RefusesRaise m family floor) }
    ensures memory { IfErr result IsInMemory }
{
    judge_raise(now, family, floor)?;
    Ok(share(alloc, now.with_floor(alloc, family, floor)?)?)
}
