//! The core and its events.
ghost use Rattle.std.specs.Prelude.{◌≡◌, ℕ, ◌+◌, ◌^◌, ◌<◌, ◌≤◌, is_some, IfOk, OnErr, OnOk, length};
ghost use Rattle.std.specs.Option.{option_copied};
ghost use Rattle.ts_key.specs.declared.limits.TheConstants.{BATCH_LIMIT};
ghost use Rattle.udt_model.specs.State.{family_at, floor_at, form_at, is_registered as registers, place_at, seqs_of, tables_of, through_at};
ghost use Rattle.udt_model.specs.Jobs.{compaction_kept, flush_floor, flush_kept, flush_taken, has_number};
ghost use Rattle.udt_model.specs.Refusals.{op_refusal, unknown};
ghost use Rattle.floor_laws.specs.Sound.{lists_of};
ghost use Rattle.floor_core.specs.Cores.{fresh_core};
ghost use Rattle.floor_core.specs.Machine.{behind_event, changed_by, has_snapshot as knows, is_accepted, kept_families, kept_family, pin_of, sight_from, told};
ghost use Rattle.floor_core.specs.Runs.{IsSoundCore, told_from_writes};
ghost use Rattle.floor_core.specs.Steps.{admitted_versions, compaction_from, find_snap, flush_from, judged, tables_behind};

use crate::compacting::{are_closed, are_new, deeper_spans, input_versions, other_tables, parts};
use crate::event::{CoreEvent, CoreReply};
use crate::flushing::{add_flushed, floor_over, flush_versions, join_all};
use crate::lists::{append, append_contents, between_of};
use crate::parts::{
    CoreCompaction, CoreFamily, CoreFlush, CorePinned, CoreSnap, CoreTable, CoreView, FlushMade,
    copy_numbers, fresh_families, is_live_in, live_numbers, other_snaps, set_floor, set_tables,
};
use collection_laws::plain_collect;
use std::alloc::AllocError;
use std::marker::Model;
use ts_key::{
    Batch, Family, Form, Key, NoMemory, SEQUENCE_LIMIT, SNAPSHOT_LIMIT, Seq, Ts, Version, WriteOp,
};
use udt_model::{Items, Piece, Place, plain_newest, plain_read};

/// The core: the families with their tables, every version that was ever written, the snapshots, the running jobs and the
/// views. Contracts see it as a `CoreState`.
#[derive(Drop)]
pub struct Core {
    families: Vec<CoreFamily>,
    versions: Vec<Version>,
    last: Seq,
    halted: Option<u64>,
    snaps: Vec<CoreSnap>,
    flush: Option<CoreFlush>,
    compaction: Option<CoreCompaction>,
    pins: Vec<CoreView>,
    events: u64,
}

impl Model for Core {
    ghost use Rattle.std.specs.Prelude.{◌<◌, ◌^◌, flat_map, length};
    ghost use Rattle.udt_model.specs.State.{numbers_of};
    ghost use Rattle.floor_core.specs.Cores.{CoreState};

    ghost Value = { CoreState };

    ghost view = { λ c. record { store = record { families = c.families.items; versions = c.versions.items; last = c.last; halted = c.halted; used = flat_map (λ f. numbers_of f.tables) c.families.items; snaps = c.snaps.items; flush = c.flush; compaction = c.compaction }; pins = c.pins.items; events = c.events } };

    ghost invariant = { λ c. (c.last.0 < 2 ^ 56) × (length c.families.items < 2 ^ 32) };
}

impl Core {
    /// The core before every event, with families of these forms, whose numbers are their places. `NoMemory` comes where there is
    /// no memory, and for more families than 32 bits number.
    pub fn fresh(forms: Vec<Form>) -> Result<Core, NoMemory>
        ensures fresh { IfOk result (λ core. core ≡ fresh_core forms.items) }
        ensures sound { IfOk result IsSoundCore }
    {
        let core = Core::begun(forms)?;
        Ok(core)
    }

    /// The core before every event, of which it isn't said yet that it is sound.
    #[tactic(auto, using(crate::proofs::Begun::fresh_is))]
    fn begun(forms: Vec<Form>) -> Result<Core, NoMemory>
        ensures { IfOk result (λ core. core ≡ fresh_core forms.items) }
    {
        if forms.len() > u32::MAX as usize {
            return Err(AllocError);
        }
        let alloc = *forms.allocator();
        Ok(Core {
            families: fresh_families(alloc, &forms)?,
            versions: Vec::new(alloc),
            last: Seq(0),
            halted: None,
            snaps: Vec::new(alloc),
            flush: None,
            compaction: None,
            pins: Vec::new(alloc),
            events: 0,
        })
    }

    /// The family of this number.
    fn family(&self, family: Family) -> Option<&CoreFamily>
        ensures { option_copied result ≡ family_at self.now.store family }
    {
        self.families.get(family.0 as usize)
    }

    /// The place of the family of this number, with its floor.
    fn place(&self, family: Family) -> Option<Place>
        ensures { result ≡ place_at self.now.store family }
    {
        match self.family(family) {
            None => None,
            Some(f) => Some(Place {
                family,
                floor: f.floor,
            }),
        }
    }

    // ---- reads

    /// The registered snapshot of this number.
    fn snapshot(&self, event: u64) -> Option<&CoreSnap>
        ensures { option_copied result ≡ find_snap self.now.store event }
    {
        self.snaps.iter().find(|s| s.event == event)
    }

    fn is_registered(&self, id: u64) -> bool
        ensures { result ≡ registers self.now.store id }
    {
        self.snaps.iter().any(|s| s.event == id)
    }

    /// Whether the snapshot is registered, where one is given.
    fn has_snapshot(&self, snap: Option<u64>) -> bool
        ensures { result ≡ knows self.now.store snap }
    {
        match snap {
            None => true,
            Some(event) => self.is_registered(event),
        }
    }

    /// The sequence up to which a read sees: this one, or that of the snapshot.
    fn sight(&self, last: Seq, snap: Option<u64>) -> Seq
        ensures { result ≡ sight_from self.now.store last snap }
    {
        match snap {
            None => last,
            Some(event) => match self.snapshot(event) {
                None => last,
                Some(s) => s.seq,
            },
        }
    }

    /// The lists of a family: its versions that are in no table, and what its tables hold.
    fn lists(&self, family: Family, f: &CoreFamily) -> Result<Vec<Version>, NoMemory>
        ensures { IfOk result (λ lists. lists.items ≡ lists_of self.now.store family f.now) }
    {
        let alloc = *self.versions.allocator();
        let mut lists = between_of(alloc, &self.versions, family, f.through, self.last)?;
        append_contents(&mut lists, &f.tables)?;
        Ok(lists)
    }

    #[tactic(auto, using(crate::proofs::Judging::get_leaves))]
    fn get(
        &self,
        family: Family,
        key: &Key,
        t: Ts,
        snap: Option<u64>,
    ) -> Result<CoreReply, NoMemory>
        ensures told { IfOk result (λ reply. reply ≡ told self.now (CoreEvent.Get family key.now t snap)) }
        ensures left { self.now ≡ changed_by self.now (CoreEvent.Get family key.now t snap) }
    {
        let last = self.last;
        let Some(f) = self.family(family) else {
            return Ok(CoreReply::Refused);
        };
        if !self.has_snapshot(snap) {
            return Ok(CoreReply::Refused);
        }
        let s = self.sight(last, snap);
        let lists = self.lists(family, f)?;
        let alloc = *lists.allocator();
        let read = plain_read(alloc, &lists, f.floor, family, key.bytes(), t, s)?;
        Ok(CoreReply::Read(read))
    }

    /// The view of the pin of this number.
    fn pin_of(&self, pin: u64) -> Option<&CoreView>
        ensures { option_copied result ≡ pin_of self.now pin }
    {
        self.pins.iter().find(|v| v.number == pin)
    }

    #[tactic(auto, using(crate::proofs::Judging::pinned_get_leaves))]
    fn pinned_get(
        &self,
        pin: u64,
        family: Family,
        key: &Key,
        t: Ts,
        snap: Option<u64>,
    ) -> Result<CoreReply, NoMemory>
        ensures told { IfOk result (λ reply. reply ≡ told self.now (CoreEvent.PinnedGet pin family key.now t snap)) }
        ensures left { self.now ≡ changed_by self.now (CoreEvent.PinnedGet pin family key.now t snap) }
    {
        let alloc = *self.versions.allocator();
        let Some(view) = self.pin_of(pin) else {
            return Ok(CoreReply::Refused);
        };
        let Some(f) = view.families.get(family.0 as usize) else {
            return Ok(CoreReply::Refused);
        };
        if !self.has_snapshot(snap) {
            return Ok(CoreReply::Refused);
        }
        let s = self.sight(view.last, snap);
        let read = plain_read(alloc, &f.versions, f.floor, family, key.bytes(), t, s)?;
        Ok(CoreReply::Read(read))
    }

    // ---- writes

    /// Whether the operation is below the floor of its family or falls below its key's newest version of these.
    fn is_below(&self, w: &[Version], op: &WriteOp) -> bool
        ensures { (k : ℕ) → result ≡ is_some (op_refusal w.now k (place_at self.now.store op.now.family) op.now) }
    {
        let Some(place) = self.place(op.family) else {
            return true;
        };
        if op.ts.0 < place.floor.0 {
            return true;
        }
        match plain_newest(w, place.family, op.key.bytes()) {
            None => false,
            Some(newest) => op.ts.0 < newest.ts.0,
        }
    }

    /// Whether one of the operations names no family.
    fn has_unknown(&self, ops: &[WriteOp]) -> bool
        ensures { result ≡ is_some (unknown self.now.store ops.now) }
    {
        for op in ops {
            if self.family(op.family).is_none() {
                return true;
            }
        }
        false
    }

    /// Every version with those that the operations make, unless one of them is refused over those before it.
    fn admit(&self, ops: &[WriteOp]) -> Result<Option<Items<Version>>, NoMemory>
        requires { length ops.now ≤ BATCH_LIMIT }
        ensures { IfOk result (λ found. found ≡ admitted_versions self.now.store ops.now) }
    {
        let last = self.last.0;
        let mut grown = Vec::new(*self.versions.allocator());
        append(&mut grown, &self.versions)?;
        for (i, op) in ops.iter().enumerate() {
            if self.is_below(&grown, op) {
                return Ok(None);
            }
            grown.push(op.version(Seq(last + i as u64 + 1))?)?;
        }
        Ok(Some(Items::of(grown)))
    }

    /// The same, unless the write is refused.
    #[tactic(auto, using(crate::proofs::Judging::judged_unknown, crate::proofs::Judging::judged_halted, crate::proofs::Judging::judged_full, crate::proofs::Judging::judged_admitted))]
    fn judge(&self, ops: &[WriteOp]) -> Result<Option<Items<Version>>, NoMemory>
        requires { length ops.now ≤ BATCH_LIMIT }
        ensures { IfOk result (λ found. found ≡ judged self.now ops.now) }
    {
        if self.has_unknown(ops) {
            return Ok(None);
        }
        if self.halted.is_some() {
            return Ok(None);
        }
        if self.last.0 + ops.len() as u64 > SEQUENCE_LIMIT {
            return Ok(None);
        }
        self.admit(ops)
    }

    #[tactic(auto, using(crate::proofs::Judging::write_refused, crate::proofs::Judging::write_stays, crate::proofs::Judging::write_told, crate::proofs::Judging::write_turns))]
    fn write(&mut self, batch: &Batch) -> Result<CoreReply, NoMemory>
        ensures told { IfOk result (λ reply. reply ≡ told self.old (CoreEvent.Write batch.now)) }
        ensures left { OnOk result (self.new ≡ changed_by self.old (CoreEvent.Write batch.now)) }
        ensures kept { OnErr result (self.new ≡ self.old) }
    {
        let ops = batch.ops();
        let Some(grown) = self.judge(ops)? else {
            return Ok(CoreReply::Refused);
        };
        let last = Seq(self.last.0 + ops.len() as u64);
        self.versions = grown.into_vec();
        self.last = last;
        Ok(CoreReply::Written { last })
    }

    // ---- floors, snapshots, views and the halt

    fn admits_raise(&self, family: Family, floor: Ts) -> bool
        ensures { result ≡ is_accepted self.now (CoreEvent.Raise family floor) }
    {
        match self.family(family) {
            None => false,
            Some(f) => self.halted.is_none() && f.floor.0 <= floor.0,
        }
    }

    fn raise(&mut self, family: Family, floor: Ts) -> CoreReply
        ensures told { result ≡ told self.old (CoreEvent.Raise family floor) }
        ensures left { self.new ≡ changed_by self.old (CoreEvent.Raise family floor) }
    {
        if !self.admits_raise(family, floor) {
            return CoreReply::Refused;
        }
        set_floor(&mut self.families, family, floor);
        CoreReply::Done
    }

    fn snap(&mut self) -> Result<CoreReply, NoMemory>
        requires { self.old.events + 1 < 2 ^ 64 }
        ensures told { IfOk result (λ reply. reply ≡ told self.old CoreEvent.Snap) }
        ensures left { OnOk result (self.new ≡ changed_by self.old CoreEvent.Snap) }
        ensures kept { OnErr result (self.new ≡ self.old) }
    {
        if self.snaps.len() >= SNAPSHOT_LIMIT {
            return Ok(CoreReply::Refused);
        }
        self.snaps.push(CoreSnap {
            event: self.events + 1,
            seq: self.last,
        })?;
        Ok(CoreReply::Done)
    }

    fn release(&mut self, id: u64) -> Result<CoreReply, NoMemory>
        ensures told { IfOk result (λ reply. reply ≡ told self.old (CoreEvent.Release id)) }
        ensures left { OnOk result (self.new ≡ changed_by self.old (CoreEvent.Release id)) }
        ensures kept { OnErr result (self.new ≡ self.old) }
    {
        if !self.is_registered(id) {
            return Ok(CoreReply::Refused);
        }
        let kept = other_snaps(*self.snaps.allocator(), &self.snaps, id)?;
        self.snaps = kept;
        Ok(CoreReply::Done)
    }

    /// What a view keeps of a family of now.
    fn pinned_family(&self, family: Family, f: &CoreFamily) -> Result<CorePinned, NoMemory>
        ensures { IfOk result (λ kept. kept ≡ kept_family self.now.store family f.now) }
    {
        Ok(CorePinned {
            form: f.form,
            floor: f.floor,
            versions: self.lists(family, f)?,
        })
    }

    /// The same of each family.
    fn pinned_families(&self) -> Result<Vec<CorePinned>, NoMemory>
        ensures { IfOk result (λ kept. kept.items ≡ kept_families self.now.store 0 self.now.store.families) }
    {
        let mut kept = Vec::new(*self.families.allocator());
        for (i, f) in self.families.iter().enumerate() {
            kept.push(self.pinned_family(Family(i as u32), f)?)?;
        }
        Ok(kept)
    }

    fn pin(&mut self) -> Result<CoreReply, NoMemory>
        requires { self.old.events + 1 < 2 ^ 64 }
        ensures told { IfOk result (λ reply. reply ≡ told self.old CoreEvent.Pin) }
        ensures left { OnOk result (self.new ≡ changed_by self.old CoreEvent.Pin) }
        ensures kept { OnErr result (self.new ≡ self.old) }
    {
        let families = self.pinned_families()?;
        let seqs = self.seqs()?;
        self.pins.push(CoreView {
            number: self.events + 1,
            last: self.last,
            families,
            seqs,
        })?;
        Ok(CoreReply::Done)
    }

    fn halt(&mut self) -> CoreReply
        requires { self.old.events + 1 < 2 ^ 64 }
        ensures told { result ≡ told self.old CoreEvent.Halt }
        ensures left { self.new ≡ changed_by self.old CoreEvent.Halt }
    {
        self.halted = Some(self.halted.unwrap_or(self.events + 1));
        CoreReply::Done
    }

    fn drop_flush(&mut self) -> CoreReply
        ensures told { result ≡ told self.old CoreEvent.FlushDrop }
        ensures left { self.new ≡ changed_by self.old CoreEvent.FlushDrop }
    {
        if self.flush.is_none() {
            return CoreReply::Refused;
        }
        self.flush = None;
        CoreReply::Done
    }

    fn drop_compaction(&mut self) -> CoreReply
        ensures told { result ≡ told self.old CoreEvent.CompactDrop }
        ensures left { self.new ≡ changed_by self.old CoreEvent.CompactDrop }
    {
        if self.compaction.is_none() {
            return CoreReply::Refused;
        }
        self.compaction = None;
        CoreReply::Done
    }

    // ---- starts and ends of flushes

    /// The sequences of the registered snapshots.
    fn seqs(&self) -> Result<Vec<Seq>, NoMemory>
        ensures { IfOk result (λ seqs. seqs.items ≡ seqs_of self.now.store) }
    {
        let alloc = *self.snaps.allocator();
        self.snaps.iter().map(|s| s.seq).collect(alloc)
    }

    /// The flush that starts, unless the start is refused.
    fn flush_of(&self, family: Family) -> Result<Option<CoreFlush>, NoMemory>
        requires { self.now.events + 1 < 2 ^ 64 }
        ensures { IfOk result (λ job. job ≡ flush_from self.now family) }
    {
        let Some(f) = self.family(family) else {
            return Ok(None);
        };
        if self.halted.is_some() {
            return Ok(None);
        }
        if self.flush.is_some() {
            return Ok(None);
        }
        let alloc = *self.versions.allocator();
        let unflushed = between_of(alloc, &self.versions, family, f.through, self.last)?;
        if unflushed.is_empty() {
            return Ok(None);
        }
        Ok(Some(CoreFlush {
            start: self.events + 1,
            family,
            through: self.last,
            floor: f.floor,
            seqs: self.seqs()?,
        }))
    }

    fn start_flush(&mut self, family: Family) -> Result<CoreReply, NoMemory>
        requires { self.old.events + 1 < 2 ^ 64 }
        ensures told { IfOk result (λ reply. reply ≡ told self.old (CoreEvent.FlushStart family)) }
        ensures left { OnOk result (self.new ≡ changed_by self.old (CoreEvent.FlushStart family)) }
        ensures kept { OnErr result (self.new ≡ self.old) }
    {
        let Some(job) = self.flush_of(family)? else {
            return Ok(CoreReply::Refused);
        };
        self.flush = Some(job);
        Ok(CoreReply::Done)
    }

    /// Whether a live table has this number.
    fn is_live(&self, table: u64) -> bool
        ensures { result ≡ has_number self.now.store.used table }
    {
        is_live_in(&self.families, table)
    }

    /// The form of a family.
    fn form(&self, family: Family) -> Form
        ensures { result ≡ form_at self.now.store family }
    {
        match self.family(family) {
            None => Form::Persist,
            Some(f) => f.form,
        }
    }

    /// The floor of a family.
    fn floor(&self, family: Family) -> Ts
        ensures { result ≡ floor_at self.now.store family }
    {
        match self.family(family) {
            None => Ts(0),
            Some(f) => f.floor,
        }
    }

    /// The sequence up to which the versions of a family are in tables.
    fn through(&self, family: Family) -> Seq
        ensures { result ≡ through_at self.now.store family }
    {
        match self.family(family) {
            None => Seq(0),
            Some(f) => f.through,
        }
    }

    /// The versions that a flush takes.
    fn taken(&self, job: &CoreFlush) -> Result<Vec<Version>, NoMemory>
        ensures { IfOk result (λ versions. versions.items ≡ flush_taken self.now.store job.now) }
    {
        let alloc = *self.versions.allocator();
        let through = self.through(job.family);
        between_of(alloc, &self.versions, job.family, through, job.through)
    }

    /// The table that a flush makes, and the floor that it leaves.
    fn flushed(&self, job: &CoreFlush, table: u64) -> Result<FlushMade, NoMemory>
        ensures table { IfOk result (λ made. made.table ≡ record { number = table; level = 0; versions = flush_kept self.now.store job.now }) }
        ensures floor { IfOk result (λ made. made.floor ≡ flush_floor self.now.store job.now) }
    {
        let alloc = *self.versions.allocator();
        let form = self.form(job.family);
        let taken = self.taken(job)?;
        let versions = flush_versions(alloc, form, &taken, job.floor, &job.seqs)?;
        let floor = floor_over(form, self.floor(job.family), &taken)?;
        Ok(FlushMade {
            table: CoreTable {
                number: table,
                level: 0,
                versions,
            },
            floor,
        })
    }

    fn admits_flush_end(&self, table: u64) -> bool
        ensures { result ≡ is_accepted self.now (CoreEvent.FlushEnd table) }
    {
        self.halted.is_none() && self.flush.is_some() && !self.is_live(table)
    }

    fn end_flush(&mut self, table: u64) -> Result<CoreReply, NoMemory>
        ensures told { IfOk result (λ reply. reply ≡ told self.old (CoreEvent.FlushEnd table)) }
        ensures left { OnOk result (self.new ≡ changed_by self.old (CoreEvent.FlushEnd table)) }
        ensures kept { OnErr result (self.new ≡ self.old) }
    {
        if !self.admits_flush_end(table) {
            return Ok(CoreReply::Refused);
        }
        let Some(job) = &self.flush else {
            return Ok(CoreReply::Refused);
        };
        let family = job.family;
        let through = job.through;
        let made = self.flushed(job, table)?;
        add_flushed(&mut self.families, family, made.table, through, made.floor)?;
        self.flush = None;
        Ok(CoreReply::Done)
    }

    // ---- starts and ends of compactions

    /// The live tables of a family.
    fn tables(&self, family: Family) -> &[CoreTable]
        ensures { result.now ≡ tables_of self.now.store family }
    {
        match self.family(family) {
            None => &[],
            Some(f) => &f.tables,
        }
    }

    /// The compaction that starts, unless the start is refused.
    fn compaction_of(
        &self,
        family: Family,
        inputs: &[u64],
        level: u32,
    ) -> Result<Option<CoreCompaction>, NoMemory>
        requires { self.now.events + 1 < 2 ^ 64 }
        ensures { IfOk result (λ job. job ≡ compaction_from self.now family inputs.now level) }
    {
        let Some(f) = self.family(family) else {
            return Ok(None);
        };
        if self.halted.is_some() {
            return Ok(None);
        }
        if self.compaction.is_some() {
            return Ok(None);
        }
        let alloc = *self.versions.allocator();
        if !are_closed(alloc, &f.tables, inputs, level)? {
            return Ok(None);
        }
        Ok(Some(CoreCompaction {
            start: self.events + 1,
            family,
            inputs: copy_numbers(alloc, inputs)?,
            level,
            deeper: deeper_spans(alloc, &f.tables, inputs, level)?,
            last: self.last,
            floor: f.floor,
            seqs: self.seqs()?,
        }))
    }

    fn start_compaction(
        &mut self,
        family: Family,
        inputs: &[u64],
        level: u32,
    ) -> Result<CoreReply, NoMemory>
        requires { self.old.events + 1 < 2 ^ 64 }
        ensures told { IfOk result (λ reply. reply ≡ told self.old (CoreEvent.CompactStart family inputs.now level)) }
        ensures left { OnOk result (self.new ≡ changed_by self.old (CoreEvent.CompactStart family inputs.now level)) }
        ensures kept { OnErr result (self.new ≡ self.old) }
    {
        let Some(job) = self.compaction_of(family, inputs, level)? else {
            return Ok(CoreReply::Refused);
        };
        self.compaction = Some(job);
        Ok(CoreReply::Done)
    }

    /// The versions of the tables that a compaction makes.
    fn compaction_keeps(&self, job: &CoreCompaction) -> Result<Vec<Version>, NoMemory>
        ensures { IfOk result (λ kept. kept.items ≡ compaction_kept self.now.store job.now) }
    {
        let alloc = *self.versions.allocator();
        let held = input_versions(alloc, self.tables(job.family), &job.inputs)?;
        let kept = plain_collect(alloc, &held, job.floor, &job.seqs, &job.deeper)?;
        Ok(kept)
    }

    /// The tables of its family behind the end of a compaction, unless its numbers aren't new or its pieces no parts.
    fn compacted(
        &self,
        job: &CoreCompaction,
        pieces: &[Piece],
    ) -> Result<Option<Items<CoreTable>>, NoMemory>
        ensures { IfOk result (λ tables. tables ≡ tables_behind self.now.store job.now pieces.now) }
    {
        let alloc = *self.versions.allocator();
        if !are_new(live_numbers(alloc, &self.families)?, pieces)? {
            return Ok(None);
        }
        let kept = self.compaction_keeps(job)?;
        let Some(new) = parts(alloc, job.level, &kept, pieces)? else {
            return Ok(None);
        };
        let others = other_tables(alloc, self.tables(job.family), &job.inputs)?;
        let tables = join_all(others, new.into_vec())?;
        Ok(Some(Items::of(tables)))
    }

    fn end_compaction(&mut self, pieces: &[Piece]) -> Result<CoreReply, NoMemory>
        ensures told { IfOk result (λ reply. reply ≡ told self.old (CoreEvent.CompactEnd pieces.now)) }
        ensures left { OnOk result (self.new ≡ changed_by self.old (CoreEvent.CompactEnd pieces.now)) }
        ensures kept { OnErr result (self.new ≡ self.old) }
    {
        if self.halted.is_some() {
            return Ok(CoreReply::Refused);
        }
        let Some(job) = &self.compaction else {
            return Ok(CoreReply::Refused);
        };
        let family = job.family;
        let Some(tables) = self.compacted(job, pieces)? else {
            return Ok(CoreReply::Refused);
        };
        set_tables(&mut self.families, family, tables.into_vec());
        self.compaction = None;
        Ok(CoreReply::Done)
    }

    // ---- all events

    /// The core behind the event, which isn't counted yet.
    fn change(&mut self, event: &CoreEvent) -> Result<CoreReply, NoMemory>
        requires { self.old.events + 1 < 2 ^ 64 }
        ensures told { IfOk result (λ reply. reply ≡ told self.old event.now) }
        ensures left { OnOk result (self.new ≡ changed_by self.old event.now) }
        ensures kept { OnErr result (self.new ≡ self.old) }
    {
        match event {
            CoreEvent::Write { batch } => self.write(batch),
            CoreEvent::Get {
                family,
                key,
                t,
                snap,
            } => self.get(*family, key, *t, *snap),
            CoreEvent::Raise { family, floor } => Ok(self.raise(*family, *floor)),
            CoreEvent::Snap => self.snap(),
            CoreEvent::Release { id } => self.release(*id),
            CoreEvent::Pin => self.pin(),
            CoreEvent::PinnedGet {
                pin,
                family,
                key,
                t,
                snap,
            } => self.pinned_get(*pin, *family, key, *t, *snap),
            CoreEvent::FlushStart { family } => self.start_flush(*family),
            CoreEvent::FlushEnd { table } => self.end_flush(*table),
            CoreEvent::FlushDrop => Ok(self.drop_flush()),
            CoreEvent::CompactStart {
                family,
                inputs,
                level,
            } => self.start_compaction(*family, inputs.as_slice(), *level),
            CoreEvent::CompactEnd { pieces } => self.end_compaction(pieces.as_slice()),
            CoreEvent::CompactDrop => Ok(self.drop_compaction()),
            CoreEvent::Halt => Ok(self.halt()),
        }
    }

    /// The reply to an event, which is counted, whether it is refused or not. `NoMemory` comes where there is no memory, and where
    /// 2^64 - 1 events are counted or a version has the greatest timestamp, which no batch gives it; then the core is as it was. It
    /// takes the time of the cube of the versions at the end of a job, and for other events that of reading all versions.
    pub fn step(&mut self, event: &CoreEvent) -> Result<CoreReply, NoMemory>
        ensures told { IfOk result (λ reply. reply ≡ told self.old event.now) }
        ensures left { OnOk result (self.new ≡ behind_event self.old event.now) }
        ensures kept { OnErr result (self.new ≡ self.old) }
        ensures sound { IsSoundCore self.old → OnOk result (IsSoundCore self.new) }
        ensures reads { IsSoundCore self.old → IfOk result (λ reply. reply ≡ told_from_writes self.old event.now) }
    {
        let reply = self.count(event)?;
        Ok(reply)
    }

    /// The reply to an event, which is counted; of a core of which it isn't known that it is sound.
    fn count(&mut self, event: &CoreEvent) -> Result<CoreReply, NoMemory>
        ensures told { IfOk result (λ reply. reply ≡ told self.old event.now) }
        ensures left { OnOk result (self.new ≡ behind_event self.old event.now) }
        ensures kept { OnErr result (self.new ≡ self.old) }
    {
        if self.events == u64::MAX {
            return Err(AllocError);
        }
        let reply = self.change(event)?;
        self.events += 1;
        Ok(reply)
    }
}
