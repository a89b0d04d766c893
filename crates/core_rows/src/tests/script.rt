//! A script of events of all kinds, each of whose reads is compared with a plain read of all that was written.

use super::events::{Ask, Told, reply_to, write_op};
use floor_core::Core;
use std::alloc::Global;
use std::process::Abort;
use std::test::Fail;
use ts_key::{Family, Form, Seq, Ts, Version};
use udt_model::plain_read;

/// The floors of both families.
#[derive(Clone, Copy)]
struct Floors {
    persist: u64,
    strip: u64,
}

/// A snapshot or a pin: the number of its event, and the last sequence and the floors there.
#[derive(Clone, Copy)]
struct Mark {
    number: u64,
    last: u64,
    floors: Floors,
}

/// A job of a family, and what there was when it started: a flush's last sequence, a compaction's next table.
#[derive(Clone, Copy)]
struct Job {
    family: u32,
    from: u64,
}

/// A core with a family that keeps its timestamps and one that strips them, and what its replies have told of it.
#[derive(Drop)]
struct Script {
    core: Core,
    random: u64,
    events: u64,
    reads: u64,
    versions: Vec<Version>,
    last: u64,
    floors: Floors,
    snaps: Vec<Mark>,
    views: Vec<Mark>,
    flush: Option<Job>,
    compaction: Option<Job>,
    tables: Vec<(u32, u64)>,
    next_table: u64,
}

impl Floors {
    fn of(&self, family: u32) -> u64 {
        if family == 0 {
            self.persist
        } else {
            self.strip
        }
    }

    fn set(&mut self, family: u32, floor: u64) {
        if family == 0 {
            self.persist = floor;
        } else {
            self.strip = floor;
        }
    }
}

impl Script {
    fn new(alloc: Global) -> Result<Script, Fail> {
        let forms = vec![in alloc; Form::Persist, Form::Strip]?;
        Ok(Script {
            core: Core::fresh(forms)?,
            random: 1,
            events: 0,
            reads: 0,
            versions: Vec::new(alloc),
            last: 0,
            floors: Floors {
                persist: 0,
                strip: 0,
            },
            snaps: Vec::new(alloc),
            views: Vec::new(alloc),
            flush: None,
            compaction: None,
            tables: Vec::new(alloc),
            next_table: 1,
        })
    }

    /// A number below this one, or 0.
    fn pick(&mut self, below: u64) -> u64 {
        self.random = self
            .random
            .wrapping_mul(6364136223846793005)
            .wrapping_add(1442695040888963407);
        (self.random >> 33).checked_rem(below).unwrap_or(0)
    }

    fn pick_byte(&mut self, below: u64) -> u8 {
        (self.pick(below) % 256) as u8
    }

    fn pick_family(&mut self) -> u32 {
        u32::from(self.pick_byte(2))
    }

    fn pick_key(&mut self) -> u8 {
        self.pick_byte(5)
    }

    /// A timestamp at this floor or a little above.
    fn pick_stamp(&mut self, floor: u64) -> u64 {
        floor.saturating_add(self.pick(6))
    }

    fn step(&mut self, alloc: Global, ask: Ask) -> Result<Told, Fail> {
        self.events = self.events.wrapping_add(1);
        reply_to(alloc, &mut self.core, ask)
    }

    fn write(&mut self, alloc: Global) -> Result<(), Fail> {
        let family = self.pick_family();
        let key = self.pick_key();
        let floor = self.floors.of(family);
        let ts = self.pick_stamp(floor);
        let byte = self.pick_byte(256);
        let value = if byte % 4 == 0 { None } else { Some(byte) };
        let Told::Written(last) = self.step(alloc, Ask::Write(family, key, ts, value))? else {
            return Ok(());
        };
        let written = write_op(alloc, family, key, ts, value)?;
        self.last = last;
        self.versions.push(Version {
            family: written.family,
            key: written.key,
            ts: written.ts,
            seq: Seq(last),
            op: written.op,
        })?;
        Ok(())
    }

    /// The read of a key over all that was written up to a sequence, by this floor.
    fn read(
        &self,
        alloc: Global,
        floor: u64,
        family: u32,
        key: u8,
        t: u64,
        s: u64,
    ) -> Result<Told, Fail> {
        let family = Family(family);
        let read = plain_read(
            alloc,
            &self.versions,
            Ts(floor),
            family,
            &[key],
            Ts(t),
            Seq(s),
        )?;
        Ok(Told::of_read(&read))
    }

    fn compare(
        &mut self,
        rt: &impl Abort,
        alloc: Global,
        ask: Ask,
        wanted: Told,
    ) -> Result<(), Fail> {
        let found = self.step(alloc, ask)?;
        assert_eq!(rt; found, wanted, "event {}: {ask:?}", self.events);
        self.reads = self.reads.wrapping_add(1);
        Ok(())
    }

    fn snapshot_at(&self, n: u64) -> Option<Mark> {
        let place = n.checked_rem(self.snaps.len() as u64)?;
        self.snaps.get(place as usize).copied()
    }

    fn view_at(&self, n: u64) -> Option<Mark> {
        let place = n.checked_rem(self.views.len() as u64)?;
        self.views.get(place as usize).copied()
    }

    /// A snapshot, in half of the calls, where there is one.
    fn pick_snapshot(&mut self) -> Option<Mark> {
        let n = self.pick(1024);
        if self.pick(2) == 0 {
            return None;
        }
        self.snapshot_at(n)
    }

    fn get(&mut self, rt: &impl Abort, alloc: Global) -> Result<(), Fail> {
        let family = self.pick_family();
        let key = self.pick_key();
        let floor = self.floors.of(family);
        let t = self.pick_stamp(floor).saturating_sub(1);
        let (snap, s) = match self.pick_snapshot() {
            None => (None, self.last),
            Some(held) => (Some(held.number), held.last),
        };
        let wanted = self.read(alloc, floor, family, key, t, s)?;
        self.compare(rt, alloc, Ask::Get(family, key, t, snap), wanted)
    }

    fn get_in_view(&mut self, rt: &impl Abort, alloc: Global) -> Result<(), Fail> {
        let n = self.pick(1024);
        let Some(view) = self.view_at(n) else {
            return Ok(());
        };
        let family = self.pick_family();
        let key = self.pick_key();
        let floor = view.floors.of(family);
        let t = self.pick_stamp(floor);
        let (snap, s) = match self.pick_snapshot() {
            None => (None, view.last),
            Some(held) => (Some(held.number), held.last.min(view.last)),
        };
        let wanted = self.read(alloc, floor, family, key, t, s)?;
        let ask = Ask::PinnedGet(view.number, family, key, t, snap);
        self.compare(rt, alloc, ask, wanted)
    }

    fn raise(&mut self, alloc: Global) -> Result<(), Fail> {
        let family = self.pick_family();
        let old = self.floors.of(family);
        let floor = self.pick_stamp(old);
        if self.step(alloc, Ask::Raise(family, floor))? == Told::Done {
            self.floors.set(family, floor);
        }
        Ok(())
    }

    /// The mark of an event that registers or pins.
    fn mark(&mut self, alloc: Global, ask: Ask) -> Result<Mark, Fail> {
        self.step(alloc, ask)?;
        Ok(Mark {
            number: self.events,
            last: self.last,
            floors: self.floors,
        })
    }

    fn snap(&mut self, alloc: Global) -> Result<(), Fail> {
        let mark = self.mark(alloc, Ask::Snap)?;
        self.snaps.push(mark)?;
        Ok(())
    }

    fn release(&mut self, alloc: Global) -> Result<(), Fail> {
        if let Some(held) = self.snaps.pop() {
            self.step(alloc, Ask::Release(held.number))?;
        }
        Ok(())
    }

    fn pin(&mut self, alloc: Global) -> Result<(), Fail> {
        let mark = self.mark(alloc, Ask::Pin)?;
        self.views.push(mark)?;
        Ok(())
    }

    fn start_flush(&mut self, alloc: Global) -> Result<(), Fail> {
        let family = self.pick_family();
        if self.step(alloc, Ask::FlushStart(family))? == Told::Done {
            let from = self.last;
            self.flush = Some(Job { family, from });
        }
        Ok(())
    }

    /// The floor that a flush leaves.
    fn floor_left(&self, flush: Job) -> u64 {
        let mut floor = self.floors.of(flush.family);
        if flush.family == 0 {
            return floor;
        }
        for v in &self.versions {
            if v.family.0 == flush.family && v.seq.0 <= flush.from {
                floor = floor.max(v.ts.0.wrapping_add(1));
            }
        }
        floor
    }

    fn end_flush(&mut self, alloc: Global) -> Result<(), Fail> {
        let Some(flush) = self.flush else {
            return Ok(());
        };
        self.step(alloc, Ask::FlushEnd(self.next_table))?;
        let floor = self.floor_left(flush);
        self.floors.set(flush.family, floor);
        self.flush = None;
        self.add_table(flush.family)
    }

    /// The next table is one of this family.
    fn add_table(&mut self, family: u32) -> Result<(), Fail> {
        self.tables.push((family, self.next_table))?;
        self.next_table = self.next_table.wrapping_add(1);
        Ok(())
    }

    /// The numbers of the tables of a family.
    fn tables_of(&self, alloc: Global, family: u32) -> Result<Vec<u64>, Fail> {
        let mut tables = Vec::new(alloc);
        for (of, table) in &self.tables {
            if *of == family {
                tables.push(*table)?;
            }
        }
        Ok(tables)
    }

    fn start_compaction(&mut self, alloc: Global) -> Result<(), Fail> {
        let family = self.pick_family();
        let level = if self.pick(2) == 0 { 1 } else { 6 };
        let inputs = self.tables_of(alloc, family)?;
        let ask = Ask::CompactStart(family, &inputs, level);
        if self.step(alloc, ask)? == Told::Done {
            let from = self.next_table;
            self.compaction = Some(Job { family, from });
        }
        Ok(())
    }

    /// The end of a compaction with one table of so many versions, or with none.
    fn end_with(&mut self, alloc: Global, count: u64) -> Result<Told, Fail> {
        if count == 0 {
            return self.step(alloc, Ask::CompactEnd(&[]));
        }
        let piece = (self.next_table, count);
        self.step(alloc, Ask::CompactEnd(&[piece]))
    }

    /// Ends the compaction with the count of versions that isn't refused.
    fn end_compaction(&mut self, rt: &impl Abort, alloc: Global) -> Result<(), Fail> {
        let Some(Job { family, from }) = self.compaction else {
            return Ok(());
        };
        for count in 0..=self.versions.len() as u64 {
            if self.end_with(alloc, count)? == Told::Done {
                self.compaction = None;
                self.tables.retain(|(of, t)| *of != family || *t >= from);
                return if count > 0 {
                    self.add_table(family)
                } else {
                    Ok(())
                };
            }
        }
        assert!(rt; false, "no count of versions is the collection's");
        Ok(())
    }

    fn drop_flush(&mut self, alloc: Global) -> Result<(), Fail> {
        self.flush = None;
        self.step(alloc, Ask::FlushDrop)?;
        Ok(())
    }

    fn drop_compaction(&mut self, alloc: Global) -> Result<(), Fail> {
        self.compaction = None;
        self.step(alloc, Ask::CompactDrop)?;
        Ok(())
    }

    /// One event, at random.
    fn turn(&mut self, rt: &impl Abort, alloc: Global) -> Result<(), Fail> {
        match self.pick(24) {
            0..=5 => self.write(alloc),
            6..=9 => self.get(rt, alloc),
            10..=12 => self.get_in_view(rt, alloc),
            13 => self.raise(alloc),
            14 => self.snap(alloc),
            15 => self.release(alloc),
            16 => self.pin(alloc),
            17 => self.start_flush(alloc),
            18 | 19 => self.end_flush(alloc),
            20 => self.start_compaction(alloc),
            21 => self.end_compaction(rt, alloc),
            22 => self.drop_flush(alloc),
            _ => self.drop_compaction(alloc),
        }
    }
}

#[test]
fn a_thousand_events(rt: HostRuntime) -> Result<(), Fail> {
    let alloc = rt.alloc();
    let mut script = Script::new(alloc)?;
    for _ in 0..1000 {
        script.turn(&rt, alloc)?;
    }
    script.step(alloc, Ask::Halt)?;
    for _ in 0..50 {
        script.get(&rt, alloc)?;
        script.get_in_view(&rt, alloc)?;
    }
    assert!(rt; script.reads > 200, "{} reads", script.reads);
    assert!(rt; script.versions.len() > 100);
    assert!(rt; script.next_table > 10);
    Ok(())
}
