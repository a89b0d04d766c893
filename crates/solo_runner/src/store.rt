//! The store of one client: a plain list of every version that was written. A look-up scans the list, for now; a write
//! at or above the latest timestamp needs none.
ghost use Rattle.std.specs.Prelude.{◌≡◌, ℕ, ◌+◌, ◌-◌, ◌<◌, ◌≤◌, [], false, nat_lt, if◌then◌else◌, length, take, drop, map, Bool, None, Ok, IfOk, IfSome, OnErr};
ghost use Rattle.ts_key.specs.declared.limits.TheConstants.{BATCH_LIMIT, FAMILY_LIMIT};
ghost use Rattle.solo_runner.specs.Named.{place_of, reply_of_write, refusal_of_op, refusal_of_ops, reply_of_solo_sync, unknown_in_ops};
ghost use Rattle.udt_model.specs.State.{heads_of, unflushed};
ghost use Rattle.udt_model.specs.Steps.{got, reply_of_read as told_reply};
ghost use Rattle.solo_runner.specs.Named.{IsReplyByName, after_by_name};
ghost use Rattle.udt_model.specs.Lines.{says_fault};
ghost use Rattle.client_lang.specs.Print.{IsBuilt, IsBuiltReply};
ghost use Rattle.ts_key.specs.Batches.{IsBatch};
ghost use Rattle.solo_runner.specs.Adding.{Grows, IsAdded, IsAdmitted, IsWriteRefusal, after_op, op_of_version, refusal_of, with_versions};
ghost use Rattle.solo_runner.specs.Transcripts.{fresh};

use crate::versions::Versions;
use std::alloc::{AllocError, Global};
use std::marker::Model;
use ts_key::{
    Batch, Form, Key, Name, NameFault, NoMemory, SEQUENCE_LIMIT, Seq, Ts, Version, WriteOp,
};
use udt_model::{
    Answer, Event, FamilyHead, ModelRead, NamedOp, Place, Reply, plain_place, plain_read,
};

/// The families of a store in memory: the one family `d`, which keeps its timestamps, with floor 0.
pub fn fresh_heads(alloc: Global) -> Result<Vec<FamilyHead>, NoMemory>
    ensures { IfOk result (λ heads. heads.items ≡ heads_of fresh) }
{
    let name = match Name::of(alloc, b"d") {
        Ok(name) => name,
        Err(NameFault::NoMemory) => return Err(AllocError),
        Err(NameFault::Bad) => unreachable!(),
    };
    let mut heads = Vec::new(alloc);
    heads.push(FamilyHead {
        name,
        form: Form::Persist,
        floor: Ts(0),
    })?;
    Ok(heads)
}

fn reply_of_read(read: ModelRead) -> Reply
    ensures reply { result ≡ told_reply read }
    ensures built { IsBuiltReply result }
{
    match read {
        ModelRead::Collapsed { floor } => Reply::Collapsed { floor },
        ModelRead::Told(Answer::Absent) => Reply::Absent,
        ModelRead::Told(Answer::Found { value, stamp }) => Reply::Found { value, stamp },
    }
}

/// The reply, or that there was no memory for it.
pub(super) fn told_or_want(reply: Result<Reply, NoMemory>) -> Reply
    ensures ok { IfOk reply (λ told. result ≡ told) }
    ensures err { OnErr reply (result ≡ Reply.NoMemory) }
{
    match reply {
        Ok(told) => told,
        Err(_) => Reply::NoMemory,
    }
}

/// The batch of these versions, which shares the bytes of their keys and values.
fn batch_of(alloc: Global, versions: &[Version]) -> Result<Batch, NoMemory>
    requires { IsBatch (map op_of_version versions.now) }
    ensures { IfOk result (λ batch. batch ≡ map op_of_version versions.now) }
{
    let mut ops = Vec::with_capacity(alloc, versions.len())?;
    for version in versions {
        ops.push(WriteOp {
            family: version.family,
            key: version.key.copy()?,
            ts: version.ts,
            op: version.op.copy()?,
        })?;
    }
    match Batch::of(ops) {
        Ok(batch) => Ok(batch),
        Err(_) => unreachable!(),
    }
}

/// The families, each version that was written in order, and the last sequence.
#[derive(Drop)]
pub struct PlainStore {
    heads: Vec<FamilyHead>,
    versions: Versions,
    last: Seq,
}

impl Model for PlainStore {
    ghost use Rattle.std.specs.Prelude.{◌+◌, ◌<◌, ◌≤◌, length, None};
    ghost use Rattle.ts_key.specs.declared.limits.TheConstants.{FAMILY_LIMIT, SEQUENCE_LIMIT};
    ghost use Rattle.udt_model.specs.State.{State, unflushed};

    ghost Value = { State };

    ghost view = { λ s. unflushed s.heads.items s.versions s.last None };

    ghost invariant = { λ s. (s.last.0 < SEQUENCE_LIMIT + 1) × (length s.heads.items ≤ FAMILY_LIMIT) };
}

impl PlainStore {
    /// A store of these families, with these versions up to this last sequence.
    pub fn of(heads: Vec<FamilyHead>, versions: Vec<Version>, last: Seq) -> PlainStore
        requires few { length heads.items ≤ FAMILY_LIMIT }
        requires last { last.0 < SEQUENCE_LIMIT + 1 }
        ensures { result ≡ unflushed heads.items versions.items last None }
    {
        PlainStore {
            heads,
            versions: Versions::of(versions),
            last,
        }
    }

    /// A store of these families, without a version.
    pub fn new(alloc: Global, heads: Vec<FamilyHead>) -> PlainStore
        requires { length heads.items ≤ FAMILY_LIMIT }
        ensures { result ≡ unflushed heads.items [] (record { 0 = 0 }) None }
    {
        PlainStore {
            heads,
            versions: Versions::of(Vec::new(alloc)),
            last: Seq(0),
        }
    }

    /// The reply to an event, after which the store is as the model says. Want of memory changes nothing.
    pub fn step(&mut self, event: &Event) -> Reply
        requires { IsBuilt event.now }
        ensures legal { IsReplyByName self.old event.now result }
        ensures after { (number : ℕ) → self.new ≡ after_by_name self.old number event.now result }
        ensures sound { says_fault result ≡ false }
        ensures built { IsBuiltReply result }
    {
        match event {
            Event::Sync => self.sync(),
            Event::Write { ops, sync: _ } => told_or_want(self.write(ops.as_slice())),
            Event::Get {
                family,
                key,
                t,
                snap: _,
            } => told_or_want(self.get(family, key, *t)),
            _ => unreachable!(),
        }
    }

    /// A store in memory has nothing to sync.
    fn sync(&self) -> Reply
        ensures reply { result ≡ reply_of_solo_sync self.now }
        ensures sound { says_fault result ≡ false }
        ensures built { IsBuiltReply result }
    {
        let _ = &self.last;
        Reply::Done
    }

    /// Takes a write whole, or leaves the store as it was.
    fn write(&mut self, ops: &[NamedOp]) -> Result<Reply, NoMemory>
        requires { length ops.now ≤ BATCH_LIMIT }
        ensures reply { IfOk result (λ reply. reply ≡ reply_of_write self.old ops.now) }
        ensures ok { (sync : Bool) (number : ℕ) → IfOk result (λ reply. self.new ≡ after_by_name self.old number (Event.Write ops.now sync) reply) }
        ensures err { OnErr result (self.new ≡ self.old) }
        ensures sound { IfOk result (λ reply. says_fault reply ≡ false) }
        ensures built { IfOk result IsBuiltReply }
    {
        match self.admit(ops)? {
            Some(refusal) => Ok(refusal),
            None => Ok(self.number(ops.len())),
        }
    }

    /// Adds the versions of a write, which `number` gives their sequences. Where it is refused, or memory runs out,
    /// the store is as it was.
    pub(super) fn admit(&mut self, ops: &[NamedOp]) -> Result<Option<Reply>, NoMemory>
        requires { length ops.now ≤ BATCH_LIMIT }
        ensures refusal { IfOk result (λ found. found ≡ refusal_of self.old ops.now) }
        ensures ok { IfOk result (λ found. IsAdmitted self.old ops.now found self.new) }
        ensures err { OnErr result (self.new ≡ self.old) }
        ensures built { IfOk result (λ found. IfSome found IsWriteRefusal) }
        ensures room { result ≡ Ok None → self.old.last.0 + length ops.now < SEQUENCE_LIMIT + 1 }
        ensures works { self.old.halted ≡ None }
    {
        let count = self.versions.len();
        match self.add(ops) {
            Ok(None) => Ok(None),
            Ok(Some(refusal)) => {
                self.versions.truncate(count);
                Ok(Some(refusal))
            }
            Err(_) => {
                self.versions.truncate(count);
                Err(AllocError)
            }
        }
    }

    /// Takes the sequences of so many versions, which were added, and tells the last one.
    pub(super) fn number(&mut self, count: usize) -> Reply
        requires { self.old.last.0 + count < SEQUENCE_LIMIT + 1 }
        ensures last { self.new ≡ record self.old { last = record { 0 = self.old.last.0 + count } } }
        ensures reply { result ≡ Reply.OkAt (self.old.last.0 + count) }
    {
        let number = self.last.0 + count as u64;
        self.last = Seq(number);
        Reply::OkAt { number }
    }

    /// Forgets the versions behind the first `count`.
    pub(super) fn take_back(&mut self, count: usize)
        ensures { self.new ≡ with_versions self.old (take count self.old.versions) }
    {
        self.versions.truncate(count);
    }

    /// How many versions there are.
    pub(super) fn count(&self) -> usize
        ensures { result ≡ length self.now.versions }
    {
        self.versions.len()
    }

    /// The last sequence.
    pub(super) fn last(&self) -> Seq
        ensures last { result ≡ self.now.last }
        ensures within { self.now.last.0 < SEQUENCE_LIMIT + 1 }
    {
        self.last
    }

    /// The batch of the versions behind the first `count`.
    pub(super) fn batch_behind(&self, count: usize) -> Result<Batch, NoMemory>
        requires within { count ≤ length self.now.versions }
        requires batch { IsBatch (map op_of_version (drop count self.now.versions)) }
        ensures { IfOk result (λ batch. batch ≡ map op_of_version (drop count self.now.versions)) }
    {
        batch_of(
            self.versions.allocator(),
            &self.versions.as_slice()[count..],
        )
    }

    /// Adds the versions of a write, or finds its refusal; then some of them may have been added.
    fn add(&mut self, ops: &[NamedOp]) -> Result<Option<Reply>, NoMemory>
        requires { length ops.now ≤ BATCH_LIMIT }
        ensures refusal { IfOk result (λ found. found ≡ refusal_of self.old ops.now) }
        ensures ok { IfOk result (λ found. IsAdded self.old ops.now found self.new) }
        ensures err { OnErr result (Grows self.old self.new) }
        ensures built { IfOk result (λ found. IfSome found IsWriteRefusal) }
        ensures room { result ≡ Ok None → self.old.last.0 + length ops.now < SEQUENCE_LIMIT + 1 }
    {
        if let Some(refusal) = self.unknown(ops) {
            return Ok(Some(refusal));
        }
        if let Some(refusal) = self.add_each(ops)? {
            return Ok(Some(refusal));
        }
        Ok(self.full(ops.len()))
    }

    /// The place of the family of this name.
    fn place_named(&self, name: &Name) -> Option<Place>
        ensures { result ≡ place_of self.now name.now }
    {
        plain_place(&self.heads, name)
    }

    /// `unknown` where one of the operations names no family.
    pub(super) fn unknown(&self, ops: &[NamedOp]) -> Option<Reply>
        ensures unknown { result ≡ unknown_in_ops self.now ops.now }
        ensures built { IfSome result IsWriteRefusal }
    {
        for op in ops {
            if self.place_named(&op.family).is_none() {
                return Some(Reply::Unknown);
            }
        }
        None
    }

    /// `full` where there are no sequences left for so many operations.
    fn full(&self, count: usize) -> Option<Reply>
        requires { count ≤ BATCH_LIMIT }
        ensures full { result ≡ (if nat_lt SEQUENCE_LIMIT (self.now.last.0 + count) then Some (Reply.Full self.now.last) else None) }
        ensures built { IfSome result IsWriteRefusal }
        ensures room { result ≡ None → self.now.last.0 + count < SEQUENCE_LIMIT + 1 }
    {
        let last = self.last;
        if last.0 + count as u64 > SEQUENCE_LIMIT {
            Some(Reply::Full { last })
        } else {
            None
        }
    }

    /// Adds the version of each operation, up to the first that is refused.
    fn add_each(&mut self, ops: &[NamedOp]) -> Result<Option<Reply>, NoMemory>
        requires { length ops.now ≤ BATCH_LIMIT }
        ensures refusal { IfOk result (λ found. found ≡ refusal_of_ops self.old self.old.versions self.old.last.0 1 ops.now) }
        ensures ok { IfOk result (λ found. IsAdded self.old ops.now found self.new) }
        ensures err { OnErr result (Grows self.old self.new) }
        ensures built { IfOk result (λ found. IfSome found IsWriteRefusal) }
    {
        let last = self.last.0;
        for (i, op) in ops.iter().enumerate() {
            let number = i as u32 + 1;
            if let Some(refusal) = self.add_op(op, number, last + u64::from(number))? {
                return Ok(Some(refusal));
            }
        }
        Ok(None)
    }

    /// Adds the version of the operation `number` under a sequence, or finds why it is refused.
    fn add_op(
        &mut self,
        op: &NamedOp,
        number: u32,
        sequence: u64,
    ) -> Result<Option<Reply>, NoMemory>
        ensures refusal { IfOk result (λ found. found ≡ refusal_of_op self.old.versions number (place_of self.old op.now.family) op.now) }
        ensures ok { IfOk result (λ found. self.new ≡ after_op self.old op.now sequence found) }
        ensures err { OnErr result (self.new ≡ self.old) }
        ensures built { IfOk result (λ found. IfSome found IsWriteRefusal) }
    {
        let Some(Place { family, floor }) = self.place_named(&op.family) else {
            return Ok(Some(Reply::Unknown));
        };
        if op.ts.0 < floor.0 {
            return Ok(Some(Reply::Below { op: number, floor }));
        }
        if let Some(newest) = self.versions.newest_above(family, op.key.bytes(), op.ts) {
            return Ok(Some(Reply::Fell { op: number, newest }));
        }
        self.versions.push(Version {
            family,
            key: op.key.copy()?,
            ts: op.ts,
            seq: Seq(sequence),
            op: op.op.copy()?,
        })?;
        Ok(None)
    }

    /// The value of a key at a timestamp, among all versions.
    pub(super) fn get(&self, family: &Name, key: &Key, t: Ts) -> Result<Reply, NoMemory>
        ensures reply { IfOk result (λ reply. reply ≡ got self.now (place_of self.now family.now) key.now t self.now.last) }
        ensures built { IfOk result IsBuiltReply }
    {
        let last = self.last;
        let Some(place) = self.place_named(family) else {
            return Ok(Reply::Unknown);
        };
        let read = plain_read(
            self.versions.allocator(),
            self.versions.as_slice(),
            place.floor,
            place.family,
            key.bytes(),
            t,
            last,
        )?;
        Ok(reply_of_read(read))
    }
}
