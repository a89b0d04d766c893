//! The format of a stored key:
//!
//!    stored  := key ts:u64 trailer:u64         in form Persist
//!             | key trailer:u64                in form Strip, where the timestamp is 0
//!    trailer := sequence * 256 + kind          the kind is 0 for a delete and 1 for a put
//!
//! Numbers are little-endian. The key is the user's and has at most 1,024 bytes, the timestamp is at most 2^64 - 2, and the
//! sequence is 1 to 2^56 - 1.

ghost use Rattle.std.specs.Prelude.{◌≡◌, ℕ, ◌≤◌, ◌++◌, OnOk, OnErr, MatchOption, length};
ghost use Rattle.ts_key.specs.Items.{item_of, kind_of};
ghost use Rattle.ts_key.specs.StoredKeys.{kind_number, tail_len, stamp, stamp_number, stored_key, IsStamp, IsSequence, IsStored, DecodesKey};
ghost use Rattle.ts_key.specs.Writing.{Extends};
ghost use Rattle.ts_key.specs.declared.version.Form.TheVariants as forms;

use crate::NoMemory;
use crate::coding::{put_bytes, put_u64};
use crate::lent::KeyRef;
use crate::limits::{KEY_LIMIT, STAMP_LIMIT};
use crate::numbers::{Seq, Ts};
use crate::version::{Form, Kind, Op, Version};
use byteorder::{ByteOrder, LittleEndian};

/// The bytes are no stored key.
#[derive(Clone, Copy, Debug, PartialEq, Eq)]
pub struct KeyBad;

/// Adds the stored key of a version in form Persist. After `NoMemory` the text is as before.
pub fn encode_key(v: &Version, out: &mut Vec<u8>) -> Result<(), NoMemory>
    requires stamp { IsStamp forms.Persist v.now.ts.0 }
    requires sequence { IsSequence v.now.seq.0 }
    ensures written { OnOk result (out.new.items ≡ out.old.items ++ stored_key forms.Persist (item_of v.now).sort_key (kind_of v.now.op)) }
    ensures extends { Extends out.old.items out.new.items }
    ensures kept { OnErr result (out.new.items ≡ out.old.items) }
    ensures stored { IsStored forms.Persist (item_of v.now).sort_key }
{
    encode_key_as(Form::Persist, v, out)
}

/// The key and the kind of the stored key in form Persist that these bytes are. `KeyBad` comes exactly where they are none.
pub fn decode_key(bytes: &[u8]) -> Result<(KeyRef<'_>, Kind), KeyBad>
    ensures { DecodesKey forms.Persist bytes.now result }
{
    decode_key_as(Form::Persist, bytes)
}

/// Adds the stored key of a version in this form. After `NoMemory` the text is as before.
pub fn encode_key_as(form: Form, v: &Version, out: &mut Vec<u8>) -> Result<(), NoMemory>
    requires stamp { IsStamp form v.now.ts.0 }
    requires sequence { IsSequence v.now.seq.0 }
    ensures written { OnOk result (out.new.items ≡ out.old.items ++ stored_key form (item_of v.now).sort_key (kind_of v.now.op)) }
    ensures extends { Extends out.old.items out.new.items }
    ensures kept { OnErr result (out.new.items ≡ out.old.items) }
    ensures stored { IsStored form (item_of v.now).sort_key }
{
    let end = out.len();
    match put_key(form, v, out) {
        Ok(()) => Ok(()),
        Err(e) => {
            out.truncate(end);
            Err(e)
        }
    }
}

/// The same, where what was added first may be left after an error.
#[tactic(auto, unfolding(crate::specs::StoredKeys::stored_key), using(crate::proofs::Writing::extends_on))]
fn put_key(form: Form, v: &Version, out: &mut Vec<u8>) -> Result<(), NoMemory>
    requires stamp { IsStamp form v.now.ts.0 }
    requires sequence { IsSequence v.now.seq.0 }
    ensures written { OnOk result (out.new.items ≡ out.old.items ++ stored_key form (item_of v.now).sort_key (kind_of v.now.op)) }
    ensures extends { Extends out.old.items out.new.items }
    ensures stored { IsStored form (item_of v.now).sort_key }
{
    let key = v.key.bytes();
    let kind = kind_byte(&v.op);
    put_bytes(out, key)?;
    put_stamp(form, out, v.ts.0)?;
    put_u64(out, v.seq.0 * 256 + kind)
}

/// The key and the kind of the stored key in this form that these bytes are. `KeyBad` comes exactly where they are none.
pub fn decode_key_as(form: Form, bytes: &[u8]) -> Result<(KeyRef<'_>, Kind), KeyBad>
    ensures { DecodesKey form bytes.now result }
{
    let tail = tail_len(form);
    if bytes.len() < tail {
        return Err(KeyBad);
    }
    let at = bytes.len() - tail;
    if at > KEY_LIMIT {
        return Err(KeyBad);
    }
    let (key, rest) = bytes.split_at(at);
    let ts = stamp_of(form, rest);
    if ts > STAMP_LIMIT {
        return Err(KeyBad);
    }
    let (_, last) = rest.split_at(tail - 8);
    let trailer = LittleEndian::read_u64(last);
    let seq = trailer / 256;
    if seq == 0 {
        return Err(KeyBad);
    }
    match kind_of_byte(trailer % 256) {
        Some(kind) => Ok((
            KeyRef {
                key,
                ts: Ts(ts),
                seq: Seq(seq),
            },
            kind,
        )),
        None => Err(KeyBad),
    }
}

/// Adds a timestamp where the form has it.
fn put_stamp(form: Form, out: &mut Vec<u8>, ts: u64) -> Result<(), NoMemory>
    ensures written { OnOk result (out.new.items ≡ out.old.items ++ stamp form ts) }
    ensures extends { Extends out.old.items out.new.items }
{
    match form {
        Form::Persist => put_u64(out, ts),
        Form::Strip => Ok(()),
    }
}

fn kind_byte(op: &Op) -> u64
    ensures { result ≡ kind_number (kind_of op.now) }
{
    match op {
        Op::Del => 0,
        Op::Put(_) => 1,
    }
}

/// How many bytes follow the user key.
fn tail_len(form: Form) -> usize
    ensures value { result ≡ tail_len form }
    ensures bound { 8 ≤ result }
{
    match form {
        Form::Persist => 16,
        Form::Strip => 8,
    }
}

/// The timestamp in the bytes that follow the user key.
fn stamp_of(form: Form, tail: &[u8]) -> u64
    requires { tail_len form ≤ length tail.now }
    ensures { result ≡ stamp_number form tail.now }
{
    match form {
        Form::Persist => LittleEndian::read_u64(tail),
        Form::Strip => 0,
    }
}

fn kind_of_byte(n: u64) -> Option<Kind>
    ensures { MatchOption result ((k : Kind) → kind_number k ≡ n → ⊥) (λ k. kind_number k ≡ n) }
{
    match n {
        0 => Some(Kind::Del),
        1 => Some(Kind::Put),
        _ => None,
    }
}
