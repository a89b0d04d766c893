//! The format of a table:
//!
//!    table      := block+ index properties footer
//!    index      := count:u32 handle*                              as many handles as the count says, one for each block
//!    handle     := offset:u64 length:u64 versions:u32             where the block begins, its bytes and its versions
//!    properties := family:u32 form:u8 count:u64 least greatest
//!                  least_seq:u64 greatest_seq:u64 greatest_ts:u64 collected_by:u64
//!    least      := length:u16 key                                 the key of the first version
//!    greatest   := length:u16 key                                 the key of the last version
//!    footer     := index:u64 properties:u64 `udttab01`            where these two begin
//!
//! Numbers are little-endian. The form is 0 for Persist and 1 for Strip. The versions stand in the stored order over all blocks,
//! no two at one place. A block ends with the first entry that brings its entries to 4,096 bytes or more; only the last block
//! may be smaller. The properties but for the family and `collected_by` are those of the versions.

ghost use Rattle.std.specs.Prelude.{◌≡◌, ◌<◌, ◌≤◌, ◌+◌, ◌^◌, ◌++◌, [], ◌∷◌, length, OnOk};
ghost use Rattle.std.specs.List.{flat_map};
ghost use Rattle.ts_key.specs.Writing.{Extends};
ghost use Rattle.block_table.specs.Tables.{handle_bytes, index, key_bytes, properties_head, properties_range, properties_numbers, properties_front, properties, footer, form_number};

use crate::NoMemory;
use crate::handle::BlockHandle;
use crate::properties::Properties;
use ts_key::coding::{put_bytes, put_u8, put_u16, put_u32, put_u64};
use ts_key::{Form, Key};

/// The last bytes of a table.
pub(crate) const MAGIC: &[u8; 8] = b"udttab01";

#[tactic(auto, using(ts_key::proofs::Writing::extends_on, std::proofs::lemmas::List::append_assoc))]
fn put_handle(out: &mut Vec<u8>, h: &BlockHandle) -> Result<(), NoMemory>
    ensures written { OnOk result (out.new.items ≡ out.old.items ++ handle_bytes h.now) }
    ensures extends { Extends out.old.items out.new.items }
{
    put_u64(out, h.offset)?;
    put_u64(out, h.length)?;
    put_u32(out, h.versions)
}

#[tactic(auto, using(ts_key::proofs::Writing::extends_on, std::proofs::lemmas::List::append_assoc))]
fn put_handles(out: &mut Vec<u8>, hs: &[BlockHandle]) -> Result<(), NoMemory>
    ensures written { OnOk result (out.new.items ≡ out.old.items ++ flat_map handle_bytes hs.now) }
    ensures extends { Extends out.old.items out.new.items }
{
    for h in hs {
        put_handle(out, h)?;
    }
    Ok(())
}

/// Adds the index.
#[tactic(auto, unfolding(crate::specs::Tables::index), using(ts_key::proofs::Writing::extends_on, std::proofs::lemmas::List::append_assoc))]
pub(crate) fn put_index(out: &mut Vec<u8>, hs: &[BlockHandle]) -> Result<(), NoMemory>
    requires { length hs.now < 2 ^ 32 }
    ensures written { OnOk result (out.new.items ≡ out.old.items ++ index hs.now) }
    ensures extends { Extends out.old.items out.new.items }
{
    put_u32(out, hs.len() as u32)?;
    put_handles(out, hs)
}

fn form_byte(form: Form) -> u8
    ensures { result ≡ form_number form }
{
    match form {
        Form::Persist => 0,
        Form::Strip => 1,
    }
}

#[tactic(auto, using(ts_key::proofs::Writing::extends_on, std::proofs::lemmas::List::append_assoc))]
fn put_key(out: &mut Vec<u8>, key: &Key) -> Result<(), NoMemory>
    ensures written { OnOk result (out.new.items ≡ out.old.items ++ key_bytes key.now) }
    ensures extends { Extends out.old.items out.new.items }
{
    let bytes = key.bytes();
    put_u16(out, bytes.len() as u16)?;
    put_bytes(out, bytes)
}

#[tactic(auto, using(ts_key::proofs::Writing::extends_on, std::proofs::lemmas::List::append_assoc))]
fn put_properties_head(out: &mut Vec<u8>, p: &Properties) -> Result<(), NoMemory>
    ensures written { OnOk result (out.new.items ≡ out.old.items ++ properties_head p.now) }
    ensures extends { Extends out.old.items out.new.items }
{
    put_u32(out, p.family.0)?;
    put_u8(out, form_byte(p.form))?;
    put_u64(out, p.count)
}

#[tactic(auto, using(ts_key::proofs::Writing::extends_on, std::proofs::lemmas::List::append_assoc))]
fn put_properties_range(out: &mut Vec<u8>, p: &Properties) -> Result<(), NoMemory>
    ensures written { OnOk result (out.new.items ≡ out.old.items ++ properties_range p.now) }
    ensures extends { Extends out.old.items out.new.items }
{
    put_key(out, &p.least)?;
    put_key(out, &p.greatest)
}

#[tactic(auto, using(ts_key::proofs::Writing::extends_on, std::proofs::lemmas::List::append_assoc))]
fn put_properties_numbers(out: &mut Vec<u8>, p: &Properties) -> Result<(), NoMemory>
    ensures written { OnOk result (out.new.items ≡ out.old.items ++ properties_numbers p.now) }
    ensures extends { Extends out.old.items out.new.items }
{
    put_u64(out, p.least_seq.0)?;
    put_u64(out, p.greatest_seq.0)?;
    put_u64(out, p.greatest_ts.0)
}

#[tactic(auto, unfolding(crate::specs::Tables::properties_front), using(ts_key::proofs::Writing::extends_on, std::proofs::lemmas::List::append_assoc))]
fn put_properties_front(out: &mut Vec<u8>, p: &Properties) -> Result<(), NoMemory>
    ensures written { OnOk result (out.new.items ≡ out.old.items ++ properties_front p.now) }
    ensures extends { Extends out.old.items out.new.items }
{
    put_properties_head(out, p)?;
    put_properties_range(out, p)?;
    put_properties_numbers(out, p)
}

/// Adds the properties.
#[tactic(auto, using(ts_key::proofs::Writing::extends_on, std::proofs::lemmas::List::append_assoc))]
pub(crate) fn put_properties(out: &mut Vec<u8>, p: &Properties) -> Result<(), NoMemory>
    ensures written { OnOk result (out.new.items ≡ out.old.items ++ properties p.now) }
    ensures extends { Extends out.old.items out.new.items }
{
    put_properties_front(out, p)?;
    put_u64(out, p.collected_by.0)
}

/// Adds the footer.
#[tactic(auto, using(ts_key::proofs::Writing::extends_on, std::proofs::lemmas::List::append_assoc))]
pub(crate) fn put_footer(
    out: &mut Vec<u8>,
    index_at: u64,
    properties_at: u64,
) -> Result<(), NoMemory>
    ensures written { OnOk result (out.new.items ≡ out.old.items ++ footer index_at properties_at) }
    ensures extends { Extends out.old.items out.new.items }
{
    put_u64(out, index_at)?;
    put_u64(out, properties_at)?;
    put_bytes(out, MAGIC)
}
