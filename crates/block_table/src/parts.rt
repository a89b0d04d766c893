//! The parts of a table, which its footer tells apart.

ghost use Rattle.std.specs.Prelude.{◌≡◌, ◌<◌, ◌^◌, ◌↔◌, length, IsTrue, IfSome, MatchOption};
ghost use Rattle.block_table.specs.Tables.{magic, form_number, properties};
ghost use Rattle.ts_key.specs.declared.version.Form.{Form as FormOf};
ghost use Rattle.block_table.specs.Parts.{ReadsParts, FitsHead, FitsFound, IsFoundHead};
ghost use Rattle.block_table.specs.declared.properties.Properties.{Properties as PropertiesOf};

use ts_key::coding::{u32_of, u64_of};
use ts_key::{Family, Form, Ts};

/// How many bytes the footer has.
const FOOTER_LEN: usize = 24;

/// The parts before the footer.
#[derive(Clone, Copy, Debug)]
pub(crate) struct Parts<'a> {
    pub(crate) blocks: &'a [u8],
    pub(crate) index: &'a [u8],
    pub(crate) properties: &'a [u8],
}

/// What the properties say that doesn't follow from the versions.
#[derive(Clone, Copy, Debug)]
pub(crate) struct Head {
    pub(crate) family: Family,
    pub(crate) form: Form,
    pub(crate) collected_by: Ts,
}

fn is_magic(bytes: &[u8]) -> bool
    ensures { IsTrue result ↔ (bytes.now ≡ magic) }
{
    bytes == b"udttab01".as_slice()
}

/// The parts of an image, where it has them.
pub(crate) fn parts_of(image: &[u8]) -> Option<Parts<'_>>
    ensures parts { ReadsParts image.now result }
    ensures bound { length image.now < 2 ^ 64 }
{
    if image.len() < FOOTER_LEN {
        return None;
    }
    let (front, footer) = image.split_at(image.len() - FOOTER_LEN);
    let (first, rest) = footer.split_at(8);
    let (second, last) = rest.split_at(8);
    let index_at = u64_of(first);
    let properties_at = u64_of(second);
    if !is_magic(last) {
        return None;
    }
    if index_at > properties_at {
        return None;
    }
    let front_len = front.len() as u64;
    if properties_at > front_len {
        return None;
    }
    let (before, properties) = front.split_at(properties_at as usize);
    let (blocks, index) = before.split_at(index_at as usize);
    Some(Parts {
        blocks,
        index,
        properties,
    })
}

fn form_of(byte: u8) -> Option<Form>
    ensures { MatchOption result ((form : FormOf) → form_number form ≡ byte → ⊥) (λ form. form_number form ≡ byte) }
{
    match byte {
        0 => Some(Form::Persist),
        1 => Some(Form::Strip),
        _ => None,
    }
}

/// What properties that are spelled so say of the family, the form and the floor.
pub(crate) fn head_of(bytes: &[u8]) -> Option<Head>
    ensures head { (p : PropertiesOf) → FitsHead p → bytes.now ≡ properties p → IsFoundHead p result }
    ensures fits { IfSome result FitsFound }
{
    if bytes.len() < 13 {
        return None;
    }
    let (first, rest) = bytes.split_at(4);
    let (_, last) = bytes.split_at(bytes.len() - 8);
    let Some(form) = form_of(rest[0]) else {
        return None;
    };
    let family = u32_of(first);
    let collected_by = u64_of(last);
    Some(Head {
        family: Family(family),
        form,
        collected_by: Ts(collected_by),
    })
}
