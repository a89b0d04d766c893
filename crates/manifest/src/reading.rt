//! Reads the body of a head.
ghost use Rattle.std.specs.Prelude.{◌≡◌, ◌++◌, ◌∷◌, [], ℕ, List, IfOk, IfSome, IfNone, MatchOption};
ghost use Rattle.udt_model.specs.declared.line.FamilyHead.{FamilyHead as FamilyOf};
ghost use Rattle.ts_key.specs.declared.version.Form.{Form as FormOf};
ghost use Rattle.manifest.specs.Heads.{IsHead, form_code};
ghost use Rattle.manifest.specs.Reading.{StartsWithName, StartsWithFamily, AreSpelled};

use crate::NoMemory;
use crate::head::{HEAD, PERSIST, STRIP, VERSION, names_differ};
use byteorder::{ByteOrder, LittleEndian};
use std::alloc::{AllocError, Global};
use ts_key::{FAMILY_LIMIT, Form, Name, NameFault, STAMP_SIZE, Ts};
use udt_model::FamilyHead;

/// The families of a body, or None where it is no head.
pub(crate) fn read_head(alloc: Global, body: &[u8]) -> Result<Option<Vec<FamilyHead>>, NoMemory>
    ensures { IfOk result (λ o. MatchOption o ((families : List FamilyOf) → IsHead body.now families → ⊥) (λ v. IsHead body.now v.items)) }
{
    if body.len() < 6 || body[0] != HEAD || body[1] != VERSION {
        return Ok(None);
    }
    let count = LittleEndian::read_u32(&body[2..]) as usize;
    if count == 0 || count > FAMILY_LIMIT {
        return Ok(None);
    }
    let Some(families) = read_families(alloc, &body[6..], count)? else {
        return Ok(None);
    };
    if names_differ(&families) {
        Ok(Some(families))
    } else {
        Ok(None)
    }
}

/// So many families, or None where the bytes aren't those of so many.
fn read_families(
    alloc: Global,
    bytes: &[u8],
    count: usize,
) -> Result<Option<Vec<FamilyHead>>, NoMemory>
    ensures { IfOk result (λ o. MatchOption o ((families : List FamilyOf) → AreSpelled bytes.now count families → ⊥) (λ v. AreSpelled bytes.now count v.items)) }
{
    let mut families = Vec::new(alloc);
    let mut rest = bytes;
    for _i in 0..count {
        let Some(behind) = read_family(alloc, rest, &mut families)? else {
            return Ok(None);
        };
        rest = behind;
    }
    if rest.is_empty() {
        Ok(Some(families))
    } else {
        Ok(None)
    }
}

/// Adds the family with which the bytes begin, and gives the bytes behind it; None where they begin with none.
fn read_family<'a>(
    alloc: Global,
    bytes: &'a [u8],
    families: &mut Vec<FamilyHead>,
) -> Result<Option<&'a [u8]>, NoMemory>
    ensures { IfOk result (λ o. MatchOption o
        ((f : FamilyOf) (rest : List ℕ) → StartsWithFamily bytes.now f rest → ⊥)
        (λ rest. (f : FamilyOf) × StartsWithFamily bytes.now f rest.now × (families.new.items ≡ families.old.items ++ f ∷ []))) }
{
    let Some((name, code, rest)) = split_name(bytes) else {
        return Ok(None);
    };
    let Some(form) = form_of(code) else {
        return Ok(None);
    };
    let name = match Name::of(alloc, name) {
        Ok(name) => name,
        Err(NameFault::Bad) => return Ok(None),
        Err(NameFault::NoMemory) => return Err(AllocError),
    };
    families.push(FamilyHead {
        name,
        form,
        floor: Ts(0),
    })?;
    Ok(Some(rest))
}

/// The name of a family with which the bytes begin, the byte for its form, and the bytes behind that family.
fn split_name(bytes: &[u8]) -> Option<(&[u8], u8, &[u8])>
    ensures found { IfSome result (λ r. StartsWithName bytes.now r.0.now r.1 r.2.now) }
    ensures none { IfNone result ((name : List ℕ) (code : ℕ) (rest : List ℕ) → StartsWithName bytes.now name code rest → ⊥) }
{
    let (length, rest) = bytes.split_first()?;
    let length = usize::from(*length);
    if rest.len() < length + 2 || rest[length + 1] != STAMP_SIZE {
        return None;
    }
    Some((&rest[..length], rest[length], &rest[length + 2..]))
}

/// The form that this byte stands for.
fn form_of(code: u8) -> Option<Form>
    ensures { MatchOption result ((form : FormOf) → code ≡ form_code form → ⊥) (λ form. code ≡ form_code form) }
{
    match code {
        PERSIST => Some(Form::Persist),
        STRIP => Some(Form::Strip),
        _ => None,
    }
}
