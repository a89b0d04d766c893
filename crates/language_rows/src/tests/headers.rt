//! Headers of transcripts as they are printed, and the room that they take.

use client_lang::print_header;
use std::alloc::Global;
use std::test::Fail;
use ts_key::{Form, Name, Ts};
use udt_model::FamilyHead;

/// A family with this history floor.
fn head_of(alloc: Global, name: &[u8], form: Form, floor: u64) -> Result<FamilyHead, Fail> {
    Ok(FamilyHead {
        name: Name::of(alloc, name)?,
        form,
        floor: Ts(floor),
    })
}

#[test]
fn headers(rt: HostRuntime) -> Result<(), Fail> {
    let first = head_of(rt.alloc(), b"d", Form::Persist, 0)?;
    let second = head_of(rt.alloc(), b"notes_2", Form::Strip, 40)?;
    let text = b"udt 1\nopened 17\nfamily d persist 0\nfamily notes_2 strip 40\nbegin\n";
    let mut out = Vec::with_capacity(rt.alloc(), text.len())?;
    let room = out.capacity();
    print_header(17, &[first, second], &mut out)?;
    assert_eq!(rt; out.as_slice(), text.as_slice());
    assert_eq!(rt; out.capacity(), room);
    Ok(())
}
