//! The format of a gate log:
//!
//!    log   := frame* gate rest     where the gate isn't 0xA5, and the rest is anything
//!    frame := 0xA5 length body     where the length is that of the body, as u32
//!
//! Numbers are little-endian. A body has 1 to 8,388,608 bytes. The byte behind a frame is the gate of the next one, so a log has
//! at least one byte. The program writes 0x5A for a gate that isn't open.

ghost use Rattle.std.specs.Prelude.{◌≡◌, ◌+◌, ◌≤◌, length, vec_capacity};
ghost use Rattle.gate_log.specs.Frames.{staged};

use std::marker::Model;

/// The most bytes that the body of a frame has.
pub const FRAME_LIMIT: usize = 8_388_608;

/// The gate of a frame that counts.
pub(crate) const OPEN: u8 = 0xA5;

/// The gate behind the last frame, as the program writes it.
pub(crate) const CLOSED: u8 = 0x5A;

/// A frame that was read: the offset of its gate in the file, and its body.
#[derive(Debug, Drop)]
pub struct Frame {
    pub at: u64,
    pub bytes: Vec<u8>,
}

impl Model for Frame {
    ghost use Rattle.gate_log.specs.Placed.{Placed};

    ghost Value = { Placed };

    ghost view = { λ f. record { at = f.at; bytes = f.bytes.items } };
}

/// Lays out what stands behind the gate of a frame: its length, its body, and the next gate, closed. The room is there.
pub(crate) fn lay_out(room: &mut Vec<u8>, body: &[u8])
    requires size { length body.now ≤ FRAME_LIMIT }
    requires room { length body.now + 5 ≤ vec_capacity room.old }
    ensures laid { room.new.items ≡ staged body.now }
    ensures kept { vec_capacity room.old ≤ vec_capacity room.new }
{
    room.clear();
    let Ok(()) = room.extend_from_slice(&(body.len() as u32).to_le_bytes()) else {
        unreachable!()
    };
    let Ok(()) = room.extend_from_slice(body) else {
        unreachable!()
    };
    let Ok(()) = room.extend_from_slice(&[CLOSED]) else {
        unreachable!()
    };
}
