//! A log of frames over a file, which a crash leaves whole. A frame counts once its gate is open, and the gate is opened by a
//! write of its own, after what stands behind it was synced. So after a crash at any moment the log has the frames that it had,
//! with the one that was being added or without it.
#![tactic(auto)]

mod fault;
mod frame;
mod image;
mod log;

pub use fault::{FramesFault, LogFault};
pub use frame::{FRAME_LIMIT, Frame};
pub use log::GateLog;

/// Memory ran out.
pub type NoMemory = std::alloc::AllocError;
