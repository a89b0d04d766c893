//! Why the edits of a log are not folded.

use std::alloc::AllocError;

/// Why the edits of a log weren't folded.
#[derive(Clone, Copy, Debug, PartialEq, Eq)]
pub enum EditsFault {
    /// At this offset stands the first frame that is no edit, or none that the fold of those before it accepts.
    BadEdit { at: u64 },
    /// Memory ran out.
    NoMemory,
}

impl From<AllocError> for EditsFault {
    ghost use Rattle.std.specs.Prelude.{◌≡◌};
    ghost use Rattle.edit_log.specs.declared.fault.EditsFault.{EditsFault};

    ghost from_gives = { λ _ fault. fault ≡ EditsFault.NoMemory };

    fn from(_: AllocError) -> EditsFault {
        EditsFault::NoMemory
    }
}
