//! Why a part of an edit is not read.

use std::alloc::AllocError;
use ts_key::coding::Truncated;

/// Why a part of an edit wasn't read.
#[derive(Clone, Copy, Debug, PartialEq, Eq)]
pub(crate) enum EditFault {
    /// The bytes don't begin with one.
    Bad,
    /// Memory ran out.
    NoMemory,
}

impl From<AllocError> for EditFault {
    ghost use Rattle.std.specs.Prelude.{◌≡◌};
    ghost use Rattle.manifest_edit.specs.declared.fault.EditFault.{EditFault};

    ghost from_gives = { λ _ fault. fault ≡ EditFault.NoMemory };

    fn from(_: AllocError) -> EditFault {
        EditFault::NoMemory
    }
}

impl From<Truncated> for EditFault {
    ghost use Rattle.std.specs.Prelude.{◌≡◌};
    ghost use Rattle.manifest_edit.specs.declared.fault.EditFault.{EditFault};

    ghost from_gives = { λ _ fault. fault ≡ EditFault.Bad };

    fn from(_: Truncated) -> EditFault {
        EditFault::Bad
    }
}
