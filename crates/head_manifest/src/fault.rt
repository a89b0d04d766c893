//! Why a manifest is not read.

use std::alloc::AllocError;
use thiserror::Error;
use udt_disk::Failed;

/// Why a manifest wasn't read.
#[derive(Clone, Copy, Debug, PartialEq, Eq, Error)]
pub enum ManifestFault {
    /// At this offset of the chosen manifest stands its first frame that isn't in the grammar; 0 where there is no frame.
    #[error("the manifest is bad at {at}")]
    BadManifest { at: u64 },
    /// The disk or a file failed. The disk's count of faults rose in the call.
    #[error("the disk failed")]
    DiskFault,
    /// Memory ran out.
    #[error("memory ran out")]
    NoMemory,
}

impl From<AllocError> for ManifestFault {
    ghost use Rattle.std.specs.Prelude.{◌≡◌};
    ghost use Rattle.head_manifest.specs.declared.fault.ManifestFault.{ManifestFault};

    ghost from_gives = { λ _ fault. fault ≡ ManifestFault.NoMemory };

    fn from(_: AllocError) -> ManifestFault {
        ManifestFault::NoMemory
    }
}

impl From<Failed> for ManifestFault {
    ghost use Rattle.std.specs.Prelude.{◌≡◌};
    ghost use Rattle.head_manifest.specs.declared.fault.ManifestFault.{ManifestFault};

    ghost from_gives = { λ _ fault. fault ≡ ManifestFault.DiskFault };

    fn from(_: Failed) -> ManifestFault {
        ManifestFault::DiskFault
    }
}
