//! Why a table isn't read, or not written.

use std::alloc::AllocError;
use udt_disk::Failed;

/// Why a table wasn't read.
#[derive(Clone, Copy, Debug, PartialEq, Eq)]
pub enum TableFault {
    /// The image is outside the grammar.
    Bad,
    /// Memory ran out.
    NoMemory,
}

/// Why a table wasn't written.
#[derive(Clone, Copy, Debug, PartialEq, Eq)]
pub enum TableWriteFault {
    /// The file failed. Its count of faults rose in the call.
    DiskFault,
    /// Memory ran out, before any call of the file.
    NoMemory,
}

impl From<AllocError> for TableFault {
    ghost use Rattle.std.specs.Prelude.{◌≡◌};
    ghost use Rattle.block_table.specs.declared.fault.TableFault.{TableFault};

    ghost from_gives = { λ _ fault. fault ≡ TableFault.NoMemory };

    fn from(_: AllocError) -> TableFault {
        TableFault::NoMemory
    }
}

impl From<AllocError> for TableWriteFault {
    ghost use Rattle.std.specs.Prelude.{◌≡◌};
    ghost use Rattle.block_table.specs.declared.fault.TableWriteFault.{TableWriteFault};

    ghost from_gives = { λ _ fault. fault ≡ TableWriteFault.NoMemory };

    fn from(_: AllocError) -> TableWriteFault {
        TableWriteFault::NoMemory
    }
}

impl From<Failed> for TableWriteFault {
    ghost use Rattle.std.specs.Prelude.{◌≡◌};
    ghost use Rattle.block_table.specs.declared.fault.TableWriteFault.{TableWriteFault};

    ghost from_gives = { λ _ fault. fault ≡ TableWriteFault.DiskFault };

    fn from(_: Failed) -> TableWriteFault {
        TableWriteFault::DiskFault
    }
}
