//! The sizes of the timestamps of the families of a folder.

ghost use Rattle.std.specs.Prelude.{◌≡◌, IfOk};
ghost use Rattle.wal.specs.Sizing.{AreSizes};

use crate::NoMemory;
use std::alloc::Global;
use std::marker::Model;

/// The size in bytes of the timestamps of each family of a folder, in order.
#[derive(Debug, Drop)]
pub struct Sizes {
    sizes: Vec<u8>,
}

impl Model for Sizes {
    ghost use Rattle.std.specs.Prelude.{List, ℕ};
    ghost use Rattle.wal.specs.Sizing.{AreSizes};

    ghost Value = { List ℕ };

    ghost view = { λ s. s.sizes.items };

    ghost invariant = { λ s. AreSizes s.sizes.items };
}

impl Sizes {
    /// These sizes: 1 to `FAMILY_LIMIT`, each `STAMP_SIZE`.
    pub fn of(alloc: Global, sizes: &[u8]) -> Result<Sizes, NoMemory>
        requires { AreSizes sizes.now }
        ensures { IfOk result (λ s. s ≡ sizes.now) }
    {
        Ok(Sizes {
            sizes: Vec::from_slice(alloc, sizes)?,
        })
    }

    /// The sizes, in the order of the families.
    pub(crate) fn sizes(&self) -> &[u8]
        ensures sizes { result.now ≡ self.now }
        ensures valid { AreSizes self.now }
    {
        &self.sizes
    }
}
