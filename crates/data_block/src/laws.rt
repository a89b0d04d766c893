//! Laws of the grammar of a block, and of blocks one after the other.

ghost use Rattle.data_block.specs.Faults.{FaultsAreRight, FaultsAreSingle, BlocksAreUnique};
ghost use Rattle.data_block.specs.Gathered.{ComingAfterSorts};

/// Bytes that leave the grammar somewhere spell no list of versions.
pub fn faults_are_right()
    ensures { FaultsAreRight }
{}

/// Bytes leave the grammar at one place.
pub fn faults_are_single()
    ensures { FaultsAreSingle }
{}

/// A list of versions is known by the bytes of its block.
pub fn blocks_are_unique()
    ensures { BlocksAreUnique }
{}

/// Versions in the stored order that come after others in it go on with them: what `Gathering::finish` asks follows
/// block by block.
pub fn coming_after_sorts()
    ensures { ComingAfterSorts }
{}
