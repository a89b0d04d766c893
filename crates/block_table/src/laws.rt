//! A law of tables.

ghost use Rattle.block_table.specs.Laws.{TablesAreUnique};

/// What a table holds is known by its bytes.
pub fn tables_are_unique()
    ensures { TablesAreUnique }
{}
