//! What bytes say as a table.

ghost use Rattle.std.specs.Prelude.{ℕ, List};
ghost use Rattle.engine_laws.specs.Standing.{TableSays};

/// A grammar of tables: the laws of an engine hold for each. It has no calls.
pub trait TableGrammar {
    /// These bytes are a table that says this.
    ghost spells: { List ℕ → TableSays → Type 0 };
}
