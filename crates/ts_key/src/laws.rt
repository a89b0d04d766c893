//! Laws of the definitions.
ghost use Rattle.ts_key.specs.Laws.{OneSpelling};

/// Two stored keys with the same bytes are the same.
pub fn one_spelling()
    ensures { OneSpelling }
{}
