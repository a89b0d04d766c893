//! When a seek past the versions of a key is shorter than steps.

/// So many versions of one key are passed one by one before a seek past its others.
const STEPS: u32 = 8;

/// How many versions of a key were passed last, one after the other.
#[derive(Clone, Copy)]
pub(crate) struct Passed<'a> {
    key: Option<&'a [u8]>,
    count: u32,
}

impl<'a> Passed<'a> {
    pub(crate) fn none() -> Passed<'a> {
        Passed {
            key: None,
            count: 0,
        }
    }

    /// With a version of the key more.
    pub(crate) fn with(self, key: &'a [u8]) -> Passed<'a> {
        let count = match self.key {
            Some(last) if last == key => self.count.saturating_add(1),
            _ => 1,
        };
        Passed {
            key: Some(key),
            count,
        }
    }

    /// Whether a seek past the others of the key is worth its while.
    pub(crate) fn are_many(self) -> bool {
        self.count > STEPS
    }
}
