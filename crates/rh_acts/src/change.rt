//! What an act makes of the values of a front.

ghost use Rattle.std.specs.Prelude.{◌≡◌, ◌<◌, length, slice_index};
ghost use Rattle.rh_acts.specs.Change.{IsWithin, changed};

use rh_edit::{value_with, value_without};

/// What becomes of the values of a front, from the key's home on.
#[derive(Clone, Copy)]
pub(crate) enum Change {
    /// This value is put in at this offset.
    PutsIn { value: u64, at: usize },
    /// What stands at this offset is taken out.
    TakesOut { at: usize },
    Stays,
}

impl Change {
    /// The new value at this offset.
    #[inline(always)]
    pub(crate) fn value_at(self, olds: &[u64], offset: usize) -> u64
        requires within { IsWithin self olds.now }
        requires offset { offset < length olds.now }
        ensures { result ≡ slice_index (changed self olds.now) offset }
    {
        match self {
            Change::PutsIn { value, at } => value_with(value, olds, at, offset),
            Change::TakesOut { at } => value_without(olds, at, offset),
            Change::Stays => olds[offset],
        }
    }
}
