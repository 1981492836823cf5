//! What one worker of a phase has done of its list.

use crate::buffer::Buffer;
use rh_ledger::Kind;

/// A worker of a phase, with what came of its keys. What is kept of it at the table is at its seat.
#[derive(Drop)]
pub(crate) struct Hand {
    /// What it does with each key.
    pub kind: Kind,
    pub buffer: Buffer,
    /// The position in the list of the key that it claimed last.
    pub position: usize,
    /// Whether this key is still to be done: it is begun, or left for another round.
    pub has_key: bool,
    /// Whether it found the end of the list.
    pub ended: bool,
    /// How many keys it has done, up to the greatest number.
    pub done: usize,
    /// How many of these were added, removed or found, up to the greatest number.
    pub changed: u64,
    /// Which positions have a key that was found. It is empty where no one asks for them.
    /// Each worker has its own, and they are joined at the end: no two threads write one list.
    pub found: Vec<bool>,
}

impl Hand {
    ghost use Rattle.std.specs.Prelude.{◌↔◌, IsTrue, ◌≡◌, ◌+◌, ◌-◌, ◌^◌, false, true, min, cond, set};
    ghost use Rattle.rh_threads.specs.Hands.{IsFinished};

    /// Whether all keys that it claimed are done, and none is left to claim.
    pub(crate) fn is_finished(&self) -> bool
        ensures { IsTrue result ↔ IsFinished self.now }
    {
        !self.has_key && self.ended
    }

    /// Counts its key as done.
    pub(crate) fn count(&mut self, answer: bool)
        ensures kind { self.new.kind ≡ self.old.kind }
        ensures buffer { self.new.buffer ≡ self.old.buffer }
        ensures no_key { self.new.has_key ≡ false }
        ensures ended { self.new.ended ≡ self.old.ended }
        ensures done { self.new.done ≡ min (self.old.done + 1) (2 ^ 64 - 1) }
        ensures changed { self.new.changed ≡
            cond answer (min (self.old.changed + 1) (2 ^ 64 - 1)) self.old.changed }
        ensures found { self.new.found.items ≡
            cond answer (set self.old.found.items self.old.position true) self.old.found.items }
    {
        self.has_key = false;
        self.done = self.done.saturating_add(1);
        if answer {
            self.changed = self.changed.saturating_add(1);
            if let Some(found) = self.found.get_mut(self.position) {
                *found = true;
            }
        }
    }
}
