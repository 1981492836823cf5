//! A worker, and the keys that it does.

use rh_worker::Worker;

/// Which keys of the list a worker does, by their positions.
#[derive(Clone, Copy)]
pub enum Share {
    /// Those from the first position up to the end.
    Piece { first: usize, end: usize },
    /// Those that it claims: the position that it claimed last, and whether a Claim found the end
    /// of the list.
    Claims { last: usize, ended: bool },
}

/// A worker with its share of the keys.
#[derive(Drop)]
pub struct Hand {
    pub worker: Worker,
    pub share: Share,
    /// How many of its keys are done.
    pub done: usize,
    /// How many of these were added, removed or found.
    pub changed: usize,
}

impl Share {
    ghost use Rattle.std.specs.Prelude.{◌≡◌, ◌↔◌, IsTrue};
    ghost use Rattle.rh_turns.specs.Hands.{IsAtEnd, IsDoneWithin, position_of};

    /// The position of the key that comes after those that are done.
    pub(crate) fn position(self, done: usize) -> usize
        requires { IsDoneWithin self done }
        ensures { result ≡ position_of self done }
    {
        match self {
            Share::Piece { first, .. } => first + done,
            Share::Claims { last, .. } => last,
        }
    }

    /// Whether no key comes after those that are done.
    pub(crate) fn is_at_end(self, done: usize) -> bool
        requires { IsDoneWithin self done }
        ensures { IsTrue result ↔ IsAtEnd self done }
    {
        match self {
            Share::Piece { first, end } => first + done == end,
            Share::Claims { ended, .. } => ended,
        }
    }
}

impl Hand {
    ghost use Rattle.std.specs.Prelude.{◌↔◌, IsTrue};
    ghost use Rattle.rh_turns.specs.Hands.{IsFinished, IsDoneWithin};

    /// Whether all its keys are done.
    pub fn is_finished(&self) -> bool
        requires { IsDoneWithin self.now.share self.now.done }
        ensures { IsTrue result ↔ IsFinished self.now }
    {
        self.worker.is_idle() && self.share.is_at_end(self.done)
    }
}
