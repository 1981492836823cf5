//! What a worker goes about: a descriptor, its own or another's, and how far it has come there.

ghost use Rattle.std.specs.Prelude.{◌≡◌, ◌<◌, ◌+◌, None};

use rh_layout::Entry;
use rh_tagword::State;
use rh_words::{Piece, Ref};

/// The own descriptor that is open. What it is to change is the worker's own copy: on a table that
/// workers share each look at a row is a load.
#[derive(Clone, Copy)]
pub struct OpenDesc<'a> {
    pub number: u64,
    pub entries: &'a [Entry],
}

/// A cell where an own mark stood: its descriptor may stand there by the worker's doing.
#[derive(Clone, Copy)]
pub struct Owed {
    pub piece: Piece,
    /// The entry's old value.
    pub old: u64,
}

/// A descriptor that a worker goes about, and how far it has come.
#[derive(Clone, Copy)]
pub struct Task {
    pub desc: Ref,
    /// The number of its entries.
    pub size: usize,
    /// Undecided while its entries are to be installed, else how it was decided, and then its
    /// entries are to be released.
    pub state: State,
    /// The entries before this one are installed, or released.
    pub entry: usize,
    /// The cell of one of its entries that the worker still owes. It is paid by the Release there.
    pub owed: Option<Owed>,
    /// At which entry it failed, where it is the own open descriptor: its decider tells its owner
    /// alone.
    pub reason: Option<u64>,
}

impl Task {
    /// A descriptor that stands so, at its first entry, where no cell is owed.
    #[inline(always)]
    pub(crate) fn new(desc: Ref, size: usize, state: State) -> Task
        ensures { result ≡ record {
          desc = desc;
          size = size;
          state = state;
          entry = 0;
          owed = None;
          reason = None;
        } }
    {
        Task {
            desc,
            size,
            state,
            entry: 0,
            owed: None,
            reason: None,
        }
    }

    /// The same descriptor, decided so: its entries are to be released from the first one on.
    #[inline(always)]
    pub(crate) fn as_decided(self, state: State, owed: Option<Owed>) -> Task
        ensures { result ≡ record {
          desc = self.desc;
          size = self.size;
          state = state;
          entry = 0;
          owed = owed;
          reason = None;
        } }
    {
        Task {
            state,
            entry: 0,
            owed,
            reason: None,
            ..self
        }
    }

    /// The same descriptor, at the entry after this one.
    #[inline(always)]
    pub(crate) fn after(self) -> Task
        requires { self.entry < self.size }
        ensures { result ≡ record {
          desc = self.desc;
          size = self.size;
          state = self.state;
          entry = self.entry + 1;
          owed = self.owed;
          reason = self.reason;
        } }
    {
        Task {
            entry: self.entry + 1,
            ..self
        }
    }
}
