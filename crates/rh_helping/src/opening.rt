//! Opening an own descriptor: its row is written word by word, and then its control is swapped
//! from that of the last descriptor.

ghost use Rattle.std.specs.Prelude.{◌≡◌, ◌<◌, length};
ghost use Rattle.rh_words.specs.Requests.{step_asked};
ghost use Rattle.rh_helping.specs.Made.{HasStepped};
ghost use Rattle.rh_helping.specs.Opening.{IsOpening, MayOpen, OpensOn, after_opening, kind_of_opening, opened_after, opening_step};
ghost use Rattle.rh_carrier.specs.Relies.{Relies};

use rh_carrier::Steps;
use rh_layout::Entry;
use rh_words::{Part, Request, Shape, Side, StepKind};

/// The next step with an own descriptor that is to be opened.
/// A machine of its own, as the look at a cell is: workers of keys and swaps of cells both use it.
#[derive(Clone, Copy)]
pub enum Opening {
    /// Write of its serial number into the own row, before all else that is written there.
    Serial,
    /// Write of the number of its entries.
    Length,
    /// Write of the cell of this entry.
    Cell(usize),
    /// Write of its old value.
    Old(usize),
    /// Write of its new value.
    New(usize),
    Open,
}

impl Opening {
    #[inline(always)]
    pub fn kind(&self) -> StepKind
        ensures { result ≡ kind_of_opening self.now }
    {
        match self {
            Opening::Open => StepKind::Open,
            _ => StepKind::Write,
        }
    }

    /// Makes the step for a descriptor of these entries, and answers the next one, or none where it
    /// was opened: it has the number that is counted before the first of the steps.
    #[inline(always)]
    pub fn step<T: Steps>(
        self,
        shape: &Shape,
        table: &mut T,
        side: &mut Side,
        entries: &[Entry],
    ) -> Option<Opening>
        requires relies { Relies T.shows T.serves shape.now table.old side.old.known.view }
        requires may { MayOpen shape.now side.old.known.view entries.now }
        requires opening { IsOpening side.old.known.view entries.now self }
        ensures made { HasStepped T.shows T.made shape.now (kind_of_opening self)
            (opened_after side.old.known.view entries.now result) side.old.known.view.side.reads
            table.old side.old.known.view table.new side.new.known.view }
        ensures leads { OpensOn shape.now entries.now side.old.known.view side.new.known.view
            result }
        ensures next { result ≡ after_opening (length entries.now) self }
    {
        let request = self.request(shape, side, entries);
        table.make(shape, side, request);
        self.next(entries)
    }

    #[inline(always)]
    fn request(self, shape: &Shape, side: &Side, entries: &[Entry]) -> Request
        requires may { MayOpen shape.now side.now.known.view entries.now }
        requires opening { IsOpening side.now.known.view entries.now self }
        ensures { step_asked result ≡ opening_step side.now.known.view entries.now self }
    {
        let worker = side.worker;
        match self {
            Opening::Serial => Request::Write {
                part: Part::Serial { worker },
                word: side.next_number,
            },
            Opening::Length => Request::Write {
                part: Part::Length { worker },
                word: entries.len() as u64,
            },
            Opening::Cell(at) => Request::Write {
                part: Part::EntryCell { worker, entry: at },
                word: entries[at].cell as u64,
            },
            Opening::Old(at) => Request::Write {
                part: Part::EntryOld { worker, entry: at },
                word: entries[at].old,
            },
            Opening::New(at) => Request::Write {
                part: Part::EntryNew { worker, entry: at },
                word: entries[at].new,
            },
            Opening::Open => Request::Open {
                entries: entries.len(),
            },
        }
    }

    /// The next step. All words of an entry are written before the next one.
    #[inline(always)]
    fn next(self, entries: &[Entry]) -> Option<Opening>
        ensures { result ≡ after_opening (length entries.now) self }
    {
        match self {
            Opening::Serial => Some(Opening::Length),
            Opening::Length => Some(Opening::Cell(0)),
            Opening::Cell(at) => Some(Opening::Old(at)),
            Opening::Old(at) => Some(Opening::New(at)),
            Opening::New(at) if at < entries.len().saturating_sub(1) => Some(Opening::Cell(at + 1)),
            Opening::New(_) => Some(Opening::Open),
            Opening::Open => None,
        }
    }
}
