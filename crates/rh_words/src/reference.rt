//! References to marks and descriptors.

ghost use Rattle.std.specs.Prelude.{◌≡◌, ◌<◌};
ghost use Rattle.rh_words.specs.Parts.{word_count};
ghost use Rattle.rh_words.specs.Steps.{IsRead, index_read};

use crate::shape::Shape;

/// A mark or a descriptor: its worker, and its serial number among that worker's. Both count from
/// 0.
#[derive(Clone, Copy, Debug, PartialEq, Eq)]
pub struct Ref {
    pub worker: usize,
    pub number: u64,
}

/// An entry of a descriptor, as a worker goes about it.
#[derive(Clone, Copy)]
pub struct Piece {
    pub desc: Ref,
    /// Counted from 0 in the descriptor.
    pub entry: usize,
    /// The entry's cell.
    pub cell: usize,
}

/// A word that a worker reads, and what it is to it.
#[derive(Clone, Copy)]
pub enum Reading {
    /// Any word of the table, of which nothing is noted.
    Word(usize),
    /// The word of a cell.
    Cell(usize),
    /// The control of a descriptor.
    Control(Ref),
    /// The control of this descriptor, for which this mark was found in this cell.
    MarkControl { mark: Ref, cell: usize, desc: Ref },
    /// The serial number in the row of this descriptor, which tells whether the row is still of it.
    Serial(Ref),
    /// The number of a descriptor's entries.
    Length(Ref),
    /// The cell of a descriptor's entry.
    EntryCell { desc: Ref, entry: usize },
    /// The old value of a descriptor's entry.
    EntryOld { desc: Ref, entry: usize },
    /// The new value of a descriptor's entry.
    EntryNew { desc: Ref, entry: usize },
    /// The serial number in the row of this mark, which tells whether the row is still of it.
    MarkSerial(Ref),
    /// The descriptor of a mark.
    MarkDesc(Ref),
    /// The entry of a mark.
    MarkEntry(Ref),
    /// The reason of the worker that decided that this own descriptor failed: at which entry.
    Reason { desc: Ref, decider: usize },
}

impl Reading {
    // The word of the table that is read.
    #[inline(always)]
    pub(crate) fn index(self, shape: &Shape) -> usize
        requires { IsRead shape.now self }
        ensures value { result ≡ index_read shape.now self }
        ensures within { result < word_count shape.now }
    {
        match self {
            Reading::Word(index) => index,
            Reading::Cell(cell) => cell,
            Reading::Control(desc) | Reading::MarkControl { desc, .. } => shape.row_word(
                desc.worker,
                0,
            ),
            Reading::Serial(desc) => shape.row_word(desc.worker, 1),
            Reading::Length(desc) => shape.row_word(desc.worker, 2),
            Reading::EntryCell { desc, entry } => shape.entry_word(desc.worker, entry, 0),
            Reading::EntryOld { desc, entry } => shape.entry_word(desc.worker, entry, 1),
            Reading::EntryNew { desc, entry } => shape.entry_word(desc.worker, entry, 2),
            Reading::MarkSerial(mark) => shape.mark_word(mark.worker, 0),
            Reading::MarkDesc(mark) => shape.mark_word(mark.worker, 1),
            Reading::MarkEntry(mark) => shape.mark_word(mark.worker, 2),
            Reading::Reason { desc, decider } => shape.reason_word(decider, desc.worker),
        }
    }
}
