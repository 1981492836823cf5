//! The shape of a shared table, and where its parts stand in its words.

ghost use Rattle.std.specs.Prelude.{◌≡◌, ◌^◌, ◌≤◌, ◌<◌};
ghost use Rattle.rh_layout.specs.Key.{IsBits};
ghost use Rattle.rh_words.specs.declared.limits.TheConstants.{MAX_ROOM, MAX_WORKERS};

use crate::limits::{HEAD_WORDS, MARK_WORDS, MAX_ROOM, WORDS_PER_ENTRY};

/// How many descriptors a worker may open in a round, and how many marks it may place. They take no
/// room: a worker writes one row again for all its descriptors, and one for all its marks.
#[derive(Clone, Copy, Debug, PartialEq, Eq)]
pub struct Rooms {
    pub descriptors: u64,
    pub marks: u64,
}

impl Rooms {
    ghost use Rattle.rh_words.specs.Parts.{usual_rooms};

    /// The usual rooms, which are the greatest: as many as a word has numbers for.
    pub fn usual() -> Rooms
        ensures { result ≡ usual_rooms }
    {
        Rooms {
            descriptors: MAX_ROOM,
            marks: MAX_ROOM,
        }
    }
}

/// How large a shared table is: each shape has sizes that a table may have.
#[derive(Clone, Copy, Debug, PartialEq, Eq)]
pub struct Shape {
    /// It has 2 to the power of its bits cells.
    pub bits: u32,
    pub workers: usize,
    /// The length of the list of keys whose places the workers claim. The counter of the claims
    /// does not pass a word.
    pub keys: u64,
    pub rooms: Rooms,
    pub ghost bits_fit: { IsBits bits },
    pub ghost some_worker: { 0 < workers },
    pub ghost workers_fit: { workers ≤ MAX_WORKERS },
    pub ghost keys_fit: { keys < 2 ^ 63 },
    pub ghost descriptors_fit: { rooms.descriptors ≤ MAX_ROOM },
    pub ghost marks_fit: { rooms.marks ≤ MAX_ROOM },
}

/// A part of a shared table: one word. Workers and entries are counted from 0.
#[derive(Clone, Copy)]
pub enum Part {
    Cell(usize),
    /// How far a worker's last descriptor is, with its serial number.
    Control { worker: usize },
    /// The serial number of the descriptor that a worker's row is of.
    Serial { worker: usize },
    /// The number of its entries.
    Length { worker: usize },
    /// The cell that an entry changes.
    EntryCell { worker: usize, entry: usize },
    /// The word that it is to find there.
    EntryOld { worker: usize, entry: usize },
    /// The word that it is to put there.
    EntryNew { worker: usize, entry: usize },
    /// The serial number of the mark that a worker's mark row is of.
    MarkSerial { worker: usize },
    /// The reference of that mark's descriptor.
    MarkDesc { worker: usize },
    /// The entry that it is for, counted from 0 in its descriptor.
    MarkEntry { worker: usize },
    /// What a worker tells the owner of a descriptor: the entry at which it decided that it failed.
    Reason { worker: usize, owner: usize },
    /// How many Claims were made.
    Counter,
}

impl Shape {
    ghost use Rattle.rh_words.specs.declared.limits.TheConstants.{HEAD_WORDS, MARK_WORDS, WORDS_PER_ENTRY};
    ghost use Rattle.rh_words.specs.Parts.{IsPart, cell_count, entry_words, index_of};
    ghost use Rattle.rh_words.specs.Parts.{entry_row, mark_row, reason_row, row_count, row_index, word_count};
    ghost use Rattle.rh_words.specs.declared.shape.Part.TheVariants.{Counter};

    /// How many cells there are.
    #[inline(always)]
    pub fn cells(&self) -> usize
        ensures { result ≡ cell_count self.now }
    {
        1 << self.bits
    }

    /// How many words the table has.
    #[inline(always)]
    pub fn words(&self) -> usize
        ensures { result ≡ word_count self.now }
    {
        self.cells() + self.workers * self.rows() + 1
    }

    // How many words the entries of a row have: a descriptor has at most one for each cell.
    #[inline(always)]
    fn entry_words(&self) -> usize
        ensures { result ≡ entry_words self.now }
    {
        WORDS_PER_ENTRY * self.cells()
    }

    // How many words the rows of one worker have.
    #[inline(always)]
    fn rows(&self) -> usize
        ensures { result ≡ row_count self.now }
    {
        HEAD_WORDS + self.entry_words() + MARK_WORDS + self.workers
    }

    /// The word of a part.
    #[inline(always)]
    pub fn index(&self, part: Part) -> usize
        requires { IsPart self.now part }
        ensures value { result ≡ index_of self.now part }
        ensures within { result < word_count self.now }
    {
        match part {
            Part::Cell(cell) => cell,
            Part::Control { worker } => self.row_word(worker, 0),
            Part::Serial { worker } => self.row_word(worker, 1),
            Part::Length { worker } => self.row_word(worker, 2),
            Part::EntryCell { worker, entry } => self.entry_word(worker, entry, 0),
            Part::EntryOld { worker, entry } => self.entry_word(worker, entry, 1),
            Part::EntryNew { worker, entry } => self.entry_word(worker, entry, 2),
            Part::MarkSerial { worker } => self.mark_word(worker, 0),
            Part::MarkDesc { worker } => self.mark_word(worker, 1),
            Part::MarkEntry { worker } => self.mark_word(worker, 2),
            Part::Reason { worker, owner } => self.reason_word(worker, owner),
            Part::Counter => self.counter(),
        }
    }

    #[tactic(auto, using(crate::proofs::IndexLemmas::entry_inside))]
    #[inline(always)]
    pub(crate) fn entry_word(&self, worker: usize, entry: usize, word: usize) -> usize
        requires worker { worker < self.now.workers }
        requires entry { entry < cell_count self.now }
        requires word { word < WORDS_PER_ENTRY }
        ensures value { result ≡ row_index self.now worker (entry_row entry word) }
        ensures within { result < word_count self.now }
    {
        self.row_word(worker, HEAD_WORDS + (WORDS_PER_ENTRY * entry + word))
    }

    #[inline(always)]
    pub(crate) fn mark_word(&self, worker: usize, word: usize) -> usize
        requires worker { worker < self.now.workers }
        requires word { word < MARK_WORDS }
        ensures value { result ≡ row_index self.now worker (mark_row self.now word) }
        ensures within { result < word_count self.now }
    {
        self.row_word(worker, HEAD_WORDS + self.entry_words() + word)
    }

    #[inline(always)]
    pub(crate) fn reason_word(&self, worker: usize, owner: usize) -> usize
        requires worker { worker < self.now.workers }
        requires owner { owner < self.now.workers }
        ensures value { result ≡ row_index self.now worker (reason_row self.now owner) }
        ensures within { result < word_count self.now }
    {
        self.row_word(worker, HEAD_WORDS + self.entry_words() + MARK_WORDS + owner)
    }

    #[inline(always)]
    pub(crate) fn counter(&self) -> usize
        ensures value { result ≡ index_of self.now Counter }
        ensures within { result < word_count self.now }
    {
        self.cells() + self.workers * self.rows()
    }

    #[inline(always)]
    pub(crate) fn row_word(&self, worker: usize, row: usize) -> usize
        requires worker { worker < self.now.workers }
        requires row { row < row_count self.now }
        ensures value { result ≡ row_index self.now worker row }
        ensures within { result < word_count self.now }
    {
        self.cells() + (worker * self.rows() + row)
    }
}
