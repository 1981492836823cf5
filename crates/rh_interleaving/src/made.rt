//! What the workers have made.

ghost use Rattle.std.specs.Prelude.{◌≡◌, ◌<◌, None, Some, false, length, slice_index, take, true};
ghost use Rattle.rh_layout.specs.Layout.{Layout};
ghost use Rattle.rh_ledger.specs.Phase.{set_after, tally_of as tally_after};
ghost use Rattle.rh_ledger.specs.declared.tally.Kind.TheVariants.{Ask};
ghost use Rattle.rh_words.specs.Parts.{cell_count};
ghost use Rattle.rh_tagword.specs.Word.{word_in};
ghost use Rattle.rh_ledger.specs.Tally.{tally_by};
ghost use Rattle.rh_turns.specs.Game.{AllFinished, IsDoneAt, done_at, keys_at};
ghost use Rattle.rh_interleaving.specs.Made.{AnswersAll, IsAnswer, IsMadeSoFar, TallySpec, changed_count};
ghost use Rattle.rh_interleaving.specs.Made.{done_count, held_first, is_shared, key_of, recorded_at, recorded_of};

use crate::player::Player;
use rh_ledger::{Kind, Tally, tally_by};
use rh_tagword::{Word, unpack};
use rh_turns::{Share, logical_value};
use rh_words::Shape;

impl Player {
    /// The size of the table, as a power of 2.
    pub fn bits(&self) -> u32
        ensures { result ≡ self.now.shape.bits }
    {
        self.shape.bits
    }

    /// How large the table is.
    pub fn shape(&self) -> Shape
        ensures { result ≡ self.now.shape }
    {
        let Player { shape, .. } = self;
        *shape
    }

    /// The words of the cells, as they stand.
    pub fn words(&self) -> &[u64]
        ensures { result.now ≡ take (cell_count self.now.shape) self.now.words }
    {
        &self.table.words[..self.shape.cells()]
    }

    /// Writes what the cells stand for.
    pub fn logical(&self, cells: &mut [u64])
        requires { length cells.old ≡ cell_count self.now.shape }
        ensures so_far { IsMadeSoFar self.now cells.new }
        ensures finished { AllFinished self.now →
            Layout cells.new self.now.shape.bits
            (set_after self.now.kind (held_first self.now) self.now.keys) }
    {
        for cell in 0..cells.len() {
            cells[cell] = logical_value(&self.shape, &self.table.words, &self.hands, cell);
        }
    }

    /// The word of a cell, as it stands.
    pub fn raw(&self, cell: usize) -> Word
        requires { cell < cell_count self.now.shape }
        ensures { word_in (slice_index self.now.words cell) ≡ Some result }
    {
        // (each word of a cell is one of these)
        unpack(self.table.words[cell]).unwrap()
    }

    /// What is counted of the keys that are done: how many they are, and how many of
    /// them were added, removed or found.
    pub fn tally(&self) -> Tally
        ensures so_far { TallySpec self.now result }
        ensures counts { result ≡ tally_by self.now.kind (done_count self.now)
            (changed_count self.now) }
        ensures finished { AllFinished self.now →
            result ≡ tally_after self.now.kind (held_first self.now) self.now.keys }
    {
        // No sum is cut, as none is above the length of the list: so no bound is owed at each
        // addition.
        let mut done = 0u64;
        let mut changed = 0u64;
        for hand in &self.hands {
            done = done.saturating_add(hand.done as u64);
            changed = changed.saturating_add(hand.changed as u64);
        }
        tally_by(self.kind, done, changed)
    }

    /// The key that a worker began last; 0 before it began one.
    pub fn key(&self, worker: usize) -> Option<u64>
        ensures { result ≡ key_of self.now worker }
    {
        if worker >= self.hands.len() {
            return None;
        }
        Some(self.hands[worker].worker.key)
    }

    /// Where keys are asked for: the answer of the key at this position of a worker's piece, if
    /// it is done.
    pub fn answer(&self, worker: usize, position: usize) -> Option<bool>
        ensures answer { result ≡ recorded_of self.now worker position }
        ensures asked { self.now.kind ≡ Ask → is_shared self.now ≡ false →
            worker < length self.now.hands →
            IsAnswer (held_first self.now) (slice_index (keys_at self.now worker) position)
            (position < length (done_at self.now worker)) result }
        ensures finished { is_shared self.now ≡ false → worker < length self.now.hands →
            AnswersAll self.now (keys_at self.now worker) position result }
    {
        if worker >= self.hands.len() {
            return None;
        }
        match self.hands[worker].share {
            Share::Piece { first, end } => {
                if position >= end - first {
                    return None;
                }
                self.recorded_answer(first + position)
            }
            Share::Claims { .. } => None,
        }
    }

    /// Where the keys of a shared list are asked for: the answer of the key at this position of
    /// the list, if it is done.
    pub fn answer_at(&self, position: usize) -> Option<bool>
        ensures answer { is_shared self.now ≡ true → result ≡ recorded_at self.now position }
        ensures none { is_shared self.now ≡ false → result ≡ None }
        ensures asked { self.now.kind ≡ Ask → is_shared self.now ≡ true →
            IsAnswer (held_first self.now) (slice_index self.now.keys position)
            (IsDoneAt self.now position) result }
        ensures finished { is_shared self.now ≡ true →
            AnswersAll self.now self.now.keys position result }
    {
        match self.hands[0].share {
            Share::Claims { .. } => self.recorded_answer(position),
            Share::Piece { .. } => None,
        }
    }

    fn recorded_answer(&self, position: usize) -> Option<bool>
        ensures answer { result ≡ recorded_at self.now position }
    {
        if self.kind == Kind::Ask && position < self.answers.len() {
            return self.answers[position];
        }
        None
    }
}
