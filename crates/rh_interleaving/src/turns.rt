//! Turns and rounds.

ghost use Rattle.std.specs.Prelude.{◌≡◌, ◌↔◌, All, IsFalse, IsTrue, length};
ghost use Rattle.rh_words.specs.Parts.{word_count};
ghost use Rattle.rh_order.specs.Words.{IsWiped};
ghost use Rattle.rh_worker.specs.Worker.{IsWorker};
ghost use Rattle.rh_turns.specs.Game.{AllFinished, AllStopped};
ghost use Rattle.rh_turns.specs.Hands.{IsDoneWithin};
ghost use Rattle.rh_interleaving.specs.Turned.{AllBegin, BeginsRound, IsStopped, Traced, Turned, touched_in};

use crate::player::Player;
use rh_recorder::Touched;
use rh_turns::{Hand, Turn, take_turn};
use rh_words::Shape;

impl Player {
    /// Makes the next step of a worker.
    pub fn turn(&mut self, worker: usize) -> Turn
        ensures { Turned self.old worker result self.new }
    {
        self.trace(worker).0
    }

    /// Makes the next step of a worker, and tells what it touched.
    pub fn trace(&mut self, worker: usize) -> (Turn, Option<Touched>)
        ensures { Traced self.old worker result.0 result.1 self.new }
    {
        if worker >= self.hands.len() {
            return (Turn::NoSuchWorker, None);
        }
        let turn = take_turn(
            &self.shape,
            &mut self.table,
            &self.keys,
            self.answers.as_mut_slice(),
            &mut self.hands[worker],
        );
        (turn, touched_in(turn, self.table.last))
    }

    /// Begins the next round, where each worker is finished or spent: all rows are unused again,
    /// and each spent worker begins its key again.
    pub fn next_round(&mut self) -> bool
        ensures decides { IsTrue result ↔ AllStopped self.old }
        ensures begins { IsTrue result → BeginsRound self.old self.new }
        ensures stays { IsFalse result → self.new ≡ self.old }
    {
        if !self.all_stopped() {
            return false;
        }
        begin_round(
            &self.shape,
            self.table.words.as_mut_slice(),
            self.hands.as_mut_slice(),
        );
        true
    }

    /// Whether all keys of all workers are done.
    pub fn all_finished(&self) -> bool
        ensures { IsTrue result ↔ AllFinished self.now }
    {
        for hand in &self.hands {
            if !hand.is_finished() {
                return false;
            }
        }
        true
    }

    /// Whether no worker has a step left in this round.
    pub fn all_stopped(&self) -> bool
        ensures { IsTrue result ↔ AllStopped self.now }
    {
        for hand in &self.hands {
            if !is_stopped(hand) {
                return false;
            }
        }
        true
    }
}

/// What was touched in the turn, where this was recorded last.
fn touched_in(turn: Turn, last: Option<Touched>) -> Option<Touched>
    ensures { result ≡ touched_in turn last }
{
    match turn {
        Turn::Did(_) => last,
        Turn::Finished | Turn::Spent | Turn::NoSuchWorker => None,
    }
}

/// Whether the worker has no step left in this round.
fn is_stopped(hand: &Hand) -> bool
    requires { IsDoneWithin hand.now.share hand.now.done }
    ensures { IsTrue result ↔ IsStopped hand.now }
{
    hand.is_finished() || hand.worker.is_spent()
}

/// Sets all words of rows to 0. Each worker begins the round with the cells as they stand.
fn begin_round(shape: &Shape, words: &mut [u64], hands: &mut [Hand])
    requires sized { length words.old ≡ word_count shape.now }
    requires workers { All (λ h. IsWorker shape.now h.worker) hands.old }
    requires stopped { All IsStopped hands.old }
    ensures wiped { IsWiped shape.now words.old words.new }
    ensures workers { length hands.new ≡ length hands.old }
    ensures begins { AllBegin shape.now words.old hands.old hands.new }
{
    let cells = shape.cells();
    let counter = words.len() - 1;
    words[cells..counter].fill(0);
    for number in 0..hands.len() {
        hands[number].worker.begin_round(&words[..cells]);
    }
}
