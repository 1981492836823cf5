//! One worker's many random swaps, and what comes of them.

ghost use Rattle.std.specs.Prelude.{◌<◌};
ghost use Rattle.rh_shared.specs.Rests.{SeatRests, StaysAtRest};

use crate::random::*;
use crate::tables::*;
use rh_crew::Work;
use rh_kcas::{Outcome, Seat, Table, change};
use rh_layout::MAX_KEY;
use std::process::Abort;
use std::sync::Wait;

/// What came of the swaps of some workers.
#[derive(Drop)]
pub struct SwapTally {
    /// How many of their swaps were carried out or failed.
    pub swaps: u64,
    /// How many of them were carried out.
    pub done: u64,
    /// What these added to each cell, modulo 2^64.
    pub added: [u64; CELLS],
    /// How often a worker read of its own counter another count than its own.
    pub wrong: u64,
}

impl SwapTally {
    pub fn nothing() -> SwapTally {
        SwapTally {
            swaps: 0,
            done: 0,
            added: [0; CELLS],
            wrong: 0,
        }
    }

    /// What came of these and of others.
    pub fn and(mut self, other: &SwapTally) -> SwapTally {
        self.swaps = self.swaps.wrapping_add(other.swaps);
        self.done = self.done.wrapping_add(other.done);
        self.wrong = self.wrong.wrapping_add(other.wrong);
        add_amounts(&mut self.added, &other.added);
        self
    }

    fn note(&mut self, outcome: Outcome, amounts: &[u64; CELLS]) {
        match outcome {
            Outcome::Done => {
                self.swaps = self.swaps.wrapping_add(1);
                self.done = self.done.wrapping_add(1);
                add_amounts(&mut self.added, amounts);
            }
            Outcome::Failed { .. } => self.swaps = self.swaps.wrapping_add(1),
            Outcome::Spent => {}
        }
    }
}

/// A round of random swaps, which go by a seed.
#[derive(Clone, Copy)]
pub struct SwapRound {
    pub seed: u64,
    /// How many swaps each worker tries.
    pub tries: usize,
    /// A worker reads a cell less often than this before each of them.
    pub looks: u64,
}

impl<R: Wait + Abort> Work<R, SwapTally> for SwapRound {
    fn work(&self, rt: &R, table: &Table, seat: Seat) -> (Seat, SwapTally) {
        let mut seat = seat;
        let seed = self.seed.wrapping_add(seat.side.worker as u64);
        let tally = try_swaps(rt, table, &mut seat, SwapRound { seed, ..*self });
        (seat, tally)
    }

    fn both(&self, first: SwapTally, second: SwapTally) -> SwapTally {
        first.and(&second)
    }
}

/// Tries so many swaps, or fewer where the worker is spent.
fn try_swaps<R: Wait + Abort>(rt: &R, table: &Table, seat: &mut Seat, swaps: SwapRound) -> SwapTally
    requires rests { SeatRests table.now seat.old }
    ensures stays { StaysAtRest table.now seat.old seat.new }
{
    let mut tally = SwapTally::nothing();
    let counter = Counter::of(seat.side.worker);
    let mut random = Random::new(swaps.seed);
    let Some(first) = value(rt, table, seat, counter.cell) else {
        return tally;
    };
    let mut raised = counter.raised(first);
    for tried in 0..swaps.tries {
        look_about(rt, table, seat, random.below(swaps.looks.max(1)));
        let amounts = amounts(&mut random, counter);
        let (outcome, read) = add(rt, table, seat, &amounts, counter.cell);
        tally.note(outcome, &amounts);
        if amounts[counter.cell] != 0 {
            if read.is_some_and(|value| counter.raised(value) != raised) {
                tally.wrong = tally.wrong.wrapping_add(1);
            }
            if outcome == Outcome::Done {
                raised = raised.wrapping_add(1);
            }
        }
    }
    tally
}

/// Reads an account so often, and helps the swaps that are met there.
fn look_about<R: Wait + Abort>(rt: &R, table: &Table, seat: &mut Seat, looks: u64)
    requires rests { SeatRests table.now seat.old }
    ensures stays { StaysAtRest table.now seat.old seat.new }
{
    for looked in 0..looks {
        value(rt, table, seat, 0);
    }
}

/// Adds the amounts to the cells, all in one act, unless another worker changes one of them
/// meanwhile. Answers what became of it, and what was read of this cell, where it was to change.
fn add<R: Wait + Abort>(
    rt: &R,
    table: &Table,
    seat: &mut Seat,
    amounts: &[u64; CELLS],
    counter: usize,
) -> (Outcome, Option<u64>)
    requires rests { SeatRests table.now seat.old }
    ensures stays { StaysAtRest table.now seat.old seat.new }
{
    let mut entries = [change(0, 0, 0); CELLS];
    let mut count = 0;
    let mut read = None;
    for cell in 0..CELLS {
        if amounts[cell] == 0 {
            continue;
        }
        let Some(old) = value(rt, table, seat, cell) else {
            return (Outcome::Spent, None);
        };
        let new = old.wrapping_add(amounts[cell]);
        // (an account that would fall below nought)
        if new > MAX_KEY + 1 {
            return (Outcome::Spent, None);
        }
        if cell == counter {
            read = Some(old);
        }
        entries[count] = change(cell, old, new);
        count += 1;
    }
    (swap(rt, table, seat, &entries[..count]), read)
}
