//! Swaps of several cells.

ghost use Rattle.rh_words.specs.Parts.{cell_count};
ghost use Rattle.rh_words.specs.Steps.{AreEntries, IsKnown};
ghost use Rattle.rh_words.specs.Words.{ref_of};
ghost use Rattle.rh_shared.specs.Crews.{HasAll, SitsAt, IsQuiet, UsedNoRow, views_of};
ghost use Rattle.rh_shared.specs.Rests.{SeatRests};
ghost use Rattle.rh_shared.specs.Seats.{view_of};
ghost use Rattle.rh_rule.specs.Seats.{InView};
ghost use Rattle.rh_tagword.specs.Word.{IsValue};
ghost use Rattle.rh_world.specs.World.{In};
ghost use Rattle.std.specs.Prelude.{length, slice_index, ℕ, ◌+◌, ◌<◌, ◌≡◌};

use rh_descriptor::{Entry, Ref, Shape};
use rh_kcas::{Outcome, Seat, Table};
use std::alloc::{AllocError, Global};
use std::sync::Wait;

pub fn make(alloc: Global, shape: Shape, cells: &[u64]) -> Result<(Table, Seat), AllocError>
    requires sized { length cells.now ≡ cell_count shape }
    requires values { (c : ℕ) → c < length cells.now → IsValue (slice_index cells.now c) }
{
    rh_kcas::make(alloc, shape, cells)
}

pub fn split(table: &Table, seat: &mut Seat, at: usize) -> Seat
    requires here { SitsAt table.now seat.old }
    requires within { (seat.old.side.worker < at) × (at < seat.old.side.worker + seat.old.count) }
    requires rows { InView (UsedNoRow table.now.shape) (views_of seat.old) }
{
    rh_kcas::split(table, seat, at)
}

pub fn join(table: &Table, seat: &mut Seat, other: Seat)
    requires here { SitsAt table.now seat.old }
    requires other { SitsAt table.now other }
    requires rest { InView IsQuiet (views_of seat.old) }
    requires other_rest { InView IsQuiet (views_of other) }
    requires follows { other.side.worker ≡ seat.old.side.worker + seat.old.count }
{
    rh_kcas::join(table, seat, other);
}

pub fn kcas<R: Wait>(rt: &R, table: &Table, seat: &mut Seat, entries: &[Entry]) -> Outcome
    requires rests { SeatRests table.now seat.old }
    requires entries { AreEntries table.now.shape entries.now }
{
    rh_kcas::kcas(rt, table, seat, entries)
}

pub fn help<R: Wait>(rt: &R, table: &Table, seat: &mut Seat, desc: Ref)
    requires rests { SeatRests table.now seat.old }
    requires known { IsKnown (view_of seat.old).side.facts (ref_of desc) }
{
    rh_kcas::help(rt, table, seat, desc);
}

pub fn read<R: Wait>(rt: &R, table: &Table, seat: &mut Seat, cell: usize) -> Option<u64>
    requires rests { SeatRests table.now seat.old }
    requires cell { cell < cell_count table.now.shape }
{
    rh_kcas::read(rt, table, seat, cell)
}

pub fn wipe(table: &Table, seat: &mut Seat)
    requires all { HasAll table.now seat.old }
    requires rest { InView IsQuiet (views_of seat.old) }
{
    rh_kcas::wipe(table, seat);
}

pub fn close(table: Table, seat: Seat, cells: &mut [u64])
    requires all { HasAll table seat }
    requires rest { InView IsQuiet (views_of seat) }
    requires sized { length cells.old ≡ cell_count table.shape }
{
    rh_kcas::close(table, seat, cells);
}

pub fn claim(table: &Table, seat: &mut Seat) -> Option<u64>
    requires rests { SeatRests table.now seat.old }
    requires keys { (n : ℕ) → In n (view_of seat.old).side.claims → n < table.now.shape.keys }
{
    rh_kcas::claim(table, seat)
}

pub fn variants(outcome: Outcome) {
    match outcome {
        Outcome::Done | Outcome::Spent => {}
        Outcome::Failed { entry } => {
            let _: usize = entry;
        }
    }
}
