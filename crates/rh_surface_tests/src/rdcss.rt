//! Restricted double-compare single-swaps.

ghost use Rattle.rh_words.specs.Parts.{cell_count};
ghost use Rattle.rh_words.specs.Steps.{IsDesc};
ghost use Rattle.rh_words.specs.Words.{ref_of};
ghost use Rattle.rh_shared.specs.Rests.{SeatKnows};
ghost use Rattle.rh_shared.specs.Seats.{view_of};
ghost use Rattle.rh_rdcss.specs.Placing.{HasEntry, MayPlace};
ghost use Rattle.rh_rdcss.specs.Settling.{Recalls};
ghost use Rattle.rh_world.specs.Facts.Fact.{found};
ghost use Rattle.rh_world.specs.World.{In};
ghost use Rattle.std.specs.Prelude.{◌<◌, ◌≡◌};

use rh_descriptor::Ref;
use rh_rdcss::{Placed, Seat, Table};
use rh_tagword::State;

pub fn place(table: &Table, seat: &mut Seat, desc: Ref, entry: usize) -> Placed
    requires knows { SeatKnows table.now seat.old }
    requires entry { HasEntry table.now.shape (view_of seat.old) desc entry }
{
    rh_rdcss::place(table, seat, desc, entry)
}

pub fn count_entries(table: &Table, seat: &mut Seat, desc: Ref) -> Option<usize>
    requires knows { SeatKnows table.now seat.old }
    requires may { MayPlace table.now.shape (view_of seat.old) desc }
{
    rh_rdcss::count_entries(table, seat, desc)
}

pub fn settle(table: &Table, seat: &mut Seat, cell: usize, mark: Ref) -> Option<u64>
    requires knows { SeatKnows table.now seat.old }
    requires found { In (found (ref_of mark) cell) (view_of seat.old).side.facts }
    requires own { mark.worker ≡ (view_of seat.old).worker →
        Recalls (view_of seat.old) mark seat.old.placed }
{
    rh_rdcss::settle(table, seat, cell, mark)
}

pub fn peek_cell(table: &Table, seat: &mut Seat, cell: usize) -> u64
    requires knows { SeatKnows table.now seat.old }
    requires cell { cell < cell_count table.now.shape }
{
    rh_rdcss::peek_cell(table, seat, cell)
}

pub fn status(table: &Table, seat: &mut Seat, desc: Ref) -> Option<State>
    requires knows { SeatKnows table.now seat.old }
    requires desc { IsDesc table.now.shape (ref_of desc) }
{
    rh_rdcss::status(table, seat, desc)
}

pub fn variants(placed: Placed) {
    match placed {
        Placed::Mine | Placed::Passed | Placed::Spent => {}
        Placed::Found(word) => {
            let _: u64 = word;
        }
    }
}
