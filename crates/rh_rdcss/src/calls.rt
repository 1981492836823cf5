//! The calls of one worker at a table.

ghost use Rattle.std.specs.Prelude.{◌≡◌, ◌<◌, ℕ, IfSome, None};
ghost use Rattle.rh_world.specs.World.{In};
ghost use Rattle.rh_world.specs.Facts.Fact.{found};
ghost use Rattle.rh_words.specs.Parts.{cell_count};
ghost use Rattle.rh_words.specs.Steps.{IsDesc};
ghost use Rattle.rh_words.specs.Steps.Step.{reads};
ghost use Rattle.rh_words.specs.Words.{cell_in, ref_of};
ghost use Rattle.rh_shared.specs.Rests.{SeatKnows, StaysKnown};
ghost use Rattle.rh_shared.specs.Seats.{IsSame, sitter_of, view_of};
ghost use Rattle.rh_rdcss.specs.Calls.{HasStatus, Learned, Meets, SeenAs, StillKnows};
ghost use Rattle.rh_rdcss.specs.Placing.{HasEntry, LeavesMark, LengthSays, MayPlace, Places};
ghost use Rattle.rh_rdcss.specs.Settling.{IsOwnUnsettled, Recalls, SettlesMark};

use crate::making::make;
use crate::placing::{place_there, read_entry};
use crate::reading::status_by;
use crate::settling::{settle_met, settle_own};
use rh_shared::{Seat, Table};
use rh_tagword::State;
use rh_words::{Reading, Ref, Request};

/// What became of a mark that was to be placed.
#[derive(Clone, Copy, Debug, PartialEq, Eq)]
pub enum Placed {
    /// It stands in the cell, and is to be settled by its worker.
    Mine,
    /// This other word stood there, and the mark is left for another try.
    Found(u64),
    /// The descriptor is stale, and no mark was placed.
    Passed,
    /// No mark was left.
    Spent,
}

/// Reads a cell, by one load.
#[inline(always)]
pub fn peek_cell(table: &Table, seat: &mut Seat, cell: usize) -> u64
    requires knows { SeatKnows table.now seat.old }
    requires cell { cell < cell_count table.now.shape }
    ensures same { IsSame seat.old seat.new }
    ensures read { Learned table.now.shape (reads (Reading.Cell cell)) (sitter_of seat.old) result
        (sitter_of seat.new) }
    ensures still { StillKnows (view_of seat.old) (view_of seat.new) }
    ensures meets { Meets cell (cell_in result) (view_of seat.new).side.facts }
{
    make(table, seat, Request::Read(Reading::Cell(cell)))
}

/// Reads how far a descriptor is, by one load: `Unused` where it is not opened yet, and none where
/// it is stale.
#[inline(always)]
pub fn status(table: &Table, seat: &mut Seat, desc: Ref) -> Option<State>
    requires knows { SeatKnows table.now seat.old }
    requires desc { IsDesc table.now.shape (ref_of desc) }
    ensures same { IsSame seat.old seat.new }
    ensures read { HasStatus table.now.shape desc (sitter_of seat.old) result (sitter_of seat.new) }
    ensures still { StillKnows (view_of seat.old) (view_of seat.new) }
    ensures seen { SeenAs (ref_of desc) result (view_of seat.new).side.facts }
    ensures unsettled { (view_of seat.new).side.unsettled ≡ (view_of seat.old).side.unsettled }
{
    let word = make(table, seat, Request::Read(Reading::Control(desc)));
    status_by(desc, word)
}

/// Reads how many entries a descriptor has, and then whether its row is still of it: none where it
/// is stale.
#[inline(always)]
pub fn count_entries(table: &Table, seat: &mut Seat, desc: Ref) -> Option<usize>
    requires knows { SeatKnows table.now seat.old }
    requires may { MayPlace table.now.shape (view_of seat.old) desc }
    ensures stays { StaysKnown table.now seat.old seat.new }
    ensures says { LengthSays table.now.shape desc result (sitter_of seat.old)
        (sitter_of seat.new) }
    ensures entries { IfSome result (λ size. (e : ℕ) → e < size →
        HasEntry table.now.shape (view_of seat.new) desc e) }
{
    let length = make(table, seat, Request::Read(Reading::Length(desc))) as usize;
    let serial = make(table, seat, Request::Read(Reading::Serial(desc)));
    if serial != desc.number {
        return None;
    }
    Some(length)
}

/// Places the worker's next mark for an entry that it knows the descriptor to have. The cell and
/// the old value are read in the row, and whether it is still of the descriptor; then the three
/// words of the mark row are written, and one compare-and-swap of the cell is made.
#[inline(always)]
pub fn place(table: &Table, seat: &mut Seat, desc: Ref, entry: usize) -> Placed
    requires knows { SeatKnows table.now seat.old }
    requires entry { HasEntry table.now.shape (view_of seat.old) desc entry }
    ensures leaves { LeavesMark table.now.shape desc entry seat.old result seat.new }
    ensures places { Places table.now.shape desc entry (sitter_of seat.old) result
        (sitter_of seat.new) }
{
    if seat.side.marks_used >= table.shape.rooms.marks {
        return Placed::Spent;
    }
    match read_entry(table, seat, desc, entry) {
        None => Placed::Passed,
        Some((piece, old)) => place_there(table, seat, piece, old),
    }
}

/// Settles a mark that stands in this cell, where the worker found it or placed it. A mark of
/// another worker: its row is read, then the control of its descriptor, and the descriptor is put
/// into the mark's place where that is undecided, else the old value that its row says. None, and
/// no Settle was made, where the mark or its descriptor is stale: then its worker settles it, if it
/// has not. The own mark, which is the last that the worker placed by `place`: the control is read,
/// and the mark settled to the descriptor or to the old value that the seat keeps, also where it is
/// stale. Answers the word that the Settle found; where it is not the mark, another worker settled
/// it.
#[inline(always)]
pub fn settle(table: &Table, seat: &mut Seat, cell: usize, mark: Ref) -> Option<u64>
    requires knows { SeatKnows table.now seat.old }
    requires found { In (found (ref_of mark) cell) (view_of seat.old).side.facts }
    requires own { mark.worker ≡ (view_of seat.old).worker →
        Recalls (view_of seat.old) mark seat.old.placed }
    ensures stays { StaysKnown table.now seat.old seat.new }
    ensures settles { SettlesMark table.now.shape cell mark seat.old.placed
        (sitter_of seat.old) result (sitter_of seat.new) }
    ensures settled { IsOwnUnsettled (view_of seat.old) mark →
        (view_of seat.new).side.unsettled ≡ None }
{
    if mark.worker == seat.side.worker {
        // (it keeps for what its mark is)
        let own = seat.placed.unwrap();
        Some(settle_own(table, seat, cell, own))
    } else {
        settle_met(table, seat, cell, mark)
    }
}
