//! Placing a mark.

ghost use Rattle.std.specs.Prelude.{◌≡◌, ◌<◌};
ghost use Rattle.rh_shared.specs.Rests.{SeatKnows};
ghost use Rattle.rh_shared.specs.Seats.{IsSame, sitter_of, view_of};
ghost use Rattle.rh_rdcss.specs.Placing.{EntrySays, HasEntry, KnowsPiece, LeavesMark, Tried, TriedSo};

use crate::calls::Placed;
use crate::making::make;
use rh_helping::{write_mark_desc, write_mark_entry, write_mark_serial};
use rh_shared::{OwnMark, Seat, Table};
use rh_words::{Piece, Reading, Ref, Request};

/// Reads the cell and the old value of an entry in the row of its descriptor, and then whether the
/// row is still of it: if not, what was read says nothing of it.
#[inline(always)]
pub(crate) fn read_entry(
    table: &Table,
    seat: &mut Seat,
    desc: Ref,
    entry: usize,
) -> Option<(Piece, u64)>
    requires knows { SeatKnows table.now seat.old }
    requires has { HasEntry table.now.shape (view_of seat.old) desc entry }
    ensures same { IsSame seat.old seat.new }
    ensures says { EntrySays table.now.shape desc entry result (sitter_of seat.old)
        (sitter_of seat.new) }
{
    let reading = Reading::EntryCell { desc, entry };
    let cell = make(table, seat, Request::Read(reading)) as usize;
    let reading = Reading::EntryOld { desc, entry };
    let old = make(table, seat, Request::Read(reading));
    let serial = make(table, seat, Request::Read(Reading::Serial(desc)));
    if serial != desc.number {
        return None;
    }
    Some((Piece { desc, entry, cell }, old))
}

/// Places the next own mark, which is left, and keeps for what it is where it stands in the cell.
#[inline(always)]
pub(crate) fn place_there(table: &Table, seat: &mut Seat, piece: Piece, old: u64) -> Placed
    requires knows { SeatKnows table.now seat.old }
    requires knows_it { KnowsPiece table.now.shape (view_of seat.old) piece old }
    requires left { seat.old.side.marks_used < table.now.shape.rooms.marks }
    ensures leaves { LeavesMark table.now.shape piece.desc piece.entry seat.old result seat.new }
    ensures tried { TriedSo table.now.shape piece old (sitter_of seat.old) result
        (sitter_of seat.new) }
{
    let mark = Ref {
        worker: seat.side.worker,
        number: seat.side.marks_used,
    };
    let found = place_next(table, seat, piece, old);
    if found != old {
        return Placed::Found(found);
    }
    seat.placed = Some(OwnMark { mark, piece, old });
    Placed::Mine
}

/// Places the next own mark, which is left, and answers the word that stood in the cell. The mark
/// row is written first, as a machine of `rh_helping` writes it.
#[inline(always)]
pub(crate) fn place_next(table: &Table, seat: &mut Seat, piece: Piece, old: u64) -> u64
    requires knows { SeatKnows table.now seat.old }
    requires knows_it { KnowsPiece table.now.shape (view_of seat.old) piece old }
    requires left { seat.old.side.marks_used < table.now.shape.rooms.marks }
    ensures same { IsSame seat.old seat.new }
    ensures tried { Tried table.now.shape piece old (sitter_of seat.old) result
        (sitter_of seat.new) }
{
    let serial = write_mark_serial(&seat.side);
    let desc = write_mark_desc(&table.shape, &seat.side, piece.desc);
    let entry = write_mark_entry(&seat.side, piece.entry);
    make(table, seat, serial);
    make(table, seat, desc);
    make(table, seat, entry);
    make(table, seat, Request::Place { piece, old })
}
