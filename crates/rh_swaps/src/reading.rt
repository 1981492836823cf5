//! Reading a cell.

ghost use Rattle.std.specs.Prelude.{◌<◌};
ghost use Rattle.rh_words.specs.Parts.{cell_count};
ghost use Rattle.rh_words.specs.Words.{cell_in};
ghost use Rattle.rh_helping.specs.Next.{Looking};
ghost use Rattle.rh_helping.specs.Seen.{looking_at};
ghost use Rattle.rh_helping.specs.Stepping.{MayLook};
ghost use Rattle.rh_shared.specs.Rests.{SeatRests};
ghost use Rattle.rh_shared.specs.Sits.{Sits};
ghost use Rattle.rh_swaps.specs.Swaps.{HasLookedAt, HasReadAtRest};

use rh_helping::{Machine, Seen, Sight, read_cell};
use rh_shared::{OnTable, Seat, Table};
use rh_words::{Ref, Shape, Side};
use std::sync::Wait;

/// The plain word that the cell holds, or none where no mark is left.
#[inline(always)]
pub fn read<R: Wait>(rt: &R, table: &Table, seat: &mut Seat, cell: usize) -> Option<u64>
    requires rests { SeatRests table.now seat.old }
    requires cell { cell < cell_count table.now.shape }
    ensures { HasReadAtRest table.now cell seat.old result seat.new }
{
    let mut here = OnTable {
        table,
        seat: &mut seat.inner,
    };
    look(rt, &table.shape, &mut here, &mut seat.side, cell)
}

/// Looks at the cell. Who sees a value makes no machine.
#[inline(always)]
fn look<R: Wait>(
    rt: &R,
    shape: &Shape,
    here: &mut OnTable,
    side: &mut Side,
    cell: usize,
) -> Option<u64>
    requires { MayLook Sits Sits shape.now cell Looking.Read here.old side.old.known.view }
    ensures { HasLookedAt shape.now cell here.old side.old.known.view result here.new
        side.new.known.view }
{
    match read_cell(shape, here, side, cell) {
        Seen::Value(word) => Some(word),
        Seen::Other(word) => look_on(rt, shape, here, side, cell, word),
    }
}

/// Goes on from this word, by which no value stands there, until one does.
#[cold]
#[inline(never)]
fn look_on<R: Wait>(
    rt: &R,
    shape: &Shape,
    here: &mut OnTable,
    side: &mut Side,
    cell: usize,
    word: u64,
) -> Option<u64>
    requires { MayLook Sits Sits shape.now cell (looking_at (cell_in word) cell) here.old
        side.old.known.view }
    ensures { HasLookedAt shape.now cell here.old side.old.known.view result here.new
        side.new.known.view }
{
    let mut machine = Machine::about(Ref {
        worker: side.worker,
        number: 0,
    });
    let mut watch = machine.meet(word, cell);
    for _ in rt.forever() {
        match machine.look(watch, shape, here, side, cell) {
            Sight::On(next) => watch = next,
            Sight::Sees(word) => return Some(word),
            Sight::Spent => return None,
        }
    }
    unreachable!()
}
