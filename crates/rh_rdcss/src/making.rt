//! A step by the seat of one worker.

ghost use Rattle.rh_words.specs.Requests.{step_asked};
ghost use Rattle.rh_words.specs.Steps.{Allowed};
ghost use Rattle.rh_shared.specs.Rests.{SeatKnows};
ghost use Rattle.rh_shared.specs.Seats.{IsSame, sitter_of, view_of};
ghost use Rattle.rh_rdcss.specs.Calls.{Learned};

use rh_carrier::Steps;
use rh_shared::{OnTable, Seat, Table};
use rh_words::Request;

/// Makes the step, and answers the word that it found.
#[inline(always)]
pub(crate) fn make(table: &Table, seat: &mut Seat, request: Request) -> u64
    requires knows { SeatKnows table.now seat.old }
    requires allowed { Allowed table.now.shape (view_of seat.old) (step_asked request) }
    ensures same { IsSame seat.old seat.new }
    ensures learned { Learned table.now.shape (step_asked request) (sitter_of seat.old) result
        (sitter_of seat.new) }
{
    let mut here = OnTable {
        table,
        seat: &mut seat.inner,
    };
    here.make(&table.shape, &mut seat.side, request)
}
