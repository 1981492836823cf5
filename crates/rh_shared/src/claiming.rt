//! Claiming the places of a list that several workers share.

ghost use Rattle.std.specs.Prelude.{◌<◌, ℕ};
ghost use Rattle.rh_shared.specs.Rests.{SeatRests, StaysAtRest};
ghost use Rattle.rh_shared.specs.Claims.{ClaimsOne};
ghost use Rattle.rh_shared.specs.Seats.{sitter_of, view_of};
ghost use Rattle.rh_world.specs.World.{In};

use crate::on_table::OnTable;
use crate::seat::Seat;
use crate::table::Table;
use rh_carrier::Steps;
use rh_words::Request;

/// The next position of the list, or none at its end.
pub fn claim(table: &Table, seat: &mut Seat) -> Option<u64>
    requires rests { SeatRests table.now seat.old }
    requires keys { (n : ℕ) → In n (view_of seat.old).side.claims → n < table.now.shape.keys }
    ensures stays { StaysAtRest table.now seat.old seat.new }
    ensures claims { ClaimsOne table.now.shape (sitter_of seat.old) (sitter_of seat.new) result }
{
    let mut here = OnTable {
        table,
        seat: &mut seat.inner,
    };
    let position = here.make(&table.shape, &mut seat.side, Request::Claim);
    (position < table.shape.keys).then_some(position)
}
