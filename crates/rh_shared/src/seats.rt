//! Seats of several workers, which are cut and joined.

ghost use Rattle.std.specs.Prelude.{◌≡◌, ◌+◌, ◌<◌, ◌++◌, [], ℕ, take, drop};
ghost use Rattle.rh_shared.specs.Crews.{SitsAt, CountsNone, IsCut, IsFresh, IsJoined, IsQuiet, UsedNoRow, head_of, views_of};
ghost use Rattle.rh_shared.specs.Rests.{SeatRests};
ghost use Rattle.rh_rule.specs.Seats.{InView};

use crate::seat::{Seat, unused_side};
use crate::table::{Inner, Table};
use atomic_table::{Join, Split};
use rh_rule::Sitter;
use rh_words::{First, Known, Side};
use std::collections::LinkedList;
use std::marker::{Brand, PhantomData};

/// Where a list of views is cut. Each call of a program picks it.
trait Point {
    ghost use Rattle.std.specs.Prelude.{ℕ};

    ghost at: { ℕ };
}

impl Point for Brand {
    ghost at = { 0 };
}

struct Halves<B> {
    of: PhantomData<B>,
}

impl<B: Point> Split<LinkedList<Sitter>> for Halves<B> {
    ghost left = { λ vs. take B.at vs };

    ghost right = { λ vs. drop B.at vs };
}

struct Glue;

impl Join<LinkedList<Sitter>> for Glue {
    ghost both = { λ vs us. vs ++ us };

    ghost spent = { [] };
}

/// What is kept of the first worker of a seat.
struct Head;

impl First<Inner> for Head {
    ghost first = { λ seat. head_of seat.me.0 };
}

/// The state of the first worker of a seat, which has used no row yet.
pub(crate) fn first_side(worker: usize, seat: &Inner) -> Side
    requires counts { CountsNone (head_of seat.now.me.0) }
    requires worker { (head_of seat.now.me.0).worker ≡ worker }
    ensures worker { result.worker ≡ worker }
    ensures known { result.known.view ≡ head_of seat.now.me.0 }
{
    Side {
        worker,
        next_number: 0,
        control: 0,
        marks_used: 0,
        known: Known::start::<Head, Inner>(seat),
    }
}

fn cut<B: Point>(table: &Table, seat: &mut Inner, _at: usize) -> Inner
    requires { seat.old.table_id ≡ table.now.inner.shared.table_id }
    ensures table { (seat.new.table_id ≡ seat.old.table_id)
        × (result.table_id ≡ seat.old.table_id) }
    ensures left { seat.new.me ≡ (take B.at seat.old.me.0, seat.old.me.1) }
    ensures right { result.me ≡ (drop B.at seat.old.me.0, []) }
{
    table.inner.shared.split_seat::<Halves<B>>(seat)
}

/// Gives the workers from `at` on a seat of their own. None of them has used a row since the table
/// was made or wiped, so that each may begin as the only worker of a seat, whose counts are 0.
pub fn split(table: &Table, seat: &mut Seat, at: usize) -> Seat
    requires here { SitsAt table.now seat.old }
    requires within { (seat.old.side.worker < at) × (at < seat.old.side.worker + seat.old.count) }
    requires rows { InView (UsedNoRow table.now.shape) (views_of seat.old) }
    ensures left { SitsAt table.now seat.new }
    ensures right { SitsAt table.now result }
    ensures cut { IsCut seat.old seat.new result at }
    ensures rows { InView (UsedNoRow table.now.shape) (views_of seat.new)
        × InView (UsedNoRow table.now.shape) (views_of result) }
    ensures still_fresh { InView IsFresh (views_of seat.old) →
        InView IsFresh (views_of seat.new) × InView IsFresh (views_of result) }
    ensures left_rests { seat.new.count ≡ 1 → SeatRests table.now seat.new }
    ensures right_rests { result.count ≡ 1 → SeatRests table.now result }
{
    let first = seat.side.worker;
    let kept = at - first;
    let inner = cut::<Brand>(table, &mut seat.inner, kept);
    let right = Seat {
        side: first_side(at, &inner),
        inner,
        count: seat.count - kept,
        placed: None,
    };
    seat.side = first_side(first, &seat.inner);
    seat.count = kept;
    seat.placed = None;
    right
}

/// Takes the workers of another seat in, which follow those of this one. All are at rest: the seat
/// of several makes no step, so what one of them had open would never be ended.
pub fn join(table: &Table, seat: &mut Seat, other: Seat)
    requires here { SitsAt table.now seat.old }
    requires other { SitsAt table.now other }
    requires rest { InView IsQuiet (views_of seat.old) }
    requires other_rest { InView IsQuiet (views_of other) }
    requires follows { other.side.worker ≡ seat.old.side.worker + seat.old.count }
    ensures here { SitsAt table.now seat.new }
    ensures joined { IsJoined seat.old other seat.new }
{
    let Seat {
        inner,
        side: _,
        count,
        placed: _,
    } = other;
    table.inner.shared.join_seat::<Glue>(&mut seat.inner, inner);
    seat.side = unused_side(seat.side.worker);
    seat.count += count;
    seat.placed = None;
}
