ghost use Rattle.std.specs.Prelude.{◌≡◌};
ghost use Rattle.rh_shared.specs.Rests.{SeatRests};

use crate::tables::*;
use rh_kcas::{Outcome, Seat, Table, change};
use rh_layout::MAX_KEY;
use std::process::Abort;
use std::sync::Wait;
use std::test::*;
use std::thread::{Threads, join};

// Each worker has descriptors and marks for so many swaps of two cells, and more marks to help the
// other.
const TRIES: u64 = 100;

/// Moves one from a cell to another, unless the other worker changes one of them meanwhile.
fn move_one<R: Wait + Abort>(rt: &R, table: &Table, seat: &mut Seat, from: usize, to: usize) -> bool
    requires rests { SeatRests table.now seat.old }
    ensures rests { SeatRests table.now seat.new }
    ensures worker { seat.new.side.worker ≡ seat.old.side.worker }
{
    let Some(taken) = value(rt, table, seat, from) else {
        return false;
    };
    let Some(given) = value(rt, table, seat, to) else {
        return false;
    };
    if taken == 0 || given > MAX_KEY {
        return false;
    }
    let take = change(from, taken, taken - 1);
    let give = change(to, given, given + 1);
    let both = if from < to {
        [take, give]
    } else {
        [give, take]
    };
    matches!(swap(rt, table, seat, &both), Outcome::Done)
}

/// Tries so often, and answers how often it moved one.
fn move_often<R: Wait + Abort>(
    rt: &R,
    table: &Table,
    mut seat: Seat,
    from: usize,
    to: usize,
) -> (Seat, u64)
    requires rests { SeatRests table.now seat }
    ensures rests { SeatRests table.now result.0 }
    ensures worker { result.0.side.worker ≡ seat.side.worker }
{
    let mut moved = 0u64;
    for tried in 0..TRIES {
        if move_one(rt, table, &mut seat, from, to) {
            moved += 1;
        }
    }
    (seat, moved)
}

/// One worker moves from cell 2 to cell 6 while the other moves back.
fn move_both<R: Threads + Wait + Abort + Sync>(
    rt: &R,
    table: &Table,
    first: Seat,
    second: Seat,
) -> ((Seat, u64), (Seat, u64))
    requires first { SeatRests table.now first × (first.side.worker ≡ 0) }
    requires second { SeatRests table.now second × (second.side.worker ≡ 1) }
    ensures first { SeatRests table.now result.0.0 × (result.0.0.side.worker ≡ 0) }
    ensures second { SeatRests table.now result.1.0 × (result.1.0.side.worker ≡ 1) }
{
    join(
        rt,
        || -> (Seat, u64)
            requires { SeatRests table.now first × (first.side.worker ≡ 0) }
            ensures { SeatRests table.entry.now result.0 × (result.0.side.worker ≡ 0) }
        { move_often(rt, table, first, 2, 6) },
        || -> (Seat, u64)
            requires { SeatRests table.now second × (second.side.worker ≡ 1) }
            ensures { SeatRests table.entry.now result.0 × (result.0.side.worker ≡ 1) }
        { move_often(rt, table, second, 6, 2) },
    )
}

#[test]
fn two_threads_keep_the_sum_of_two_cells(rt: HostRuntime) -> Result<(), Fail> {
    let cells = [0, 0, 500, 0, 0, 0, 500, 0];
    let (table, first, second) = two_workers(&rt, rt.alloc(), rooms(100, 1000), &cells)?;
    let ((first, there), (second, back)) = move_both(&rt, &table, first, second);
    let left = close_two(table, first, second);
    assert!(rt; there > 0 || back > 0);
    assert_eq!(rt; left[2].checked_add(left[6]), Some(1000));
    assert_eq!(rt; left[2].checked_add(there), back.checked_add(500));
    assert_eq!(rt; left, [0, 0, left[2], 0, 0, 0, left[6], 0]);
    Ok(())
}
