//! The threads of a seat's workers, which fork in halves and join again.

ghost use Rattle.std.specs.Prelude.{◌<◌};
ghost use Rattle.std.specs.Thread.{IsSync};
ghost use Rattle.rh_crew.specs.Worked.{HaveWorked};
ghost use Rattle.rh_shared.specs.Crews.{HasAll, SitsAt, IsFresh, views_of};
ghost use Rattle.rh_shared.specs.Rests.{SeatRests, StaysAtRest};
ghost use Rattle.rh_rule.specs.Seats.{InView};

use rh_shared::{Seat, Table, join, split, wipe};
use std::thread;
use std::thread::Threads;

/// What each worker does at the table, and what becomes of what they tell.
pub trait Work<R, T> {
    /// The work of one worker, of whom nothing is owed afterwards.
    fn work(&self, rt: &R, table: &Table, seat: Seat) -> (Seat, T)
        requires { SeatRests table.now seat }
        ensures { StaysAtRest table.now seat result.0 };

    /// What the workers of two seats tell together, those of the first seat before the others.
    fn both(&self, first: T, second: T) -> T;
}

/// Has each worker of the seat do its work: the first half of them on this thread, the others on a
/// new one, and so on in each half. Where no thread can be started, one half works after the other.
pub fn all_work<R: Threads + Sync, T: Send, W: Work<R, T> + Sync>(
    rt: &R,
    table: &Table,
    seat: Seat,
    work: &W,
) -> (Seat, T)
    requires here { SitsAt table.now seat }
    requires fresh { InView IsFresh (views_of seat) }
    ensures { HaveWorked table.now seat result.0 }
{
    if seat.count == 1 {
        return one_work(rt, table, seat, work);
    }
    let mut first = seat;
    let at = first.side.worker + first.count / 2;
    let second = split(table, &mut first, at);
    let ((others, theirs), (mut all, ours)) = thread::join(
        rt,
        || -> (Seat, T)
            requires { IsSync R.row × IsSync W.row × SitsAt table.now second
                × InView IsFresh (views_of second) }
            ensures { HaveWorked table.entry.now second result.0 }
        { all_work(rt, table, second, work) },
        || -> (Seat, T)
            requires { IsSync R.row × IsSync W.row × SitsAt table.now first
                × InView IsFresh (views_of first) }
            ensures { HaveWorked table.entry.now first result.0 }
        { all_work(rt, table, first, work) },
    );
    join(table, &mut all, others);
    (all, work.both(ours, theirs))
}

/// Has the only worker of the seat do its work. (It is called apart, so that the work has all
/// registers, where in one function with the forks it was 1.05 times as many instructions a swap.)
#[inline(never)]
fn one_work<R, T, W: Work<R, T>>(rt: &R, table: &Table, seat: Seat, work: &W) -> (Seat, T)
    requires { SeatRests table.now seat }
    ensures { StaysAtRest table.now seat result.0 }
{
    work.work(rt, table, seat)
}

/// One round: all workers of the table do their work, then the rows are wiped.
pub fn round<R: Threads + Sync, T: Send, W: Work<R, T> + Sync>(
    rt: &R,
    table: &Table,
    seat: Seat,
    work: &W,
) -> (Seat, T)
    requires all { HasAll table.now seat }
    requires fresh { InView IsFresh (views_of seat) }
    ensures all { HasAll table.now result.0 }
    ensures fresh { InView IsFresh (views_of result.0) }
{
    let (mut all, outcome) = all_work(rt, table, seat, work);
    wipe(table, &mut all);
    (all, outcome)
}

/// One round of the first so many workers of the table, while the others rest: they do their work,
/// then the rows are wiped.
pub fn round_of<R: Threads + Sync, T: Send, W: Work<R, T> + Sync>(
    rt: &R,
    table: &Table,
    seat: Seat,
    workers: usize,
    work: &W,
) -> (Seat, T)
    requires all { HasAll table.now seat }
    requires fresh { InView IsFresh (views_of seat) }
    requires workers { (0 < workers) × (workers < table.now.shape.workers) }
    ensures all { HasAll table.now result.0 }
    ensures fresh { InView IsFresh (views_of result.0) }
{
    let mut working = seat;
    let resting = split(table, &mut working, workers);
    let (mut all, outcome) = all_work(rt, table, working, work);
    join(table, &mut all, resting);
    wipe(table, &mut all);
    (all, outcome)
}
