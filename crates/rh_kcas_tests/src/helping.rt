//! A worker that stops before its decision is helped to it by another one, on a thread of its own.

ghost use Rattle.std.specs.Prelude.{◌≡◌};
ghost use Rattle.rh_shared.specs.Rests.{SeatRests};
ghost use Rattle.rh_kcas_tests.specs.Halfway.{IsHalfway};

use crate::halfway::{go_on, stop_halfway, watch};
use crate::tables::*;
use rh_helping::{Ended, named_desc};
use rh_kcas::{Outcome, Seat, Table, are_entries, change, help};
use rh_layout::Entry;
use rh_rdcss::peek_cell;
use rh_tagword::State;
use std::alloc::{AllocError, Global};
use std::process::Abort;
use std::sync::Wait;
use std::test::*;
use std::thread::{Threads, join};

// So often each run is made, each time on a table of its own.
const RUNS: usize = 100;

// The worker that stops goes on by itself where so many Reads tell of no help.
const READS: usize = 100_000_000;

/// How it ended for the two workers.
#[derive(Drop)]
struct Endings {
    /// The status that the worker that stopped saw last.
    seen: Option<State>,
    /// How its swap ended.
    ended: Ended,
    /// What became of the other worker's own swap, if it tried one.
    own: Option<Outcome>,
    /// The value in the cell at the end.
    left: Option<u64>,
}

/// A worker that stopped before the decision of its descriptor of this number.
#[derive(Drop)]
struct Stopped {
    seat: Seat,
    number: u64,
}

/// One worker stops before its decision on cell 4, and the other one swaps the same cell, or helps.
fn run<R: Threads + Wait + Abort + Sync>(
    rt: &R,
    alloc: Global,
    swaps: bool,
) -> Result<Endings, AllocError> {
    let (table, first, second) = two_workers(rt, alloc, rooms(8, 8), &[0; 8])?;
    let entries = [change(4, 0, 9)];
    let first = stop(rt, &table, first, &entries);
    let ((mut first, seen), (mut second, own)) = both(rt, &table, first, second, &entries, swaps);
    let ended = go_on(rt, &table, &mut first.seat, &entries, first.number);
    let left = value(rt, &table, &mut second, 4);
    Ok(Endings {
        seen,
        ended,
        own,
        left,
    })
}

fn stop<R: Abort>(rt: &R, table: &Table, seat: Seat, entries: &[Entry]) -> Stopped
    requires { SeatRests table.now seat }
    ensures { IsHalfway table.now result.seat entries.now result.number }
{
    let mut seat = seat;
    assert!(rt; are_entries(&table.shape, entries));
    assert!(rt; seat.side.next_number < table.shape.rooms.descriptors);
    let number = stop_halfway(table, &mut seat, entries);
    Stopped {
        seat,
        number: number.expect(rt, "the worker comes to its decision"),
    }
}

fn both<R: Threads + Wait + Abort + Sync>(
    rt: &R,
    table: &Table,
    first: Stopped,
    second: Seat,
    entries: &[Entry],
    swaps: bool,
) -> ((Stopped, Option<State>), (Seat, Option<Outcome>))
    requires first { IsHalfway table.now first.seat entries.now first.number }
    requires second { SeatRests table.now second }
    ensures first { IsHalfway table.now result.0.0.seat entries.now result.0.0.number }
    ensures second { SeatRests table.now result.1.0 }
{
    join(
        rt,
        || -> (Stopped, Option<State>)
            requires { IsHalfway table.now first.seat entries.now first.number }
            ensures { IsHalfway table.entry.now result.0.seat entries.entry.now result.0.number }
        { wait_for_help(table, first, entries) },
        || -> (Seat, Option<Outcome>)
            requires { SeatRests table.now second }
            ensures { SeatRests table.entry.now result.0 }
        { swap_or_help(rt, table, second, swaps) },
    )
}

fn wait_for_help(table: &Table, first: Stopped, entries: &[Entry]) -> (Stopped, Option<State>)
    requires { IsHalfway table.now first.seat entries.now first.number }
    ensures { IsHalfway table.now result.0.seat entries.now result.0.number }
{
    let mut first = first;
    let seen = watch(table, &mut first.seat, entries, first.number, READS);
    (first, seen)
}

fn swap_or_help<R: Wait + Abort>(
    rt: &R,
    table: &Table,
    seat: Seat,
    swaps: bool,
) -> (Seat, Option<Outcome>)
    requires { SeatRests table.now seat }
    ensures { SeatRests table.now result.0 }
{
    let mut seat = seat;
    if swaps {
        let own = swap(rt, table, &mut seat, &[change(4, 0, 1)]);
        return (seat, Some(own));
    }
    help_at(rt, table, &mut seat, 4);
    (seat, None)
}

/// Helps the descriptor that stands in the cell.
fn help_at<R: Wait + Abort>(rt: &R, table: &Table, seat: &mut Seat, cell: usize)
    requires { SeatRests table.now seat.old }
    ensures { SeatRests table.now seat.new }
{
    assert!(rt; cell < table.shape.cells());
    let word = peek_cell(table, seat, cell);
    let desc = named_desc(word).expect(rt, "a descriptor stands in the cell");
    help(rt, table, seat, desc);
}

// A worker that only waited until the descriptor is decided would wait for ever.
#[test]
fn who_swaps_the_cell_helps_first(rt: HostRuntime) -> Result<(), Fail> {
    for _ in 0..RUNS {
        let endings = run(&rt, rt.alloc(), true)?;
        assert_eq!(rt; endings.seen, Some(State::Succeeded));
        assert_eq!(rt; endings.ended, Ended::Succeeded);
        assert_eq!(rt; endings.own, Some(Outcome::Failed { entry: 0 }));
        assert_eq!(rt; endings.left, Some(9));
    }
    Ok(())
}

#[test]
fn who_peeks_at_the_cell_helps(rt: HostRuntime) -> Result<(), Fail> {
    for _ in 0..RUNS {
        let endings = run(&rt, rt.alloc(), false)?;
        assert_eq!(rt; endings.seen, Some(State::Succeeded));
        assert_eq!(rt; endings.ended, Ended::Succeeded);
        assert_eq!(rt; endings.left, Some(9));
    }
    Ok(())
}
