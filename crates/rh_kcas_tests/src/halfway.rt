//! A worker that stops on the way of its own swap: its marks are placed and settled, and only the
//! decision is left.

ghost use Rattle.std.specs.Prelude.{◌≡◌, ◌<◌, IsTrue, IfSome, Some};
ghost use Rattle.rh_words.specs.Steps.{AreEntries};
ghost use Rattle.rh_carrier.specs.Own.{KnowsOwn, OwesNothing};
ghost use Rattle.rh_helping.specs.Goal.{opened_by};
ghost use Rattle.rh_kcas_tests.specs.Halfway.{IsIdle, IsHalfway};
ghost use Rattle.rh_shared.specs.Seats.{view_of};
ghost use Rattle.rh_shared.specs.Sits.{Sits, Stays};
ghost use Rattle.rh_carrier.specs.Relies.{Trusts};

use rh_helping::{At, Ended, Machine, OpenDesc, Progress};
use rh_kcas::{Seat, Table, carry_out, open};
use rh_layout::Entry;
use rh_rdcss::status;
use rh_shared::OnTable;
use rh_tagword::State;
use rh_words::{Ref, Shape, Side};
use std::sync::Wait;

/// More steps than a worker makes alone until only the decision is left.
const STEPS: usize = 40;

/// Opens a descriptor of the entries, and stops there. Answers its number.
pub fn open_one(table: &Table, seat: &mut Seat, entries: &[Entry]) -> u64
    requires free { IsIdle table.now seat.old }
    requires entries { AreEntries table.now.shape entries.now }
    requires room { (view_of seat.old).next_number < table.now.shape.rooms.descriptors }
    ensures { IsHalfway table.now seat.new entries.now result }
{
    let number = seat.side.next_number;
    let mut here = OnTable {
        table,
        seat: &mut seat.inner,
    };
    open(&table.shape, &mut here, &mut seat.side, entries);
    number
}

/// Opens a descriptor of the entries, and works at it until it is to be decided. Answers its
/// number, or none where that takes too many steps.
pub fn stop_halfway(table: &Table, seat: &mut Seat, entries: &[Entry]) -> Option<u64>
    requires free { IsIdle table.now seat.old }
    requires entries { AreEntries table.now.shape entries.now }
    requires room { (view_of seat.old).next_number < table.now.shape.rooms.descriptors }
    ensures { IfSome result (λ number. IsHalfway table.now seat.new entries.now number) }
{
    let number = seat.side.next_number;
    let mut here = OnTable {
        table,
        seat: &mut seat.inner,
    };
    open(&table.shape, &mut here, &mut seat.side, entries);
    let own = OpenDesc { number, entries };
    if comes_to_decide(&table.shape, &mut here, &mut seat.side, own) {
        Some(number)
    } else {
        None
    }
}

fn comes_to_decide(shape: &Shape, here: &mut OnTable, side: &mut Side, own: OpenDesc<'_>) -> bool
    requires trusts { Trusts Sits shape.now here.old side.old.known.view }
    requires own { KnowsOwn side.old.known.view (opened_by (Some own)) }
    requires owes { OwesNothing side.old.known.view }
    ensures stays { Stays here.old here.new }
    ensures trusts { Trusts Sits shape.now here.new side.new.known.view }
    ensures own { IsTrue result → KnowsOwn side.new.known.view (opened_by (Some own.entry)) }
    ensures owes { IsTrue result → OwesNothing side.new.known.view }
{
    let mut machine = Machine::about(Ref {
        worker: side.worker,
        number: own.number,
    });
    for made in 0..STEPS {
        let Progress::On = machine.step(shape, here, side, Some(own)) else {
            return false;
        };
        if let At::Succeed = machine.at {
            return true;
        }
    }
    false
}

/// Reads the status of the own descriptor until it is decided, so often at the most, and makes no
/// other step.
pub fn watch(
    table: &Table,
    seat: &mut Seat,
    entries: &[Entry],
    number: u64,
    reads: usize,
) -> Option<State>
    requires { IsHalfway table.now seat.old entries.now number }
    ensures { IsHalfway table.now seat.new entries.now number }
{
    let mut seen = None;
    for made in 0..reads {
        seen = look(table, seat, entries, number);
        if seen != Some(State::Undecided) {
            break;
        }
    }
    seen
}

fn look(table: &Table, seat: &mut Seat, entries: &[Entry], number: u64) -> Option<State>
    requires { IsHalfway table.now seat.old entries.now number }
    ensures { IsHalfway table.now seat.new entries.now number }
{
    let worker = seat.side.worker;
    status(table, seat, Ref { worker, number })
}

/// Goes on with the own swap, and answers how it ended.
pub fn go_on<R: Wait>(
    rt: &R,
    table: &Table,
    seat: &mut Seat,
    entries: &[Entry],
    number: u64,
) -> Ended
    requires { IsHalfway table.now seat.old entries.now number }
    ensures { IsIdle table.now seat.new }
{
    let mut here = OnTable {
        table,
        seat: &mut seat.inner,
    };
    let own = OpenDesc { number, entries };
    carry_out(rt, &table.shape, &mut here, &mut seat.side, own)
}
