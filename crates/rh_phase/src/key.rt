//! One key, done by one worker at a table that others change too.

ghost use Rattle.std.specs.Prelude.{◌≡◌, ◌^◌, IfNone, IfSome, length};
ghost use Rattle.rh_layout.specs.Key.{IsKey};
ghost use Rattle.rh_order.specs.History.{own_acts_of};
ghost use Rattle.rh_shared.specs.Rests.{SeatRests, StaysAtRest};
ghost use Rattle.rh_shared.specs.Seats.{view_of};
ghost use Rattle.rh_threads.specs.Keys.{Furthers, KeySpec};
ghost use Rattle.rh_worker.specs.Worker.{HasNoRoom};

use rh_layout::Entry;
use rh_ledger::Kind;
use rh_shared::{Seat, Table};
use rh_threads::{KeyTask, Tried};
use std::sync::Wait;

/// Inserts, removes or looks up a key, and answers whether it was added, removed or found; none
/// where the worker has too little room left for it. The cells from the key's home on are read in
/// turn until they decide; the entries of an act that they ask for are changed by one swap of
/// several cells, and where that fails the key begins again (Kelly, Pearlmutter and Maguire 2018).
/// `news` is lent by its callers, and not used: the entries get the new values at once.
pub fn do_key<R: Wait>(
    rt: &R,
    table: &Table,
    seat: &mut Seat,
    bits: u32,
    kind: Kind,
    key: u64,
    seen: &mut [u64],
    news: &mut [u64],
    entries: &mut [Entry],
) -> Option<bool>
    requires rests { SeatRests table.now seat.old }
    requires bits { table.now.shape.bits ≡ bits }
    requires key { IsKey key }
    requires seen { length seen.old ≡ 2 ^ bits }
    requires news { length news.old ≡ 2 ^ bits }
    requires entries { length entries.old ≡ 2 ^ bits }
    ensures stays { StaysAtRest table.now seat.old seat.new }
    ensures claims { (view_of seat.new).side.claims ≡ (view_of seat.old).side.claims }
    ensures opening { (view_of seat.new).opening ≡ (view_of seat.old).opening }
    ensures furthers { Furthers table.now.shape kind key (view_of seat.old)
        (view_of seat.new) result }
    ensures done { IfSome result
        (KeySpec table.now.shape kind key (view_of seat.old) (view_of seat.new)) }
    ensures spent { IfNone result (HasNoRoom table.now.shape (view_of seat.new)
        × (own_acts_of (view_of seat.new) ≡ own_acts_of (view_of seat.old))) }
{
    for _ in rt.forever() {
        let task = KeyTask {
            rt,
            table,
            kind,
            key,
        };
        match task.try_key(seat, seen, entries) {
            Tried::Done(answer) => return Some(answer),
            Tried::Spent => return None,
            Tried::Again | Tried::Longer => {}
        }
    }
    unreachable!()
}
