//! The keys of one worker, each to its end.

ghost use Rattle.std.specs.Prelude.{◌≡◌, All, IsFalse, IsTrue, true};
ghost use Rattle.rh_layout.specs.Key.{IsKey};
ghost use Rattle.rh_threads.specs.Crew.{IsAtWork, WorksOn};
ghost use Rattle.rh_threads.specs.Hands.{HasStopped, IsFinished};
ghost use Rattle.rh_shared.specs.Seats.{view_of};

use crate::gate::Gate;
use crate::hand::Hand;
use crate::key::KeyTask;
use rh_shared::{Seat, Table, claim};
use std::sync::Wait;

/// Does the key that it left, and each that it claims, until none is left to claim, or the worker
/// has too little room left: then it leaves its key for another round.
pub(crate) fn do_keys<R: Wait, G: Gate>(
    rt: &R,
    table: &Table,
    seat: &mut Seat,
    hand: &mut Hand,
    keys: &[u64],
    gate: &G,
)
    requires at { IsAtWork table.now keys.now hand.old seat.old }
    requires keys { All IsKey keys.now }
    ensures works { WorksOn table.now keys.now hand.old seat.old hand.new seat.new }
    ensures stopped { HasStopped table.now.shape hand.new (view_of seat.new) }
{
    for _ in rt.forever() {
        if !next_key(table, seat, hand, keys, gate) {
            return;
        }
        let task = KeyTask {
            rt,
            table,
            kind: hand.kind,
            key: keys[hand.position],
        };
        match task.do_in_buffer(seat, &mut hand.buffer) {
            Some(answer) => {
                gate.after(table, seat, table.shape.bits, task.kind, task.key, answer);
                hand.count(answer);
            }
            None => return,
        }
    }
    unreachable!()
}

/// Takes up the key that it left, or claims the next one. There is none at the end of the list.
fn next_key<G: Gate>(
    table: &Table,
    seat: &mut Seat,
    hand: &mut Hand,
    keys: &[u64],
    gate: &G,
) -> bool
    requires at { IsAtWork table.now keys.now hand.old seat.old }
    ensures works { WorksOn table.now keys.now hand.old seat.old hand.new seat.new }
    ensures has_key { IsTrue result → hand.new.has_key ≡ true }
    ensures finished { IsFalse result → IsFinished hand.new }
{
    if hand.has_key {
        return true;
    }
    if hand.ended {
        return false;
    }
    let Some(position) = claim(table, seat) else {
        hand.ended = true;
        return false;
    };
    hand.position = position as usize;
    hand.has_key = true;
    gate.before(seat.side.worker, hand.done);
    true
}
