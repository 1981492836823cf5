//! Rounds of work, until all keys of a list are done.

ghost use Rattle.std.specs.Prelude.{◌↔◌, All, IfOk, IsTrue};
ghost use Rattle.rh_shared.specs.Crews.{HasAll};
ghost use Rattle.rh_threads.specs.Crew.{CanWork, Heeds};
ghost use Rattle.rh_threads.specs.Hands.{IsFinished};
ghost use Rattle.rh_threads.specs.Rounds.{HaveDone};

use crate::crew::{Crew, RefusedStart, Starts, run};
use crate::gate::Gate;
use crate::hand::Hand;
use rh_shared::{Table, wipe};
use std::collections::LinkedList;
use std::sync::Wait;
use std::thread::Threads;

/// Has all workers of the table do keys, round after round, while one of them is spent.
pub(crate) fn rounds<R: Threads + Wait + Sync, G: Gate + Sync, S: Starts + Sync>(
    rt: &R,
    table: &Table,
    crew: Crew,
    keys: &[u64],
    gate: &G,
    starts: &S,
) -> Result<Crew, RefusedStart>
    requires can { CanWork table.now keys.now crew }
    requires all { HasAll table.now crew.seat }
    ensures done { IfOk result (HaveDone table.now keys.now crew) }
    ensures starts { Heeds (S.allows starts.now) 0 table.now.shape.workers result }
{
    let mut crew = crew;
    for _ in rt.forever() {
        crew = run(rt, table, crew, keys, gate, starts)?;
        if are_finished(&crew.hands) {
            return Ok(crew);
        }
        wipe(table, &mut crew.seat);
    }
    unreachable!()
}

/// Whether all keys are done.
fn are_finished(hands: &LinkedList<Hand>) -> bool
    ensures { IsTrue result ↔ All IsFinished hands.now }
{
    hands.iter().all(|hand| hand.is_finished())
}
