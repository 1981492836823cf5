//! The workers of a phase in threads, whose start may be refused.

ghost use Rattle.std.specs.Prelude.{◌≡◌, ◌+◌, ◌<◌, ◌++◌, IfErr, IfOk, OnOk, true};
ghost use Rattle.std.specs.Thread.{IsSync};
ghost use Rattle.rh_shared.specs.Crews.{SitsAt, IsJoined};
ghost use Rattle.rh_threads.specs.Crew.{AllMayStart, AreResting, CanWork, CutsInHalves, HaveWorked};
ghost use Rattle.rh_threads.specs.Crew.{Heeds, RefusedBy};

use crate::gate::Gate;
use crate::hand::Hand;
use crate::seated::work;
use rh_shared::{Seat, Table, join, split};
use std::collections::LinkedList;
use std::snapshot::Snapshot;
use std::sync::Wait;
use std::thread;
use std::thread::{Promise, Threads};

/// Which threads may be started: a test refuses some.
pub trait Starts {
    ghost use Rattle.std.specs.Prelude.{◌≡◌, ℕ, Bool};

    ghost allows: { Self → ℕ → Bool };

    /// Whether the half whose first worker this is may have a thread.
    fn allowed(&self, worker: usize) -> bool
        ensures { result ≡ allows self.now worker };
}

/// Each thread may be started.
#[derive(Drop)]
pub struct AllStart;

impl Starts for AllStart {
    ghost use Rattle.std.specs.Prelude.{true};

    ghost allows = { λ _ _. true };

    fn allowed(&self, _worker: usize) -> bool {
        true
    }
}

/// Why a thread was not started.
#[derive(Clone, Copy)]
pub enum RefusedStart {
    /// The half whose first worker this is may have none.
    NotAllowed { worker: usize },
    /// The system refused that of this half.
    NotStarted { worker: usize },
}

/// Workers of a phase that follow one another, and their seat. The list is cut and glued without
/// memory.
/// A half goes to its thread and comes back by value, which is how its thread can promise what it
/// did.
#[derive(Drop)]
pub(crate) struct Crew {
    pub seat: Seat,
    pub hands: LinkedList<Hand>,
}

/// What the thread of a half owes.
#[derive(Drop)]
struct HalfOf<'a, S> {
    table: &'a Table,
    keys: &'a [u64],
    starts: &'a S,
    crew: Snapshot<Crew>,
}

impl<'a, S: Starts> Promise<Result<Crew, RefusedStart>> for HalfOf<'a, S> {
    ghost kept_by = { λ p r. IfOk r (HaveWorked p.table.now p.keys.now p.crew.value)
        × Heeds (S.allows p.starts.now) p.crew.value.seat.side.worker
        p.crew.value.seat.count r };
}

/// The first half of the workers, and the others.
fn cut(table: &Table, keys: &[u64], crew: Crew) -> (Crew, Crew)
    requires many { 1 < crew.seat.count }
    requires can { CanWork table.now keys.now crew }
    ensures { CutsInHalves table.now keys.now crew result.0 result.1 }
{
    let Crew {
        mut seat,
        mut hands,
    } = crew;
    let half = seat.count / 2;
    let at = seat.side.worker + half;
    let others = split(table, &mut seat, at);
    // (it takes no memory)
    let right = hands.split_off(half).unwrap();
    let right = Crew {
        seat: others,
        hands: right,
    };
    (Crew { seat, hands }, right)
}

/// All of them again, who are at rest.
fn glue(table: &Table, left: Crew, right: Crew) -> Crew
    requires left { AreResting table.now left }
    requires right { AreResting table.now right }
    requires follows { right.seat.side.worker ≡ left.seat.side.worker + left.seat.count }
    ensures here { SitsAt table.now result.seat }
    ensures seats { IsJoined left.seat right.seat result.seat }
    ensures hands { result.hands ≡ left.hands ++ right.hands }
{
    let Crew {
        mut seat,
        mut hands,
    } = left;
    let Crew {
        seat: others,
        hands: mut more,
    } = right;
    join(table, &mut seat, others);
    // (it takes no memory)
    hands.append(&mut more).unwrap();
    Crew { seat, hands }
}

/// Has each worker do keys, in threads that fork in halves: the first half works on this thread,
/// the others on a new one, and so on in each half. Where a start is refused, those that were
/// started are waited for.
pub(crate) fn run<R: Threads + Wait + Sync, G: Gate + Sync, S: Starts + Sync>(
    rt: &R,
    table: &Table,
    crew: Crew,
    keys: &[u64],
    gate: &G,
    starts: &S,
) -> Result<Crew, RefusedStart>
    requires can { CanWork table.now keys.now crew }
    ensures worked { IfOk result (HaveWorked table.now keys.now crew) }
    ensures starts { Heeds (S.allows starts.now) crew.seat.side.worker crew.seat.count
        result }
{
    if crew.seat.count == 1 {
        return Ok(work(rt, table, crew, keys, gate));
    }
    let (left, right) = cut(table, keys, crew);
    let at = right.seat.side.worker;
    if !starts.allowed(at) {
        return Err(RefusedStart::NotAllowed { worker: at });
    }
    let (left, right) = thread::scope(
        thread::scope_env(),
        rt,
        move |scope| -> Result<(Crew, Crew), RefusedStart>
            requires { IsSync R.row × IsSync G.row × IsSync S.row × CanWork table.now keys.now left
                × CanWork table.now keys.now right × (S.allows starts.now at ≡ true) }
            ensures { IfOk result (λ r. HaveWorked table.entry.now keys.entry.now left r.0
                × HaveWorked table.entry.now keys.entry.now right r.1)
                × OnOk result (AllMayStart (S.allows starts.entry.now) left.seat.side.worker
                left.seat.count × AllMayStart (S.allows starts.entry.now) right.seat.side.worker
                right.seat.count)
                × IfErr result (RefusedBy (S.allows starts.entry.now)) }
        {
            let promise = HalfOf {
                table,
                keys,
                starts,
                crew: Snapshot::of(&right),
            };
            let started = scope.spawn_with(
                promise,
                move || -> Result<Crew, RefusedStart>
                    requires { IsSync R.row × IsSync G.row × IsSync S.row
                        × CanWork table.now keys.now right }
                    ensures { IfOk result (HaveWorked table.entry.now keys.entry.now right)
                        × Heeds (S.allows starts.entry.now) right.seat.side.worker
                        right.seat.count result }
                { run(rt, table, right, keys, gate, starts) },
            );
            match started {
                Ok(child) => {
                    let mine = run(rt, table, left, keys, gate, starts);
                    let theirs = child.join(rt);
                    Ok((mine?, theirs?))
                }
                Err(_) => Err(RefusedStart::NotStarted { worker: at }),
            }
        },
    )?;
    Ok(glue(table, left, right))
}
