//! The program that `benchmarks/kcas` times: threads that swap several cells of one table.
#![tactic(auto)]

ghost use Rattle.std.specs.Prelude.{◌≡◌, IfOk};
ghost use Rattle.rh_shared.specs.Crews.{HasAll, IsFresh, views_of};
ghost use Rattle.rh_rule.specs.Seats.{InView};

mod line;
mod load;

use line::Line;
use load::{BITS, Load, RoundTime};
use rh_crew::round_of;
use rh_kcas::{Seat, Table, make};
use rh_words::{MAX_WORKERS, Rooms, Shape};
use std::alloc::{AllocError, Global};
use std::env;
use std::env::Env;
use std::process::ExitCode;
use std::sync::Wait;
use std::thread::Threads;
use std::time::Clock;

const USAGE: &str = "usage: rh_kcas_bench THREADS ENTRIES own|same ROUNDS [timed]
  THREADS  1 to 8
  ENTRIES  1 to 8: how many cells each swap changes
  own      each thread changes cells of its own
  same     all threads change the same cells
  ROUNDS   so often each thread tries swaps of 4000 entries in all, and the rows are wiped
  timed    tells how long the threads swapped, all their times together, in all rounds and in the
           fastest one";

fn main(rt: HostRuntime) -> ExitCode {
    match carry_out(&rt) {
        Ok(()) => ExitCode::SUCCESS,
        Err(fault) => {
            let _ = eprintln!(rt; "{fault}");
            ExitCode::FAILURE
        }
    }
}

fn carry_out(
    rt: &(impl Env + Threads + Wait + Sync + Clock + Print + AllocGlobal),
) -> Result<(), &'static str> {
    let args = env::args(rt).map_err(|_| "cannot read the command line")?;
    let words: Vec<String> = args.collect(rt.alloc()).map_err(|_| "out of memory")?;
    let Some(line) = words.get(1..).and_then(line::parse_line) else {
        return Err(USAGE);
    };
    let Measured { all, fastest } = measure(rt, &line).map_err(|_| "out of memory")?;
    let printed = if line.timed {
        println!(rt;
            "{} swaps in {} ns, {} in {} ns",
            all.done, all.nanos, fastest.done, fastest.nanos
        )
    } else {
        println!(rt; "{} swaps", all.done)
    };
    printed.map_err(|_| "cannot write the output")
}

/// What rounds of swaps took, all together, and the fastest of them.
struct Measured {
    all: RoundTime,
    fastest: RoundTime,
}

fn measure(
    rt: &(impl Threads + Wait + Sync + Clock + AllocGlobal),
    line: &Line,
) -> Result<Measured, AllocError> {
    let (table, seat) = empty_table(rt.alloc())?;
    let load = Load {
        entries: line.entries,
        own: line.own,
    };
    let mut seat = seat;
    let mut all = RoundTime { done: 0, nanos: 0 };
    let mut fastest = RoundTime {
        done: 0,
        nanos: u64::MAX,
    };
    for _ in 0..line.rounds {
        let (next, took) = round_of(rt, &table, seat, line.threads, &load);
        seat = next;
        all.done = all.done.wrapping_add(took.done);
        all.nanos = all.nanos.wrapping_add(took.nanos);
        if took.nanos < fastest.nanos {
            fastest = took;
        }
    }
    Ok(Measured { all, fastest })
}

/// A table of cells that all hold nought, with the seat of as many workers as a table may have, of
/// whom most rest: each has a reason for each of them, so the words that one worker writes lie two
/// lines of a cache from those of the next.
fn empty_table(alloc: Global) -> Result<(Table, Seat), AllocError>
    ensures workers { IfOk result (λ r. r.0.shape.workers ≡ MAX_WORKERS) }
    ensures all { IfOk result (λ r. HasAll r.0 r.1) }
    ensures fresh { IfOk result (λ r. InView IsFresh (views_of r.1)) }
{
    let shape = Shape {
        bits: BITS,
        workers: MAX_WORKERS,
        keys: 0,
        rooms: Rooms::usual(),
    };
    make(alloc, shape, &[0; 1 << BITS])
}
