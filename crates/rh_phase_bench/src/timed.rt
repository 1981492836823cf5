//! How long one phase takes.

use crate::random::Random;
use rh_edit::SeqSet;
use rh_layout::is_layout;
use rh_ledger::Kind;
use rh_phase::Threads;
use rh_runner::{Runner, Single};
use std::alloc::Global;
use std::sync::Wait;
use std::thread;
use std::time::{Clock, Duration, Instant};

/// The table has two to this power of cells.
const BITS: u32 = 18;

/// Inserts so many keys into an empty table, or looks them up in a table of them, or removes them.
/// With no workers the phase is that of one that has the table alone.
pub fn phase<R: thread::Threads + Wait + Sync + Clock + AllocGlobal>(
    rt: &R,
    kind: Kind,
    keys: u64,
    workers: usize,
) -> Result<Duration, &'static str> {
    let mut random = Random::new(1);
    let Ok(keys) = random.keys(rt.alloc(), keys, 1 << 31) else {
        return Err("out of memory");
    };
    match workers {
        0 => by(rt, rt.alloc(), &mut Single, kind, &keys),
        1..=16 => by(rt, rt.alloc(), &mut Threads::new(workers), kind, &keys),
        _ => Err("too many workers"),
    }
}

fn by<R: thread::Threads + Wait + Sync + Clock, N: Runner>(
    rt: &R,
    alloc: Global,
    runner: &mut N,
    kind: Kind,
    keys: &[u64],
) -> Result<Duration, &'static str> {
    if keys.len() > 196_608 || keys.iter().any(|key| *key > 1 << 31) {
        return Err("too many keys");
    }
    let first = match kind {
        Kind::Insert => &keys[..0],
        Kind::Ask | Kind::Remove => keys,
    };
    let Ok(set) = SeqSet::from_keys(alloc, BITS, first) else {
        return Err("out of memory");
    };
    let held = set.len();
    let mut cells = set.into_cells();
    let room = match kind {
        Kind::Insert => held + keys.len() < 1 << BITS,
        Kind::Ask | Kind::Remove => held < 1 << BITS,
    };
    if !room || !is_layout(BITS, &cells) {
        return Err("no room");
    }
    let start = Instant::now(rt).map_err(|_| "no clock")?;
    let is_done = match kind {
        Kind::Ask => runner.ask(rt, alloc, BITS, &cells, keys).is_ok(),
        Kind::Insert | Kind::Remove => {
            runner
                .change(rt, alloc, kind, BITS, &mut cells, keys)
                .is_ok()
        }
    };
    let end = Instant::now(rt).map_err(|_| "no clock")?;
    if !is_done {
        return Err("out of memory, or of threads");
    }
    Ok(end.duration_since(start))
}
