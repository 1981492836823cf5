//! One call of a phase on a small table, and what it leaves, also where it is refused memory or a
//! thread.

ghost use Rattle.std.specs.Prelude.{◌≤◌};
ghost use Rattle.std.specs.FinSet as set;
ghost use Rattle.rh_layout.specs.Layout.{IsLayout, keys_of};
ghost use Rattle.rh_threads.specs.Made.{IsWorkers};

use rh_edit::SeqSet;
use rh_layout::is_layout;
use rh_ledger::Kind;
use rh_phase::{OpenGate, PhaseFault, ask, change};
use std::alloc::Global;
use std::sync::Wait;
use std::thread::Threads;

/// The keys of the phase, on a table of 3 bits that holds 1, 9 and 17.
const KEYS: [u64; 3] = [9, 3, 9];

/// Makes the phase by so many workers, and writes of how many keys it tells that they were added,
/// removed or found, or else why it was not carried out; and the cells after it, in a line each.
pub fn tell<R: Threads + Wait + Sync + Print + AllocGlobal>(
    rt: &R,
    kind: Kind,
    workers: usize,
) -> Result<(), &'static str> {
    if workers < 1 || workers > 16 {
        return Err("too many workers, or none");
    }
    let Ok(set) = SeqSet::from_keys(rt.alloc(), 3, &[1, 9, 17]) else {
        return Err("out of memory");
    };
    let held = set.len();
    let mut cells = set.into_cells();
    if held > 3 || !is_layout(3, &cells) {
        return Err("no room");
    }
    let told = call(rt, rt.alloc(), kind, workers, &mut cells);
    let written = match told {
        Ok(many) => println!(rt; "{many}"),
        Err(fault) => println!(rt; "{fault}"),
    };
    let mut is_written = written.is_ok();
    for cell in &cells {
        is_written = is_written && print!(rt; "{cell} ").is_ok();
    }
    if is_written && println!(rt).is_ok() {
        Ok(())
    } else {
        Err("cannot write the output")
    }
}

fn call<R: Threads + Wait + Sync>(
    rt: &R,
    alloc: Global,
    kind: Kind,
    workers: usize,
    cells: &mut Vec<u64>,
) -> Result<u64, PhaseFault>
    requires workers { IsWorkers workers }
    requires layout { IsLayout 3 cells.old.items }
    requires room { set.len (keys_of cells.old.items) ≤ 3 }
{
    match kind {
        Kind::Ask => {
            let found = ask(rt, alloc, workers, 3, cells, &KEYS, &OpenGate)?;
            Ok(found.iter().filter(|there| **there).count() as u64)
        }
        Kind::Insert | Kind::Remove => {
            let told = change(rt, alloc, workers, kind, 3, cells, &KEYS, &OpenGate)?;
            Ok(told.added.saturating_add(told.removed))
        }
    }
}
