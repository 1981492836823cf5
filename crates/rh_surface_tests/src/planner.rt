//! Scripts.

ghost use Rattle.std.specs.FinSet as set;
ghost use Rattle.std.specs.Prelude.{All, length, ◌+◌, ◌<◌, ◌^◌, ◌≡◌, ◌≢◌};
ghost use Rattle.rh_layout.specs.Key.{IsKey};
ghost use Rattle.rh_layout.specs.Layout.{HasFree, IsLayout, keys_of};
ghost use Rattle.rh_threads.specs.Made.{IsWorkers};

use crate::layout::has_room;
use rh_files::Counted;
use rh_ledger::{Kind, Tally};
use rh_planner::{
    Action, Cause, Command, CountedShelf, FaultyShelf, KeyFault, MemShelf, PhaseFault, Plan,
    Report, RunFault, Runner, Script, ScriptFault, ScriptFaultKind, Shelf, ShelfFailure,
    ShelfFault, Single, SnapFault, Step, Threads,
};
use std::alloc::{AllocError, Global};
use std::io::Write;
use std::sync::Wait;
use std::thread;

pub fn parse(alloc: Global, text: &[u8]) -> Result<Script, ScriptFault> {
    rh_planner::parse(alloc, text)
}

pub fn plan(alloc: Global, script: &Script) -> Result<Plan<'_>, AllocError> {
    rh_planner::plan(alloc, script)
}

pub fn script_steps(script: &Script) -> &[Step] {
    script.steps()
}

pub fn plan_steps<'a>(plan: &Plan<'a>) -> &'a [Step] {
    plan.steps()
}

pub fn threads_new(workers: usize) -> Threads
    requires { IsWorkers workers }
{
    Threads::new(workers)
}

pub fn mem_shelf_new(alloc: Global) -> MemShelf {
    MemShelf::new(alloc)
}

pub fn run<T: thread::Threads + Wait + Sync, S: Shelf, N: Runner, W: Write>(
    rt: &T,
    alloc: Global,
    script: &Script,
    shelf: &mut S,
    runner: &mut N,
    writer: &mut Counted<W>,
) -> Result<Report, RunFault> {
    rh_planner::run(rt, alloc, script, shelf, runner, writer)
}

/// The same over a shelf of which the failed reads are counted.
pub fn run_counted<T: thread::Threads + Wait + Sync, S: Shelf, N: Runner, W: Write>(
    rt: &T,
    alloc: Global,
    script: &Script,
    shelf: &mut CountedShelf<S>,
    runner: &mut N,
    writer: &mut Counted<W>,
) -> Result<Report, RunFault> {
    rh_planner::run(rt, alloc, script, shelf, runner, writer)
}

pub fn counted_shelf_new<S: Shelf>(shelf: S) -> CountedShelf<S> {
    CountedShelf::new(shelf)
}

pub fn failed_reads<S: Shelf>(shelf: &CountedShelf<S>) -> u64 {
    shelf.failed_reads()
}

pub fn faulty_shelf_new(shelf: MemShelf, failure: ShelfFailure) -> FaultyShelf {
    FaultyShelf::new(shelf, failure)
}

pub fn runner_change<N: Runner, R: thread::Threads + Wait + Sync>(
    runner: &mut N,
    rt: &R,
    alloc: Global,
    kind: Kind,
    bits: u32,
    cells: &mut Vec<u64>,
    keys: &[u64],
) -> Result<Tally, PhaseFault>
    requires kind { kind ≢ Kind.Ask }
    requires keys { All IsKey keys.now }
    requires layout { IsLayout bits cells.old.items }
    requires room { kind ≡ Kind.Insert →
        set.len (keys_of cells.old.items) + length keys.now < 2 ^ bits }
    requires free { kind ≡ Kind.Remove → HasFree cells.old.items }
{
    has_room(bits, cells);
    runner.change(rt, alloc, kind, bits, cells, keys)
}

pub fn runner_ask<N: Runner, R: thread::Threads + Wait + Sync>(
    runner: &mut N,
    rt: &R,
    alloc: Global,
    bits: u32,
    cells: &[u64],
    keys: &[u64],
) -> Result<Vec<bool>, PhaseFault>
    requires keys { All IsKey keys.now }
    requires layout { IsLayout bits cells.now }
    requires free { HasFree cells.now }
{
    has_room(bits, cells);
    runner.ask(rt, alloc, bits, cells, keys)
}

pub fn single() -> Single {
    Single
}

pub fn shelf_fetch<S: Shelf>(
    shelf: &mut S,
    alloc: Global,
    path: &str,
) -> Result<S::Reader, ShelfFault> {
    shelf.fetch(alloc, path)
}

pub fn shelf_put<S: Shelf>(
    shelf: &mut S,
    alloc: Global,
    path: &str,
    bytes: &[u8],
) -> Result<(), ShelfFault> {
    shelf.put(alloc, path, bytes)
}

pub fn commands(step: &Step) -> (u64, Option<usize>) {
    match &step.command {
        Command::Use { name: _, path: _ }
        | Command::Act { action: _, name: _ }
        | Command::Save { name: _ }
        | Command::Clear
        | Command::Dump
        | Command::Snapshot { path: _ }
        | Command::Restore { path: _ } => {}
    }
    (step.line, step.list)
}

pub fn actions(action: Action) {
    match action {
        Action::Add | Action::Drop | Action::Keep | Action::Flip | Action::Ask => {}
    }
}

pub fn variants(kind: ScriptFaultKind, fault: ShelfFault, cause: Cause) {
    match kind {
        ScriptFaultKind::TooLong
        | ScriptFaultKind::BadCommand
        | ScriptFaultKind::BadName
        | ScriptFaultKind::Unknown
        | ScriptFaultKind::Twice
        | ScriptFaultKind::Memory => {}
    }
    match fault {
        ShelfFault::Missing | ShelfFault::Write | ShelfFault::Memory => {}
    }
    match cause {
        Cause::Keys(fault) => {
            let _: KeyFault = fault;
        }
        Cause::Snap(fault) => {
            let _: SnapFault = fault;
        }
        Cause::Missing
        | Cause::Changed
        | Cause::TooLarge
        | Cause::Memory
        | Cause::NoThread
        | Cause::Put
        | Cause::Write => {}
    }
}

pub fn fields(
    kind: ScriptFaultKind,
    cause: Cause,
    number: u64,
    bits: u32,
) -> (ScriptFault, RunFault, Report) {
    let report = Report {
        commands: number,
        held: number,
        bits,
    };
    (
        ScriptFault { line: number, kind },
        RunFault {
            line: number,
            cause,
        },
        report,
    )
}
