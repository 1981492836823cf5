//! The program `rhset`: a set of whole numbers in one Robin Hood hash table, and commands on it.
#![tactic(auto)]

ghost use Rattle.rh_set_program.specs.Scripts.{EndsScript};
ghost use Rattle.rh_threads.specs.Made.{IsWorkers};

use rh_arguments::LineFault;
use rh_bytes::Progress;
use rh_cli::{
    Outlet, ProgramFault, ProgressLine, STANDARD_INPUT, Status, answer, hold_closed, size_of, words,
};
use rh_commands::line::{Line, line};
use rh_runner::Single;
use rh_set_program::{
    Fault, Note, Output, check_file, conclude, dump_streams, note_on_check, note_on_dump,
    note_on_unwritten, run_by,
};
use rh_streams::tell_note;
use rh_threads::Threads;
use std::cell::RefCell;
use std::env::Env;
use std::fs::Files;
use std::io::{self, IsTerminal, Write};
use std::process::ExitCode;
use std::sync::Wait;
use std::thread;
use std::time::Clock;

fn main(rt: HostRuntime) -> ExitCode {
    let _held = hold_closed(&rt);
    let mut outlet = Outlet::new(io::writer(&rt));
    let stream = rt.stderr();
    let is_terminal = stream.is_terminal();
    let mut progress = RefCell::new(ProgressLine::new(&rt, stream, is_terminal));
    let mut note = None;
    let by_line = rt.stdout().is_terminal();
    let outcome = carry_out(&rt, &mut outlet, by_line, &mut progress, &mut note);
    progress.get_mut().clear();
    let status = conclude(&rt, &outcome);
    if is_terminal {
        let of_output = note_on_unwritten(rt.alloc(), &outcome, outlet.last_failure());
        tell_note(&rt, "rhset", &note);
        tell_note(&rt, "rhset", &of_output);
    }
    ExitCode::from(status)
}

// Carries out the command. What is known besides a fault is left in `note`.
fn carry_out<R, W: Write, E: Write>(
    rt: &R,
    outlet: &mut Outlet<W>,
    by_line: bool,
    progress: &mut RefCell<ProgressLine<'_, R, E>>,
    note: &mut Option<Note>,
) -> Result<Status, Fault>
where
    R: Clock + Env + Files + Input + Print + Eprint + AllocGlobal + thread::Threads + Wait + Sync,
{
    let words = words(rt)?;
    match line(rt.alloc(), &words) {
        Ok(Line::Dump) => {
            progress.get_mut().expect(size_of(rt, STANDARD_INPUT));
            let ended = dump_streams(rt, outlet, progress);
            *note = note_on_dump(&ended);
            ended
        }
        Ok(Line::Run { workers, script }) => {
            let writer = outlet;
            let output = Output { writer, by_line };
            run_script(rt, workers, output, &script, progress, note)
        }
        Ok(Line::Check { snapshot }) => {
            progress.get_mut().expect(size_of(rt, &snapshot));
            let ended = check_file(rt, outlet, &snapshot, progress);
            *note = note_on_check(rt, &snapshot, &ended);
            ended
        }
        Err(LineFault::Words(error)) => Ok(answer(rt, &error)?),
        Err(LineFault::Memory) => Err(Fault::Program(ProgramFault::Memory)),
    }
}

// Carries out the script at the path by so many workers. One has the table alone.
fn run_script<R, W: Write + Drop, E: Write>(
    rt: &R,
    workers: usize,
    output: Output<W>,
    path: &str,
    progress: &mut RefCell<ProgressLine<'_, R, E>>,
    note: &mut Option<Note>,
) -> Result<Status, Fault>
where
    R: Clock + Files + AllocGlobal + thread::Threads + Wait + Sync,
    requires { IsWorkers workers }
    ensures { EndsScript result }
{
    match workers {
        1 => run_by(rt, &mut Single, output, path, progress, note),
        _ => run_by(rt, &mut Threads::new(workers), output, path, progress, note),
    }
}
