//! The program `rhplay`: several workers change one table of rhset step by step, as a text says.
#![tactic(auto)]

ghost use Rattle.std.specs.Prelude.{◌≡◌};
ghost use Rattle.rhplay.specs.Endings.{ending, ending_by};

mod note;
mod status;
mod streams;

use note::{note_on_play, note_on_unwritten};
use rh_arguments::{LineFault, name_called};
use rh_cli::{Outlet, ProgramFault, Status, answer, hold_closed, words};
use rh_play_commands::{Line, NAME, line};
use rh_play_run::Telling;
use rh_streams::{FileNote, tell_note};
use status::Fault;
use std::env::Env;
use std::fs::Files;
use std::io::{self, IsTerminal, Write};
use std::process::ExitCode;
use streams::{draw_file, play_file};

fn main(rt: HostRuntime) -> ExitCode {
    let _held = hold_closed(&rt);
    let status = match words(&rt) {
        Ok(words) => run(&rt, &words, rt.stderr().is_terminal()),
        Err(fault) => tell(&rt, NAME, &Fault::Program(fault)),
    };
    ExitCode::from(status)
}

// Carries out the command, and tells its fault. What is known besides that is for a terminal alone.
fn run(
    rt: &(impl Env + Files + Print + Eprint + AllocGlobal),
    words: &[String],
    is_terminal: bool,
) -> Status {
    let name = name_called(words, NAME);
    let mut outlet = Outlet::new(io::writer(rt));
    let mut note = None;
    let outcome = carry_out(rt, &mut outlet, words, &mut note);
    let status = conclude(rt, name, &outcome);
    if is_terminal {
        let of_output = note_on_unwritten(rt.alloc(), &outcome, outlet.last_failure());
        tell_note(rt, name, &note);
        tell_note(rt, name, &of_output);
    }
    status
}

// Carries out the command. What is known besides a fault is left in `note`.
fn carry_out<W: Write>(
    rt: &(impl Env + Files + Print + Eprint + AllocGlobal),
    outlet: &mut Outlet<W>,
    words: &[String],
    note: &mut Option<FileNote>,
) -> Result<Status, Fault> {
    let line = match line(rt.alloc(), words) {
        Ok(line) => line,
        Err(LineFault::Words(error)) => return Ok(answer(rt, &error)?),
        Err(LineFault::Memory) => return Err(Fault::Program(ProgramFault::Memory)),
    };
    let (ended, file) = match line {
        Line::Play { file } => (play_file(rt, outlet, Telling::Orders, &file), file),
        Line::Trace { file } => (play_file(rt, outlet, Telling::Steps, &file), file),
        Line::Draw { from, steps, file } => {
            (
                draw_file(rt, outlet, from as u64, steps as u64, &file),
                file,
            )
        }
    };
    *note = note_on_play(rt, &file, &ended);
    ended
}

// Tells the user, under the name by which the program was called, as far as standard error takes
// it.
fn tell(rt: &impl Eprint, name: &str, fault: &Fault) -> Status
    ensures { result ≡ ending_by fault.now }
{
    let _ = eprintln!(rt; "{name}: {fault}");
    fault.status()
}

// How the program ends that came to this. A fault is told.
fn conclude(rt: &impl Eprint, name: &str, outcome: &Result<Status, Fault>) -> Status
    ensures { result ≡ ending outcome.now }
{
    match outcome {
        Ok(status) => *status,
        Err(fault) => tell(rt, name, fault),
    }
}
