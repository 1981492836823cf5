//! The program `rhkeys`: one list of numbers is made of several.
#![tactic(auto)]

mod lists;
mod request;

use lists::ask;
use request::request_of;
use rh_arguments::LineFault;
use rh_bytes::Progress;
use rh_cli::{Outlet, ProgramFault, ProgressLine, Status, answer, hold_closed, words};
use rh_key_commands::{NAME, line, meant};
use rh_keys_program::{Fault, bytes_of, conclude};
use std::env::Env;
use std::fs::Files;
use std::io::{self, IsTerminal, Write};
use std::process::ExitCode;
use std::thread::Threads;
use std::time::Clock;

fn main(rt: HostRuntime) -> ExitCode {
    let _held = hold_closed(&rt);
    let mut outlet = Outlet::new(io::writer(&rt));
    let stream = rt.stderr();
    let is_terminal = stream.is_terminal();
    let mut progress = ProgressLine::new(&rt, stream, is_terminal);
    let outcome = carry_out(&rt, &mut outlet, &mut progress);
    progress.clear();
    ExitCode::from(conclude(&rt, NAME, &outcome, &outlet))
}

fn carry_out<R, W: Write, E: Write>(
    rt: &R,
    outlet: &mut Outlet<W>,
    progress: &mut ProgressLine<'_, R, E>,
) -> Result<Status, Fault>
where
    R: Clock + Env + Files + Input + Print + Eprint + Threads + Sync + AllocGlobal,
{
    let words = words(rt)?;
    match line(rt.alloc(), &words) {
        Ok(line) => {
            let request = request_of(rt.alloc(), line)?;
            progress.expect(bytes_of(rt, &request.run.paths));
            ask(rt, outlet, request, progress)
        }
        Err(LineFault::Words(error)) => {
            let status = answer(rt, &error)?;
            tell_meant(rt, &words);
            Ok(status)
        }
        Err(LineFault::Memory) => Err(Fault::Program(ProgramFault::Memory)),
    }
}

/// Tells what the command is called here, where its word is one of other tools.
fn tell_meant(rt: &impl Eprint, words: &[String]) {
    let Some(word) = words.get(1) else {
        return;
    };
    if let Some(name) = meant(word) {
        let _ = eprintln!(rt; "\n{NAME}: {word} is called {name} here");
    }
}
