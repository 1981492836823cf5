//! The program `rhpack`: texts of numbers become key files, key files and snapshots texts, long lists
//! are split, and lists are checked.
#![tactic(auto)]

mod check;

use check::check_all;
use rh_arguments::{LineFault, name_called};
use rh_bytes::Progress;
use rh_cli::{Outlet, ProgramFault, ProgressLine, Status, answer, hold_closed, words};
use rh_key_texts::Form;
use rh_keys_program::{Fault as ListsFault, Place, bytes_of, is_input_again, times_named};
use rh_pack_commands::{Line, NAME, line};
use rh_pack_program::{
    Fault, conclude, list_streams, pack_streams, plan_streams, split_streams, tell,
};
use rh_splitting::{Source, is_name};
use std::cell::RefCell;
use std::env::Env;
use std::fs::Files;
use std::io::{self, IsTerminal, Write};
use std::process::ExitCode;
use std::thread::Threads;
use std::time::Clock;

fn main(rt: HostRuntime) -> ExitCode {
    let _held = hold_closed(&rt);
    let words = match words(&rt) {
        Ok(words) => words,
        Err(fault) => return ExitCode::from(tell(&rt, NAME, &Fault::of_program(fault))),
    };
    let name = name_called(&words, NAME);
    let mut outlet = Outlet::new(io::writer(&rt));
    let stream = rt.stderr();
    let is_terminal = stream.is_terminal();
    let mut progress = RefCell::new(ProgressLine::new(&rt, stream, is_terminal));
    let outcome = carry_out(&rt, name, &mut outlet, &words, &mut progress);
    progress.get_mut().clear();
    ExitCode::from(conclude(&rt, name, &outcome, &outlet))
}

/// Carries out the command, under the name by which the program was called.
fn carry_out<R, W: Write, E: Write>(
    rt: &R,
    called: &str,
    outlet: &mut Outlet<W>,
    words: &[String],
    progress: &mut RefCell<ProgressLine<'_, R, E>>,
) -> Result<Status, Fault>
where
    R: Clock + Files + Input + Print + Eprint + Threads + Sync + AllocGlobal,
{
    match line(rt.alloc(), words) {
        Ok(Line::Check { skip, files }) => {
            progress.get_mut().expect(bytes_there(rt, &files));
            Ok(check_all(rt, called, outlet, files, skip as u64, progress.get_mut())?)
        }
        Ok(Line::Pack { skip, files }) => {
            let place = Place::of(files);
            progress.get_mut().expect(place.size(rt));
            pack_streams(rt, outlet, place, skip as u64, progress)
        }
        Ok(Line::List { snapshot, files }) => {
            let form = if snapshot { Form::Snapshot } else { Form::Keys };
            let named = times_named(&files);
            if named > 1 || (named == 1 && is_input_again(rt, &files)) {
                return Err(Fault::Lists(ListsFault::InputTwice));
            }
            progress.get_mut().expect(bytes_there(rt, &files));
            list_streams(rt, outlet, files, form, progress)
        }
        Ok(
            Line::Split {
                parts,
                key_file,
                plan,
                name,
                skip,
                files,
            },
        ) => {
            let source = if key_file { Source::Keys } else { Source::Text };
            if !is_name(&name) {
                return Err(Fault::Name);
            }
            let (asked, skip, place) = (parts as u64, skip as u64, Place::of(files));
            progress.get_mut().expect(place.size(rt));
            match plan {
                true => plan_streams(rt, outlet, source, asked, place, skip, progress),
                false => split_streams(rt, source, asked, &name, place, skip, progress),
            }
        }
        Err(LineFault::Words(error)) => match answer(rt, &error) {
            Ok(status) => Ok(status),
            Err(fault) => Err(Fault::of_program(fault)),
        },
        Err(LineFault::Memory) => Err(Fault::of_program(ProgramFault::Memory)),
    }
}

/// How many bytes stand in these files, or on standard input where none is named, where that is
/// known.
fn bytes_there(files: &impl Files, paths: &[String]) -> Option<u64> {
    if paths.is_empty() {
        return Place::Input.size(files);
    }
    bytes_of(files, paths)
}
