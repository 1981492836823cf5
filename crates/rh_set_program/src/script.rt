//! The command `run`: a script over the files of the current folder.

ghost use Rattle.std.specs.Prelude.{◌≡◌, ◌⊎◌, [], IfErr, IfOk, IfSome, None, Ok, OnOk, Some, take};
ghost use Rattle.std.specs.Io.Buffered.{writer_buffer, writer_contents};
ghost use Rattle.rh_streams.specs.ByLine.{lines_to};
ghost use Rattle.rh_streams.specs.Finishing.{Ends, EndsBy};
ghost use Rattle.rh_operations.specs.Leaves.{KeepsRunner};
ghost use Rattle.rh_script.specs.Grammar.{script_of};
ghost use Rattle.rh_script.specs.Script.{steps_of};
ghost use Rattle.rh_script_run.specs.Ends.{Ends as Means};
ghost use Rattle.rh_script_run.specs.Environment.{environment};
ghost use Rattle.rh_script_run.specs.declared.report.Report.{Report as OfRun};
ghost use Rattle.rh_shelf.specs.Shelf.{Files as OfShelf};
ghost use Rattle.rh_set_program.specs.Scripts.{EndsScript, TellsScript, cause_told};
ghost use Rattle.rh_set_program.specs.declared.script.TheConstants.{MAX_BYTES};

use crate::followed::{FollowedShelf, bytes_of_lists};
use crate::line_notes::note_on_script;
use crate::note::{Note, note_on_path};
use crate::run_notes::note_on_run;
use crate::status::{Fault, running};
use rh_bytes::{Counted, fill};
use rh_cli::{ProgramFault, ProgressLine, Status};
use rh_runner::Runner;
use rh_script::{MAX_LINE_BYTES, MAX_LINES, Script, parse};
use rh_script_run::{Wanted, run_noting};
use rh_shelf::{CountedShelf, FileShelf, Lender};
use rh_streams::{ByLine, Clearing, buffered_writer, finish, open};
use std::alloc::Global;
use std::cell::RefCell;
use std::fs::Files;
use std::io::{BufWriter, Read, Write};
use std::sync::Wait;
use std::thread::Threads;
use std::time::Clock;

// A script of more bytes has a faulty line within these: one too many, or one that is too long.
const MAX_BYTES: usize = MAX_LINES as usize * (MAX_LINE_BYTES + 1) + 1;

// How many bytes are read at once.
const PART_BYTES: usize = 8_192;

/// Where the report of a script goes.
#[derive(Drop)]
pub struct Output<W> {
    pub writer: W,
    /// Whether each line is to be written at once, as a terminal wants it.
    pub by_line: bool,
}

/// Carries out the script at the path by this runner, and writes its report. The report goes through
/// a buffer. How much of its lists is read is told, and taken away before each write. What is known
/// besides a fault is left in `note`.
pub fn run_by<R, N: Runner, W: Write + Drop, E: Write>(
    rt: &R,
    runner: &mut N,
    output: Output<W>,
    path: &str,
    progress: &mut RefCell<ProgressLine<'_, R, E>>,
    note: &mut Option<Note>,
) -> Result<Status, Fault>
where
    R: Clock + Files + AllocGlobal + Threads + Wait + Sync,
    ensures ends { EndsScript result }
    ensures runner { KeepsRunner (N.refused_starts runner.old) (N.refused_starts runner.new)
        (cause_told result) }
{
    let alloc = rt.alloc();
    let script = match script_at(rt, path, note) {
        Ok(script) => script,
        Err(fault) => return Err(fault),
    };
    if progress.get_mut().may_show() {
        progress.get_mut().expect(bytes_of_lists(rt, &script));
    }
    let progress = &*progress;
    let Output { writer, by_line } = output;
    let Ok(writer) = buffered_writer(alloc, Clearing::new(writer, progress)) else {
        return Err(Fault::Program(ProgramFault::Memory));
    };
    let mut shelf = CountedShelf::new(FollowedShelf::new(FileShelf::new(rt), &script, progress));
    let writer = ByLine::new(writer, by_line);
    let (ended, _writer, wanted) = run_out(rt, alloc, &script, &mut shelf, runner, writer);
    if let Err(Fault::Run(fault)) = &ended {
        let refused = shelf.get_ref().get_ref().last_failure();
        *note = note_on_run(alloc, rt, &script, fault, wanted, refused);
    }
    ended
}

/// The script at the path. What is known besides a fault is left in `note`.
fn script_at(
    rt: &(impl Files + AllocGlobal),
    path: &str,
    note: &mut Option<Note>,
) -> Result<Script, Fault>
    ensures { IfErr result
        (λ told. (told ≡ Fault.Program ProgramFault.Open) ⊎ TellsScript None told) }
{
    let file = match open(rt, path) {
        Ok(file) => file,
        Err(fault) => {
            *note = note_on_path(rt, path);
            return Err(Fault::Program(fault));
        }
    };
    let script = read_script(rt.alloc(), file, note);
    if let Err(Fault::Read) = &script {
        *note = note_on_path(rt, path);
    }
    script
}

/// Carries out the script, whose report goes through this buffer, and writes out what that still
/// holds: what the commands before a fault told is written too. Answers besides what the last
/// command wanted, if it was refused.
fn run_out<T: Threads + Wait + Sync, S: Lender, N: Runner, W: Write + Drop>(
    rt: &T,
    alloc: Global,
    script: &Script,
    shelf: &mut S,
    runner: &mut N,
    writer: ByLine<BufWriter<W>>,
) -> (Result<Status, Fault>, BufWriter<W>, Option<Wanted>)
    ensures ends { (files : OfShelf) → (S.state shelf.old).files ≡ Some files →
        Ends {X = OfRun} (λ f told. told ≡ Fault.Run f) Fault.Program
        (λ out r. Means files (steps_of script.now)
        (environment (S.state shelf.old) (N.refused_starts runner.old)
        (writer_contents W.contents (lines_to writer)))
        (environment (S.state shelf.new) (N.refused_starts runner.new) out) r)
        (writer_contents W.contents result.1) result.0 }
    ensures cases { EndsBy (λ f told. told ≡ Fault.Run f) Fault.Program result.0 }
    ensures runner { KeepsRunner (N.refused_starts runner.old) (N.refused_starts runner.new)
        (cause_told result.0) }
    ensures empty { OnOk result.0 (writer_buffer result.1 ≡ []) }
{
    let mut writer = Counted::new(writer);
    let (outcome, wanted) = run_noting(rt, alloc, script, shelf, runner, &mut writer);
    let lines = writer.into_inner();
    let (ended, writer) = finish(
        running(outcome),
        lines.into_inner(),
        Fault::Program(ProgramFault::Write),
    );
    (ended, writer, wanted)
}

/// The script that the reader has. What is known besides a fault of its text is left in `note`.
fn read_script<R: Read + Drop>(
    alloc: Global,
    reader: R,
    note: &mut Option<Note>,
) -> Result<Script, Fault>
    ensures read { IfOk result (λ script. IfSome (R.remaining reader)
        (λ bytes. script_of (take MAX_BYTES bytes) ≡ Ok (steps_of script))) }
    ensures fault { IfErr result (TellsScript (R.remaining reader)) }
{
    let text = front_of(alloc, reader)?;
    match parse(alloc, &text) {
        Ok(script) => Ok(script),
        Err(fault) => {
            *note = note_on_script(alloc, &text, &fault);
            Err(Fault::Script(fault))
        }
    }
}

// The bytes that a reader has, or the first `MAX_BYTES` of them. Any failure of the reader ends it,
// an interruption too.
fn front_of<R: Read + Drop>(alloc: Global, reader: R) -> Result<Vec<u8>, Fault>
    ensures front { IfOk result (λ text. IfSome (R.remaining reader)
        (λ bytes. text.items ≡ take MAX_BYTES bytes)) }
    ensures fault { IfErr result (λ fault. (fault ≡ Fault.Program ProgramFault.Memory)
        ⊎ (fault ≡ Fault.Read)) }
{
    let mut reader = Counted::new(reader);
    let mut text = Vec::new(alloc);
    let mut room = [0; PART_BYTES];
    while text.len() < MAX_BYTES {
        let part = &mut room[..(MAX_BYTES - text.len()).min(PART_BYTES)];
        let Some(n) = fill(&mut reader, part) else {
            return Err(Fault::Read);
        };
        let Ok(()) = text.extend_from_slice(&part[..n]) else {
            return Err(Fault::Program(ProgramFault::Memory));
        };
        if n < part.len() {
            return Ok(text);
        }
    }
    Ok(text)
}
