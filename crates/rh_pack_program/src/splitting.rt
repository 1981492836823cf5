//! The command `split`, between real files and streams.

ghost use Rattle.std.specs.Prelude.{◌≡◌, ◌≤◌, ◌<◌, ⊤, IfErr, IfOk, IfSome};
ghost use Rattle.std.specs.Prelude.{length, true};
ghost use Rattle.std.specs.Io.Buffered.{writer_contents};
ghost use Rattle.rh_bytes.specs.Counting.{Writes};
ghost use Rattle.rh_streams.specs.Finishing.{EndsWith, told_as};
ghost use Rattle.rh_parts.specs.declared.part.TheConstants.{MAX_PARTS};
ghost use Rattle.rh_splitting.specs.Name.{is_name};
ghost use Rattle.rh_splitting.specs.Plan.{plan_text};
ghost use Rattle.rh_keys_program.specs.Told.{path_of};
ghost use Rattle.rh_pack_program.specs.Told.{EndsPlan, EndsSplit, EndsSplitting, TellsNoSize};
ghost use Rattle.rh_pack_program.specs.Told.{EndsPlanning, TellsPlan, TellsSplit, fault_of_full};
ghost use Rattle.rh_pack_program.specs.Told.{of_program, parts_of};

use crate::fault::Fault;
use crate::places::Places;
use crate::streams::told_of_read;
use rh_bytes::{Counted, Progress, WriteFault};
use rh_cli::{Outlet, ProgramFault, Status};
use rh_keys_program::{Fault as ListsFault, InputFault, Place};
use rh_lists::Skipping;
use rh_shelf::Shelf;
use rh_splitting::{
    FilesFault, Part, PartFiles, Source, SplitFault, counting_parts, parts_chosen, split_source,
    try_source, write_plan,
};
use rh_streams::{Clearing, buffered_writer, finish};
use std::cell::RefCell;
use std::fs::Files;
use std::io::{BufWriter, Read, Write};

/// Splits what stands there, without so many lines of a text, into key files below the current
/// folder: into as many parts as are asked for, or where that is 0 as its size asks for.
pub fn split_streams<P: Progress>(
    rt: &(impl Files + Input + AllocGlobal),
    source: Source,
    asked: u64,
    name: &str,
    place: Place,
    skip: u64,
    progress: &RefCell<P>,
) -> Result<Status, Fault>
    requires few { asked ≤ MAX_PARTS }
    requires name { is_name name.now ≡ true }
    ensures { EndsSplitting source asked (path_of place) result }
{
    match Places::new(rt, progress).fetch(rt.alloc(), place.named()) {
        Ok(reader) => split_from(rt, Skipping::new(skip, reader), source, asked, name, place),
        Err(fault) => Err(told_of_read(rt, place, InputFault::Open(fault))),
    }
}

/// The same of what this reader has. It is read in parts, with no other buffer.
fn split_from<R: Read + Drop>(
    rt: &(impl Files + AllocGlobal),
    reader: R,
    source: Source,
    asked: u64,
    name: &str,
    place: Place,
) -> Result<Status, Fault>
    requires few { asked ≤ MAX_PARTS }
    requires name { is_name name.now ≡ true }
    ensures { EndsSplit source asked (path_of place) result }
{
    let mut reader = Counted::new(reader);
    let size = place.size(rt);
    let Some(parts) = parts_of(source, asked, size) else {
        return Err(no_size(rt, &mut reader, source, place));
    };
    let mut files = PartFiles::new(rt.alloc(), rt);
    match files.split(rt.alloc(), &mut reader, source, parts, name) {
        Ok(()) => Ok(Status::Done),
        Err(fault) => Err(told_of_split(rt, source, parts, size, place, fault)),
    }
}

/// As many parts as were asked for, or where that is 0 as an input of this size asks for. Of a pipe
/// the size is not known, and it is read but once: the parts of its first key have to be known
/// before its last one.
fn parts_of(source: Source, asked: u64, size: Option<u64>) -> Option<u64>
    requires { asked ≤ MAX_PARTS }
    ensures parts { result ≡ parts_of source asked size }
    ensures some { IfSome result (λ parts. 0 < parts) }
    ensures few { IfSome result (λ parts. parts ≤ MAX_PARTS) }
{
    if asked > 0 {
        return Some(asked);
    }
    match size {
        Some(bytes) => Some(parts_chosen(source, bytes)),
        None => None,
    }
}

/// What is told where the size is not known. (What cannot be read has no size either.)
fn no_size<R: Read>(
    files: &impl Files,
    reader: &mut Counted<R>,
    source: Source,
    place: Place,
) -> Fault
    ensures { TellsNoSize source (path_of place) result }
{
    match try_source(reader, source) {
        Ok(()) => Fault::Size,
        Err(fault) => told_of_split(files, source, 0, None, place, FilesFault::Split(fault)),
    }
}

/// What is told of a split into so many parts, of an input of this size.
fn told_of_split(
    files: &impl Files,
    source: Source,
    parts: u64,
    size: Option<u64>,
    place: Place,
    fault: FilesFault,
) -> Fault
    ensures { TellsSplit source parts size (path_of place) fault result }
{
    match fault {
        FilesFault::Split(SplitFault::Text(fault)) => {
            told_of_read(files, place, InputFault::Text(fault))
        }
        FilesFault::Split(SplitFault::Keys(fault)) => {
            told_of_read(files, place, InputFault::Keys(fault))
        }
        FilesFault::Split(SplitFault::TooMany { part }) => fault_of_full(source, part, parts, size),
        FilesFault::Memory => Fault::of_program(ProgramFault::Memory),
        FilesFault::Split(SplitFault::Write { .. })
        | FilesFault::Create { .. }
        | FilesFault::TooManyOpen { .. }
        | FilesFault::Left { .. }
        | FilesFault::Write { .. } => Fault::Part(fault),
    }
}

/// What is told of a part that is too full. Where the size asks for more parts, it says how many:
/// only the repeats of a key all go to one part.
fn fault_of_full(source: Source, part: u64, parts: u64, size: Option<u64>) -> Fault
    ensures { result ≡ fault_of_full source part parts size }
{
    match size {
        Some(bytes) if parts_chosen(source, bytes) > parts => Fault::TooFull {
            part,
            parts: parts_chosen(source, bytes),
        },
        _ => Fault::Part(FilesFault::Split(SplitFault::TooMany { part })),
    }
}

/// Writes to standard output how many keys of what stands there, without so many lines of a text,
/// each part would have, and no file.
pub fn plan_streams<W: Write, P: Progress>(
    rt: &(impl Files + Input + AllocGlobal),
    outlet: &mut Outlet<W>,
    source: Source,
    asked: u64,
    place: Place,
    skip: u64,
    progress: &RefCell<P>,
) -> Result<Status, Fault>
    requires few { asked ≤ MAX_PARTS }
    ensures { EndsPlanning source asked (path_of place) result }
{
    match Places::new(rt, progress).fetch(rt.alloc(), place.named()) {
        Ok(reader) => {
            let writer = Clearing::new(outlet, progress);
            plan_from(
                rt,
                Skipping::new(skip, reader),
                writer,
                source,
                asked,
                place,
            )
        }
        Err(fault) => Err(told_of_read(rt, place, InputFault::Open(fault))),
    }
}

/// The same of what this reader has, to this writer.
fn plan_from<R: Read + Drop, W: Write + Drop>(
    rt: &(impl Files + AllocGlobal),
    reader: R,
    writer: W,
    source: Source,
    asked: u64,
    place: Place,
) -> Result<Status, Fault>
    requires few { asked ≤ MAX_PARTS }
    ensures { EndsPlan source asked (path_of place) result }
{
    let mut reader = Counted::new(reader);
    let size = place.size(rt);
    let Some(count) = parts_of(source, asked, size) else {
        return Err(no_size(rt, &mut reader, source, place));
    };
    let Ok(mut parts) = counting_parts(rt.alloc(), count) else {
        return Err(Fault::of_program(ProgramFault::Memory));
    };
    if let Err(fault) = split_source(rt.alloc(), &mut reader, source, &mut parts) {
        let fault = FilesFault::Split(fault);
        return Err(told_of_split(rt, source, count, size, place, fault));
    }
    let Ok(writer) = buffered_writer(rt.alloc(), writer) else {
        return Err(Fault::of_program(ProgramFault::Memory));
    };
    let (ended, _writer) = tell_plan(&parts, writer);
    ended
}

/// Writes through this buffer how many keys each part was given, and writes out what that still
/// holds.
fn tell_plan<P, W: Write + Drop>(
    parts: &[Part<P>],
    writer: BufWriter<W>,
) -> (Result<Status, Fault>, BufWriter<W>)
    requires { length parts.now ≤ MAX_PARTS }
    ensures { EndsWith {X = ⊤} W.contents TellsPlan of_program
        (λ out r. Writes (writer_contents W.contents writer) out (plan_text parts.now) r)
        result }
{
    let mut writer = Counted::new(writer);
    let planned = write_plan(parts, &mut writer);
    finish(
        planning(planned),
        writer.into_inner(),
        Fault::Lists(ListsFault::Program(ProgramFault::Write)),
    )
}

/// What came of the writing of a plan, told as by the program.
fn planning(outcome: Result<(), WriteFault>) -> Result<(), Fault>
    ensures { result ≡ told_as (λ _. of_program ProgramFault.Write) outcome }
{
    match outcome {
        Ok(()) => Ok(()),
        Err(_) => Err(Fault::of_program(ProgramFault::Write)),
    }
}
