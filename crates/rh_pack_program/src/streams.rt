//! The commands `pack` and `list`, between real files and streams.

ghost use Rattle.std.specs.Prelude.{◌≡◌, ◌<◌, ⊤, [], ◌∷◌, IfErr, IfOk, length, map, string_bytes};
ghost use Rattle.std.specs.Io.Buffered.{writer_contents};
ghost use Rattle.rh_bytes.specs.Counting.{inner_of};
ghost use Rattle.rh_streams.specs.Finishing.{EndsBy, EndsWith, ToldAs};
ghost use Rattle.rh_key_texts.specs.Files.{ListsFiles};
ghost use Rattle.rh_key_texts.specs.Pack.{Packs};
ghost use Rattle.rh_keys_program.specs.Told.{path_of};
ghost use Rattle.rh_pack_program.specs.Told.{EndsReading, TellsFile, TellsFileAt, TellsHeld};
ghost use Rattle.rh_lists.specs.declared.paths.TheConstants.{INPUT};
ghost use Rattle.rh_pack_program.specs.Told.{TellsInput, TellsPack, of_program, paths_named};

use crate::fault::Fault;
use crate::places::Places;
use rh_bytes::{Counted, Progress};
use rh_cli::{Outlet, ProgramFault, Status};
use rh_key_texts::{FaultAt, FileFault, Form, PackFault, list_files, pack};
use rh_keys_program::{
    Fault as ListsFault, InputFault, Place, Reason, reason_unread, told_of_input,
};
use rh_lists::{INPUT, Skipping};
use rh_shelf::{CountedShelf, Lender, Shelf};
use rh_snapshot::SnapFault;
use rh_streams::{Clearing, buffered_writer, finish};
use std::alloc::{AllocError, Global};
use std::cell::RefCell;
use std::fs::Files;
use std::io::{BufWriter, Read, Write};

/// Packs the text that stands there, without so many lines, to standard output.
pub fn pack_streams<W: Write, P: Progress>(
    rt: &(impl Files + Input + AllocGlobal),
    outlet: &mut Outlet<W>,
    place: Place,
    skip: u64,
    progress: &RefCell<P>,
) -> Result<Status, Fault>
    ensures { EndsReading (TellsPack (path_of place)) (path_of place) result }
{
    match Places::new(rt, progress).fetch(rt.alloc(), place.named()) {
        Ok(reader) => pack_from(
            rt,
            Skipping::new(skip, reader),
            Clearing::new(outlet, progress),
            place,
        ),
        Err(fault) => Err(told_of_read(rt, place, InputFault::Open(fault))),
    }
}

/// Packs the text that the reader has, which stands there. It is read in parts, with no other
/// buffer.
fn pack_from<R: Read + Drop, W: Write + Drop>(
    rt: &(impl Files + AllocGlobal),
    reader: R,
    writer: W,
    place: Place,
) -> Result<Status, Fault>
    ensures { EndsBy (TellsPack (path_of place)) of_program result }
{
    let Ok(writer) = buffered_writer(rt.alloc(), writer) else {
        return Err(Fault::of_program(ProgramFault::Memory));
    };
    let (ended, _writer) = pack_out(rt, place, &mut Counted::new(reader), writer);
    ended
}

/// Packs the text that the reader has, through this buffer, and writes out what that still holds.
fn pack_out<R: Read, W: Write + Drop>(
    rt: &(impl Files + AllocGlobal),
    place: Place,
    reader: &mut Counted<R>,
    writer: BufWriter<W>,
) -> (Result<Status, Fault>, BufWriter<W>)
    ensures { EndsWith {X = ⊤} W.contents (TellsPack (path_of place)) of_program
        (λ out r. Packs (R.remaining (inner_of reader.old)) (R.remaining (inner_of reader.new))
        (writer_contents W.contents writer) out r)
        result }
{
    let mut writer = Counted::new(writer);
    let packed = pack(rt.alloc(), reader, &mut writer);
    finish(
        packing(rt, place, packed),
        writer.into_inner(),
        Fault::Lists(ListsFault::Program(ProgramFault::Write)),
    )
}

/// What came of a packing, told as by the program.
fn packing(files: &impl Files, place: Place, outcome: Result<(), PackFault>) -> Result<(), Fault>
    ensures { ToldAs (TellsPack (path_of place)) outcome result }
{
    match outcome {
        Ok(()) => Ok(()),
        Err(PackFault::Text(fault)) => Err(told_of_read(files, place, InputFault::Text(fault))),
        Err(PackFault::Write) => Err(Fault::of_program(ProgramFault::Write)),
    }
}

/// Lists the files at these paths to standard output, one after the other, or standard input where
/// none is named. It goes through a buffer.
pub fn list_streams<W: Write, P: Progress>(
    rt: &(impl Files + Input + AllocGlobal),
    outlet: &mut Outlet<W>,
    paths: Vec<String>,
    form: Form,
    progress: &RefCell<P>,
) -> Result<Status, Fault>
    ensures { EndsBy (TellsFileAt (map string_bytes paths.items)) of_program result }
{
    let alloc = rt.alloc();
    let (Ok((paths, is_named)), Ok(writer)) = (
        or_input(alloc, paths),
        buffered_writer(alloc, Clearing::new(outlet, progress)),
    ) else {
        return Err(Fault::of_program(ProgramFault::Memory));
    };
    let mut shelf = CountedShelf::new(Places::new(rt, progress));
    let (ended, _writer) = list_out(rt, &mut shelf, paths, is_named, form, writer);
    ended
}

/// These paths, which were named; where there is none that of standard input, which was not.
fn or_input(alloc: Global, paths: Vec<String>) -> Result<(Vec<String>, bool), AllocError>
    ensures named { IfOk result (λ all.
        paths_named all.1 (map string_bytes all.0.items) ≡ map string_bytes paths.items) }
    ensures input { paths.items ≡ [] →
        IfOk result (λ all. map string_bytes all.0.items ≡ INPUT.now ∷ []) }
{
    if !paths.is_empty() {
        return Ok((paths, true));
    }
    let mut input = Vec::new(alloc);
    input.push(String::from_str(alloc, INPUT)?)?;
    Ok((input, false))
}

/// Lists the files at these paths, which were named or not, through this buffer, and writes out what
/// that still holds: what was listed of the files before one that is refused is written all the
/// same.
fn list_out<S: Lender, W: Write + Drop>(
    rt: &(impl Files + AllocGlobal),
    shelf: &mut S,
    paths: Vec<String>,
    is_named: bool,
    form: Form,
    writer: BufWriter<W>,
) -> (Result<Status, Fault>, BufWriter<W>)
    ensures { EndsWith {X = ⊤} W.contents
        (TellsFileAt (paths_named is_named (map string_bytes paths.items))) of_program
        (λ out r. ListsFiles (S.state shelf.old).files form (map string_bytes paths.items)
        (writer_contents W.contents writer) out r)
        result }
{
    let mut writer = Counted::new(writer);
    let listed = list_files(rt.alloc(), shelf, &paths, form, &mut writer);
    finish(
        listing(rt, paths, is_named, listed),
        writer.into_inner(),
        Fault::Lists(ListsFault::Program(ProgramFault::Write)),
    )
}

/// What came of the listing of the files at these paths, told as by the program.
fn listing(
    files: &impl Files,
    mut paths: Vec<String>,
    is_named: bool,
    outcome: Result<(), FaultAt>,
) -> Result<(), Fault>
    requires { IfErr outcome (λ f. f.index < length paths.items) }
    ensures { ToldAs (TellsFileAt (paths_named is_named (map string_bytes paths.items))) outcome
        result }
{
    match outcome {
        Ok(()) => Ok(()),
        Err(FaultAt { index, fault }) => {
            let path = paths.swap_remove(index);
            match is_named {
                true => Err(told_of_file(files, Place::File(path), fault)),
                false => Err(told_of_file(files, Place::Input, fault)),
            }
        }
    }
}

/// What is told of what was listed there.
fn told_of_file(files: &impl Files, place: Place, fault: FileFault) -> Fault
    ensures { TellsFile (path_of place) fault result }
{
    match fault {
        FileFault::Write => Fault::of_program(ProgramFault::Write),
        FileFault::Shelf(fault) => told_of_read(files, place, InputFault::Open(fault)),
        FileFault::Keys(fault) => told_of_read(files, place, InputFault::Keys(fault)),
        FileFault::Snap(fault) => told_of_held(files, place, fault),
    }
}

/// What is told of this fault of a snapshot that was read there. Want of memory is no fault of that.
fn told_of_held(files: &impl Files, place: Place, fault: SnapFault) -> Fault
    ensures { TellsHeld (path_of place) fault result }
{
    let reason = match fault {
        SnapFault::Memory => return Fault::of_program(ProgramFault::Memory),
        SnapFault::Read => reason_unread(files, &place),
        _ => Reason::Unknown,
    };
    Fault::Held {
        place,
        fault,
        reason,
    }
}

/// What is told of this fault of a text, or of a key file, that was read there.
pub(crate) fn told_of_read(files: &impl Files, place: Place, fault: InputFault) -> Fault
    ensures { TellsInput (path_of place) fault result }
{
    Fault::Lists(told_of_input(files, place, fault))
}
