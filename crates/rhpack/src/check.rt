//! The command `check`, between real files and streams.

ghost use Rattle.std.specs.Prelude.{◌≡◌, ◌<◌, Err, IfErr, IfOk, map, string_bytes};
ghost use Rattle.std.specs.List.{count_by};
ghost use Rattle.rh_lists.specs.Files.{is_input};
ghost use Rattle.rh_keys_program.specs.Told.{path_of};
ghost use Rattle.rhpack.specs.Check.{EndsCheck, TellsPlace, name_of};

use rh_bytes::{Counted, Progress};
use rh_checks::{CheckFault, tell_list};
use rh_cli::{ProgramFault, Status};
use rh_forks::{Team, Workers};
use rh_keys_program::{Fault, Place, is_input_again, tell, times_named, told_of_list, workers_of};
use rh_lists::{FileFault, Skipping};
use rh_shelf::{FileShelf, Shelf};
use std::alloc::{AllocError, Global};
use std::fs::Files;
use std::io::Write;
use std::thread::Threads;

/// Checks the lists in these files, one after the other, or standard input where none is named, each
/// without so many lines of a text, and writes a report of each. A list that was not read is told
/// under this name of the program, and those behind it are checked all the same; want of memory and
/// a failed write end the run.
pub fn check_all<W: Write + Drop, P: Progress>(
    rt: &(impl Files + Input + Eprint + Threads + Sync + AllocGlobal),
    name: &str,
    writer: W,
    files: Vec<String>,
    skip: u64,
    progress: &mut P,
) -> Result<Status, Fault>
    ensures input { 1 < count_by is_input (map string_bytes files.items) →
        result ≡ Err Fault.InputTwice }
    ensures ends { EndsCheck result }
{
    let named = times_named(&files);
    if named > 1 || (named == 1 && is_input_again(rt, &files)) {
        return Err(Fault::InputTwice);
    }
    let team = Team {
        rt,
        alloc: rt.alloc(),
        workers: Workers {
            count: workers_of(rt, 0),
        },
    };
    let mut writer = Counted::new(writer);
    if files.is_empty() {
        return check_place(&team, name, Place::Input, skip, &mut writer, progress);
    }
    let mut status = Status::Done;
    for path in files {
        match check_place(&team, name, Place::File(path), skip, &mut writer, progress)? {
            Status::Done => {}
            _ => status = Status::Refused,
        }
    }
    Ok(status)
}

/// Checks the list that stands there, and writes its report, or tells why there is none.
fn check_place<T: Files + Input + Eprint + Threads + Sync, W: Write, P: Progress>(
    team: &Team<'_, T>,
    name: &str,
    place: Place,
    skip: u64,
    writer: &mut Counted<W>,
    progress: &mut P,
) -> Result<Status, Fault>
    ensures { EndsCheck result }
{
    match tell_place(team, place, skip, writer, progress) {
        Ok(true) => Ok(Status::Done),
        Ok(false) => Ok(Status::Refused),
        Err(Fault::Program(fault)) => Err(Fault::Program(fault)),
        Err(fault) => {
            progress.clear();
            tell(team.rt, name, &fault, None);
            Ok(Status::Refused)
        }
    }
}

/// Checks the list that stands there, and writes its report. It answers whether no line is bad.
fn tell_place<T: Files + Input + Threads + Sync, W: Write, P: Progress>(
    team: &Team<'_, T>,
    place: Place,
    skip: u64,
    writer: &mut Counted<W>,
    progress: &mut P,
) -> Result<bool, Fault>
    ensures { IfErr result (TellsPlace (path_of place)) }
{
    let rt = team.rt;
    let Ok(name) = name_of(team.alloc, &place) else {
        return Err(Fault::Program(ProgramFault::Memory));
    };
    let told = match place.file() {
        None => {
            let reader = Skipping::new(skip, rt.reader());
            tell_list(team, &name, &mut Counted::new(reader), writer, progress)
        }
        Some(path) => match FileShelf::new(rt).fetch(team.alloc, path) {
            Ok(file) => {
                let reader = Skipping::new(skip, file);
                tell_list(team, &name, &mut Counted::new(reader), writer, progress)
            }
            Err(fault) => return Err(told_of_list(rt, place, FileFault::Shelf(fault))),
        },
    };
    match told {
        Ok(good) => Ok(good),
        Err(CheckFault::List(fault)) => Err(told_of_list(rt, place, FileFault::List(fault))),
        Err(CheckFault::Write) => Err(Fault::Program(ProgramFault::Write)),
        Err(CheckFault::Memory) => Err(Fault::Program(ProgramFault::Memory)),
    }
}

/// What each line of the report begins by: the place as it was named, if it was.
fn name_of(alloc: Global, place: &Place) -> Result<String, AllocError>
    ensures { IfOk result (λ name. string_bytes name ≡ name_of place.now) }
{
    match place {
        Place::Input => Ok(String::new(alloc)),
        Place::File(path) => format!(in alloc; "{path}: "),
    }
}
