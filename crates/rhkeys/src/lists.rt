//! The commands, between real files and streams.

ghost use Rattle.std.specs.Prelude.{◌≡◌, ◌<◌, Err, map, string_bytes, vec_len};
ghost use Rattle.std.specs.List.{count_by};
ghost use Rattle.rh_lists.specs.Files.{is_input};
ghost use Rattle.rh_questions.specs.Wanted.{Takes};
ghost use Rattle.rhkeys.specs.Ends.{EndsLists};

use crate::request::{Request, Run};
use rh_bytes::{Counted, Progress};
use rh_cli::Status;
use rh_forks::{Team, Workers};
use rh_keys_program::{Fault, is_input_again, times_named, with_path, workers_of};
use rh_list_commands::{Job, combine_files};
use rh_lists::Skipping;
use rh_questions::Wanted;
use rh_shelf::{CountedShelf, FileShelf};
use std::fs::Files;
use std::io::Write;
use std::thread::Threads;

/// Writes what is asked of the lists at these paths.
pub fn ask<W: Write + Drop, P: Progress>(
    rt: &(impl Files + Input + Threads + Sync + AllocGlobal),
    writer: W,
    request: Request,
    progress: &mut P,
) -> Result<Status, Fault>
    requires takes { Takes request.wanted (vec_len request.run.paths) }
    ensures input { 1 < count_by is_input (map string_bytes request.run.paths.items) →
        result ≡ Err Fault.InputTwice }
    ensures ends { EndsLists (map string_bytes request.run.paths.items) result }
{
    let Request { wanted, run } = request;
    let named = times_named(&run.paths);
    if named > 1 || (named == 1 && is_input_again(rt, &run.paths)) {
        return Err(Fault::InputTwice);
    }
    answer(rt, writer, &wanted, run, progress)
}

/// Writes what is wanted of the lists.
fn answer<W: Write + Drop, P: Progress>(
    rt: &(impl Files + Input + Threads + Sync + AllocGlobal),
    writer: W,
    wanted: &Wanted,
    run: Run,
    progress: &mut P,
) -> Result<Status, Fault>
    requires takes { Takes wanted.now (vec_len run.paths) }
    ensures { EndsLists (map string_bytes run.paths.items) result }
{
    let skip = run.skip as u64;
    let mut shelf = CountedShelf::new(FileShelf::new(rt));
    let mut input = Counted::new(Skipping::new(skip, rt.reader()));
    let mut writer = Counted::new(writer);
    let count = workers_of(rt, run.workers);
    let team = Team {
        rt,
        alloc: rt.alloc(),
        workers: Workers { count },
    };
    let job = Job {
        form: run.form,
        paths: &run.paths,
        skip,
    };
    let outcome = combine_files(
        &team,
        wanted,
        &job,
        &mut shelf,
        &mut input,
        &mut writer,
        progress,
    );
    match outcome {
        Ok(()) => Ok(Status::Done),
        Err(fault) => Err(with_path(rt, run.paths, fault)),
    }
}
