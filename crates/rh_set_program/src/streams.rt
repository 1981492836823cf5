//! The commands without a script, between real streams.

ghost use Rattle.std.specs.Prelude.{◌≡◌, ◌⊎◌, ⊤, Err};
ghost use Rattle.std.specs.Io.Buffered.{writer_contents};
ghost use Rattle.rh_bytes.specs.Counting.{inner_of};
ghost use Rattle.rh_streams.specs.Finishing.{EndsBy, EndsWith};
ghost use Rattle.rh_commands.specs.Check.{Checks};
ghost use Rattle.rh_commands.specs.Dump.{Dumps};

use crate::status::{Fault, checking, dumping};
use rh_bytes::{Counted, Progress};
use rh_cli::{ProgramFault, Status};
use rh_commands::{check_snapshot, dump_keys};
use rh_streams::{Clearing, Followed, buffered_reader, buffered_writer, finish, open};
use std::alloc::Global;
use std::cell::RefCell;
use std::fs::Files;
use std::io::{BufWriter, Read, Write};

/// Dumps the keys on standard input to this writer. How much is read is told, and taken away before
/// each write.
pub fn dump_streams<W: Write + Drop, P: Progress>(
    rt: &(impl Input + AllocGlobal),
    output: W,
    progress: &RefCell<P>,
) -> Result<Status, Fault>
    ensures { EndsBy (λ f told. told ≡ Fault.Dump f) Fault.Program result }
{
    let alloc = rt.alloc();
    let (Ok(reader), Ok(writer)) = (
        buffered_reader(alloc, Followed::new(rt.reader(), progress)),
        buffered_writer(alloc, Clearing::new(output, progress)),
    ) else {
        return Err(Fault::Program(ProgramFault::Memory));
    };
    let (ended, _writer) = dump_out(alloc, &mut Counted::new(reader), writer);
    ended
}

/// Dumps the keys that the reader has, through this buffer, and writes out what that still holds.
fn dump_out<R: Read, W: Write + Drop>(
    alloc: Global,
    reader: &mut Counted<R>,
    writer: BufWriter<W>,
) -> (Result<Status, Fault>, BufWriter<W>)
    ensures { EndsWith {X = ⊤} W.contents (λ f told. told ≡ Fault.Dump f) Fault.Program
        (λ out r. Dumps (R.remaining (inner_of reader.old)) (R.remaining (inner_of reader.new))
        (writer_contents W.contents writer) out r)
        result }
{
    let mut writer = Counted::new(writer);
    let dumped = dump_keys(alloc, reader, &mut writer);
    finish(
        dumping(dumped),
        writer.into_inner(),
        Fault::Program(ProgramFault::Write),
    )
}

/// Writes the line of the snapshot at the path to this writer. How much is read is told, and taken
/// away before each write.
pub fn check_file<W: Write + Drop, P: Progress>(
    rt: &(impl Files + AllocGlobal),
    output: W,
    path: &str,
    progress: &RefCell<P>,
) -> Result<Status, Fault>
    ensures { (result ≡ Err (Fault.Program ProgramFault.Open))
        ⊎ EndsBy (λ f told. told ≡ Fault.Check f) Fault.Program result }
{
    let alloc = rt.alloc();
    let file = match open(rt, path) {
        Ok(file) => file,
        Err(fault) => return Err(Fault::Program(fault)),
    };
    let (Ok(reader), Ok(writer)) = (
        buffered_reader(alloc, Followed::new(file, progress)),
        buffered_writer(alloc, Clearing::new(output, progress)),
    ) else {
        return Err(Fault::Program(ProgramFault::Memory));
    };
    let (ended, _writer) = check_out(alloc, &mut Counted::new(reader), writer);
    ended
}

/// Writes the line of the snapshot that the reader has through this buffer, and writes out what
/// that still holds.
fn check_out<R: Read, W: Write + Drop>(
    alloc: Global,
    reader: &mut Counted<R>,
    writer: BufWriter<W>,
) -> (Result<Status, Fault>, BufWriter<W>)
    ensures { EndsWith {X = ⊤} W.contents (λ f told. told ≡ Fault.Check f) Fault.Program
        (λ out r. Checks (R.remaining (inner_of reader.old)) (R.remaining (inner_of reader.new))
        (writer_contents W.contents writer) out r)
        result }
{
    let mut writer = Counted::new(writer);
    let checked = check_snapshot(alloc, reader, &mut writer);
    finish(
        checking(checked),
        writer.into_inner(),
        Fault::Program(ProgramFault::Write),
    )
}
