//! The commands on plays, between real files and streams.

ghost use Rattle.std.specs.Prelude.{◌≡◌, ◌⊎◌, ⊤, ◌≤◌, Err, IfErr, IfSome};
ghost use Rattle.std.specs.Io.Buffered.{writer_contents};
ghost use Rattle.rh_bytes.specs.Counting.{inner_of};
ghost use Rattle.rh_streams.specs.Finishing.{EndsBy, EndsWith};
ghost use Rattle.rh_draw.specs.declared.limits.TheConstants.{MAX_STEPS};
ghost use Rattle.rh_play_run.specs.Drawing.{DrawsPlay};
ghost use Rattle.rh_play_run.specs.Run.{TellsPlay};
ghost use Rattle.rhplay.specs.Endings.{steps_asked};

use crate::status::{Fault, drawing, playing};
use rh_bytes::Counted;
use rh_cli::{ProgramFault, Status};
use rh_play_run::{Telling, draw_play, tell_play};
use rh_streams::{buffered_reader, buffered_writer, finish, open};
use std::alloc::Global;
use std::fs::Files;
use std::io::{BufReader, BufWriter, Read, Write};

/// Runs the play at the path, and writes so much of it to this writer.
pub fn play_file<W: Write + Drop>(
    rt: &(impl Files + AllocGlobal),
    output: W,
    telling: Telling,
    path: &str,
) -> Result<Status, Fault>
    ensures { (result ≡ Err (Fault.Program ProgramFault.Open))
        ⊎ EndsBy (λ f told. told ≡ Fault.Play f) Fault.Program result }
{
    let alloc = rt.alloc();
    let reader = buffered_file(rt, path)?;
    let Ok(writer) = buffered_writer(alloc, output) else {
        return Err(Fault::Program(ProgramFault::Memory));
    };
    let (ended, _writer) = play_out(alloc, telling, &mut Counted::new(reader), writer);
    ended
}

/// Runs the play that the reader has, whose text goes through this buffer, and writes out what that
/// still holds.
fn play_out<R: Read, W: Write + Drop>(
    alloc: Global,
    telling: Telling,
    reader: &mut Counted<R>,
    writer: BufWriter<W>,
) -> (Result<Status, Fault>, BufWriter<W>)
    ensures { EndsWith {X = ⊤} W.contents (λ f told. told ≡ Fault.Play f) Fault.Program
        (λ out r. TellsPlay telling (R.remaining (inner_of reader.old))
        (writer_contents W.contents writer) out r)
        result }
{
    let mut writer = Counted::new(writer);
    let told = tell_play(alloc, telling, reader, &mut writer);
    finish(
        playing(told),
        writer.into_inner(),
        Fault::Program(ProgramFault::Write),
    )
}

/// Draws the play at the path to this writer: so many steps from this number on, where 0 stands for
/// all.
pub fn draw_file<W: Write + Drop>(
    rt: &(impl Files + AllocGlobal),
    output: W,
    from: u64,
    steps: u64,
    path: &str,
) -> Result<Status, Fault>
    requires { steps ≤ MAX_STEPS }
    ensures { (result ≡ Err (Fault.Program ProgramFault.Open))
        ⊎ EndsBy (λ f told. told ≡ Fault.Draw f) Fault.Program result }
{
    let alloc = rt.alloc();
    let reader = buffered_file(rt, path)?;
    let Ok(writer) = buffered_writer(alloc, output) else {
        return Err(Fault::Program(ProgramFault::Memory));
    };
    let steps = steps_asked(steps);
    let (ended, _writer) = draw_out(alloc, from, steps, &mut Counted::new(reader), writer);
    ended
}

/// Draws the play that the reader has, whose picture goes through this buffer, and writes out what
/// that still holds.
fn draw_out<R: Read, W: Write + Drop>(
    alloc: Global,
    from: u64,
    steps: Option<u64>,
    reader: &mut Counted<R>,
    writer: BufWriter<W>,
) -> (Result<Status, Fault>, BufWriter<W>)
    requires { IfSome steps (λ n. n ≤ MAX_STEPS) }
    ensures { EndsWith {X = ⊤} W.contents (λ f told. told ≡ Fault.Draw f) Fault.Program
        (λ out r. DrawsPlay from steps (R.remaining (inner_of reader.old))
        (writer_contents W.contents writer) out r)
        result }
{
    let mut writer = Counted::new(writer);
    let drawn = draw_play(alloc, from, steps, reader, &mut writer);
    finish(
        drawing(drawn),
        writer.into_inner(),
        Fault::Program(ProgramFault::Write),
    )
}

/// The number of steps that is asked for, if it is.
fn steps_asked(steps: u64) -> Option<u64>
    ensures { result ≡ steps_asked steps }
{
    if steps > 0 { Some(steps) } else { None }
}

/// The file at the path, behind a buffer.
fn buffered_file<F: Files + AllocGlobal>(rt: &F, path: &str) -> Result<BufReader<F::File>, Fault>
    ensures { IfErr result (λ told. (told ≡ Fault.Program ProgramFault.Open)
        ⊎ (told ≡ Fault.Program ProgramFault.Memory)) }
{
    let file = match open(rt, path) {
        Ok(file) => file,
        Err(fault) => return Err(Fault::Program(fault)),
    };
    match buffered_reader(rt.alloc(), file) {
        Ok(reader) => Ok(reader),
        Err(fault) => Err(Fault::Program(fault)),
    }
}
