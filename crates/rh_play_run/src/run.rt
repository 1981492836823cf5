//! A play, from its text to what it prints.

ghost use Rattle.std.specs.Prelude.{◌≡◌, ◌⊎◌, IfErr, IfOk, IsErrOf};
ghost use Rattle.rh_layout.specs.Layout.{IsLayout};
ghost use Rattle.rh_bytes.specs.Counting.{WritesLast, inner_of};
ghost use Rattle.rh_play_text.specs.declared.play.Play.{Play};
ghost use Rattle.rh_play_run.specs.Beginning.{IsBlank, workers_in};
ghost use Rattle.rh_play_run.specs.Devices.{ReadsPlay};
ghost use Rattle.rh_play_run.specs.Run.{IsPlayRead, IsUnplayed, IsUnrun, PlaysAsTold, RunsPlay, SaysGoodPlay, TellsPlay};
ghost use Rattle.rh_play_run.specs.declared.log.Telling.TheVariants.{Orders};

use crate::beginning::{begin, blank_cells, cells_in};
use crate::ending::{Played, closing_lines, made_cells, write_played};
use crate::fault::PlayRunFault;
use crate::log::{Log, Telling, is_told};
use crate::orders::Size;
use crate::reading::read_play;
use crate::schedule::follow;
use crate::tell_fault::TellFault;
use rh_bytes::Counted;
use rh_play_text::{Play, Work};
use std::alloc::Global;
use std::io::{Read, Write};

/// Reads the text of a play, runs the play, and writes what it prints: a line for each order of its
/// schedule (`show`: one for each full cell), the dump of what the cells stand for, the line
/// `read R added A removed D found F`, and `finished` or `unfinished`.
///
/// All memory is taken before the first byte is written. Each number and each word of the dump is a
/// write of its own, so give it a writer with a buffer.
pub fn run_play<R: Read, W: Write>(
    alloc: Global,
    reader: &mut Counted<R>,
    writer: &mut Counted<W>,
) -> Result<(), PlayRunFault>
    ensures runs { RunsPlay Orders (R.remaining (inner_of reader.old))
        (W.contents (inner_of writer.old))
        (W.contents (inner_of writer.new)) result }
    ensures memory { IsErrOf result PlayRunFault.Memory →
        (reader.new ≡ reader.old) ⊎ SaysGoodPlay (R.remaining (inner_of reader.old)) }
    ensures reads { ReadsPlay R.remaining PlayRunFault.Read reader.old reader.new result }
    ensures writes { WritesLast PlayRunFault.Write writer.old writer.new result }
{
    let played = play_read(alloc, Telling::Orders, reader)?;
    write_played(writer, &played)?;
    Ok(())
}

/// `run_play`, which tells so much of the play: where its steps are told, a line for each stands
/// before the line of its order, and all else is as `run_play` writes it. A play of more than
/// `MAX_TOLD` steps is refused then.
pub fn tell_play<R: Read, W: Write>(
    alloc: Global,
    telling: Telling,
    reader: &mut Counted<R>,
    writer: &mut Counted<W>,
) -> Result<(), TellFault>
    ensures tells { TellsPlay telling (R.remaining (inner_of reader.old))
        (W.contents (inner_of writer.old))
        (W.contents (inner_of writer.new)) result }
    ensures memory { IsErrOf result (TellFault.Play PlayRunFault.Memory) →
        (reader.new ≡ reader.old) ⊎ SaysGoodPlay (R.remaining (inner_of reader.old)) }
    ensures reads { ReadsPlay R.remaining (TellFault.Play PlayRunFault.Read) reader.old reader.new
        result }
    ensures writes { WritesLast (TellFault.Play PlayRunFault.Write) writer.old writer.new result }
{
    let played = play_read(alloc, telling, reader)?;
    if !is_told(telling, played.steps) {
        return Err(TellFault::TooLong);
    }
    write_played(writer, &played)?;
    Ok(())
}

/// What the play prints that a reader gives, where so much is told of it.
fn play_read<R: Read>(
    alloc: Global,
    telling: Telling,
    reader: &mut Counted<R>,
) -> Result<Played, PlayRunFault>
    ensures plays { IfOk result (λ played. (play : Play)
        × IsPlayRead (R.remaining (inner_of reader.old)) play × PlaysAsTold telling play played) }
    ensures layout { IfOk result (λ played. IsLayout played.bits played.cells.items) }
    ensures refused { IfErr result (IsUnrun (R.remaining (inner_of reader.old))) }
    ensures memory { IsErrOf result PlayRunFault.Memory →
        (reader.new ≡ reader.old) ⊎ SaysGoodPlay (R.remaining (inner_of reader.old)) }
    ensures reads { ReadsPlay R.remaining PlayRunFault.Read reader.old reader.new result }
{
    let blank = blank_cells(alloc)?;
    let play = read_play(alloc, reader)?;
    let played = perform(alloc, telling, blank, &play)?;
    Ok(played)
}

/// Runs a play, whose table is made of blank cells, and tells so much of it.
fn perform(
    alloc: Global,
    telling: Telling,
    blank: Vec<u64>,
    play: &Play,
) -> Result<Played, PlayRunFault>
    requires { IsBlank blank.items }
    ensures plays { IfOk result (PlaysAsTold telling play.now) }
    ensures layout { IfOk result (λ played. IsLayout played.bits played.cells.items) }
    ensures refused { IfErr result (IsUnplayed play.now) }
{
    let bits = play.bits.value as u32;
    let size = Size {
        workers: workers_of(play),
        cells: cells_in(bits),
    };
    let mut player = begin(alloc, blank, play)?;
    let mut log = Log::new(alloc, telling);
    follow(&mut player, size, &play.schedule, &mut log)?;
    let cells = made_cells(alloc, &player, size.cells)?;
    let closing = closing_lines(alloc, &player)?;
    Ok(Played {
        body: log.text,
        bits,
        cells,
        closing,
        steps: log.steps,
    })
}

pub(crate) fn workers_of(play: &Play) -> usize
    ensures { result ≡ workers_in play.now.work }
{
    match &play.work {
        Work::Pieces(pieces) => pieces.len(),
        Work::Share { workers, .. } => *workers as usize,
    }
}
