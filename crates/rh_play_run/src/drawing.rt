//! A play, drawn.

ghost use Rattle.std.specs.Prelude.{◌≡◌, ◌+◌, ◌<◌, ◌≤◌, ◌⊎◌, IfErr, IfOk, IfSome, IsErrOf};
ghost use Rattle.rh_bytes.specs.Counting.{CountsFault, WritesLast, inner_of};
ghost use Rattle.rh_bytes.specs.Taking.{TakesAtMost};
ghost use Rattle.rh_draw.specs.Records.{count_from};
ghost use Rattle.rh_draw.specs.declared.limits.TheConstants.{MAX_STEPS};
ghost use Rattle.rh_play_text.specs.declared.limits.TheConstants.{MAX_TEXT_BYTES};
ghost use Rattle.rh_play_run.specs.Beginning.{IsBlank};
ghost use Rattle.rh_play_run.specs.Devices.{ReadsPlay};
ghost use Rattle.rh_play_run.specs.Drawing.{DrawsPlay, IsDrawnOf, IsRecorded, IsUnchosen, IsUndrawn, IsWindow};
ghost use Rattle.rh_play_run.specs.Run.{IsLong, IsUnplayed, SaysGoodPlay};
ghost use Rattle.rh_play_run.specs.declared.limits.TheConstants.{MAX_TOLD};

use crate::beginning::{begin, blank_cells, cells_in};
use crate::draw_fault::DrawFault;
use crate::fault::PlayRunFault;
use crate::limits::MAX_TOLD;
use crate::log::{Log, Telling};
use crate::orders::Size;
use crate::reading::read_play;
use crate::run::workers_of;
use crate::schedule::follow;
use crate::title::title_of;
use rh_bytes::{Counted, write_texts};
use rh_draw::{MAX_STEPS, Record, Recording, Window, draw, steps_from};
use rh_play_text::Play;
use rh_words::Shape;
use std::alloc::Global;
use std::io::{Read, Write};

/// What a play leaves to draw: its table, the words of the cells at first, and its steps and
/// rounds.
#[derive(Drop)]
struct Recorded {
    shape: Shape,
    cells: Vec<u64>,
    records: Vec<Record>,
    /// For each step at a control, the key that its worker does.
    keys: Vec<Option<u64>>,
    /// How many steps were made. All are recorded, unless they are more than `MAX_TOLD`.
    steps: u64,
}

/// Reads the text of a play, runs the play, and writes the picture of its steps, an SVG: of so many
/// of them from this number on, or of all from it on, where they are no more than `MAX_STEPS`.
/// Steps are numbered from 1.
///
/// All memory is taken before the first byte is written, and all is written at once.
pub fn draw_play<R: Read, W: Write>(
    alloc: Global,
    from: u64,
    steps: Option<u64>,
    reader: &mut Counted<R>,
    writer: &mut Counted<W>,
) -> Result<(), DrawFault>
    requires { IfSome steps (λ n. n ≤ MAX_STEPS) }
    ensures draws { DrawsPlay from steps (R.remaining (inner_of reader.old))
        (W.contents (inner_of writer.old)) (W.contents (inner_of writer.new)) result }
    ensures memory { IsErrOf result (DrawFault.Play PlayRunFault.Memory) →
        (reader.new ≡ reader.old) ⊎ SaysGoodPlay (R.remaining (inner_of reader.old)) }
    ensures reads { ReadsPlay R.remaining (DrawFault.Play PlayRunFault.Read) reader.old
        reader.new result }
    ensures writes { WritesLast (DrawFault.Play PlayRunFault.Write) writer.old writer.new result }
{
    let picture = picture_of(alloc, from, steps, reader)?;
    write_texts(writer, &[&picture])?;
    Ok(())
}

/// The picture of the play that a reader gives.
fn picture_of<R: Read>(
    alloc: Global,
    from: u64,
    steps: Option<u64>,
    reader: &mut Counted<R>,
) -> Result<Vec<u8>, DrawFault>
    requires { IfSome steps (λ n. n ≤ MAX_STEPS) }
    ensures drawn { IfOk result (λ picture.
        IsDrawnOf (R.remaining (inner_of reader.old)) from steps picture.items) }
    ensures refused { IfErr result (IsUndrawn (R.remaining (inner_of reader.old)) from steps) }
    ensures memory { IsErrOf result (DrawFault.Play PlayRunFault.Memory) →
        (reader.new ≡ reader.old) ⊎ SaysGoodPlay (R.remaining (inner_of reader.old)) }
    ensures taken { TakesAtMost (R.remaining (inner_of reader.old))
        (R.remaining (inner_of reader.new)) (MAX_TEXT_BYTES + 1) }
    ensures counts { CountsFault (DrawFault.Play PlayRunFault.Read) reader.old reader.new result }
{
    let blank = blank_cells(alloc)?;
    let play = read_play(alloc, reader)?;
    let recorded = record(alloc, blank, &play)?;
    let Recorded {
        shape,
        cells,
        records,
        keys,
        steps: made,
    } = recorded;
    if made > MAX_TOLD {
        return Err(DrawFault::TooLong);
    }
    let window = window(&records, from, steps)?;
    let title = title_of(alloc, &play)?;
    let recording = Recording {
        shape: &shape,
        cells: &cells,
        records: &records,
        keys: &keys,
    };
    Ok(draw(alloc, &title, &recording, window)?)
}

/// Runs a play, whose table is made of blank cells, for its records.
fn record(alloc: Global, blank: Vec<u64>, play: &Play) -> Result<Recorded, PlayRunFault>
    requires { IsBlank blank.items }
    ensures recorded { IfOk result (λ r. r.steps ≤ MAX_TOLD →
        IsRecorded play.now r.shape r.cells.items r.records.items) }
    ensures long { IfOk result (λ r. MAX_TOLD < r.steps → IsLong play.now) }
    ensures refused { IfErr result (IsUnplayed play.now) }
{
    let size = Size {
        workers: workers_of(play),
        cells: cells_in(play.bits.value as u32),
    };
    let mut player = begin(alloc, blank, play)?;
    let shape = player.shape();
    let cells = player.words().to_vec(alloc)?;
    let mut log = Log::new(alloc, Telling::Records);
    follow(&mut player, size, &play.schedule, &mut log)?;
    Ok(Recorded {
        shape,
        cells,
        records: log.records,
        keys: log.keys,
        steps: log.steps,
    })
}

/// The steps to draw.
fn window(records: &[Record], from: u64, steps: Option<u64>) -> Result<Window, DrawFault>
    requires { IfSome steps (λ n. n ≤ MAX_STEPS) }
    ensures window { IfOk result (IsWindow from steps records.now) }
    ensures refused { IfErr result (IsUnchosen from steps records.now) }
{
    let there = steps_from(records, from) as u64;
    if from > 1 && there == 0 {
        return Err(DrawFault::NoStep);
    }
    let steps = match steps {
        Some(steps) => steps,
        None => there,
    };
    if steps > MAX_STEPS {
        return Err(DrawFault::TooMany);
    }
    let first = from.max(1);
    Ok(Window { from: first, steps })
}
