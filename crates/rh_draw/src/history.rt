//! What is said at single moments.
#![tactic(auto, using(crate::proofs::Showing::nothing))]

ghost use Rattle.std.specs.Prelude.{◌≡◌, List, [], ◌∷◌, length};
ghost use Rattle.rh_words.specs.Parts.{cell_count};
ghost use Rattle.rh_draw.specs.Changing.{LeaveAll, opening};
ghost use Rattle.rh_draw.specs.Notices.{AreNotices, notice};
ghost use Rattle.rh_draw.specs.Reading.{Draws, ShowsTags};
ghost use Rattle.std.specs.Prelude.{OnOk};
ghost use Rattle.rh_svg.specs.declared.tags.Tag.{Tag};

use crate::canvas::Canvas;
use crate::notices::{draw_notice, push_notice};
use crate::records::Record;
use crate::sight::{PictureLayout, Sight};
use std::alloc::{AllocError, Global};

/// What is said at single moments, from the first record on.
pub(crate) fn draw_notices(
    alloc: Global,
    canvas: &mut Canvas,
    view: &PictureLayout,
    cells: &[u64],
    records: &[Record],
    keys: &[Option<u64>],
) -> Result<(), AllocError>
    requires { length cells.now ≡ cell_count view.now.shape }
    ensures { OnOk result ((notices : List Tag) × AreNotices view.now.shape view.now.window
        view.now.right (opening view.now.shape cells.now)
        records.now notices × ShowsTags canvas.old.out.items canvas.new.out.items [] notices []) }
{
    let mut sight = Sight::new(alloc, &view.shape, cells)?;
    for record in records {
        sight.key = key_of(keys, *record);
        draw_notice_of(canvas, view, &sight, *record)?;
        go_on(view, &mut sight, *record);
    }
    Ok(())
}

/// How many letters the longest of what is said has.
pub(crate) fn longest_notice(
    alloc: Global,
    view: &PictureLayout,
    cells: &[u64],
    records: &[Record],
    keys: &[Option<u64>],
) -> Result<u64, AllocError>
    requires { length cells.now ≡ cell_count view.now.shape }
{
    let mut sight = Sight::new(alloc, &view.shape, cells)?;
    let mut line = Vec::new(alloc);
    let mut most = 0u64;
    for record in records {
        sight.key = key_of(keys, *record);
        most = most.max(notice_length(view, &sight, *record, &mut line)?);
        go_on(view, &mut sight, *record);
    }
    Ok(most)
}

// How many letters that of a record has. The line is room for them.
fn notice_length(
    view: &PictureLayout,
    sight: &Sight,
    given: Record,
    line: &mut Vec<u8>,
) -> Result<u64, AllocError> {
    let Record::Step(step) = given else {
        return Ok(0);
    };
    if !view.window.has(step.number) {
        return Ok(0);
    }
    line.clear();
    push_notice(line, &view.shape, sight, step.touched)?;
    Ok(line.len() as u64)
}

fn draw_notice_of(
    canvas: &mut Canvas,
    view: &PictureLayout,
    sight: &Sight,
    given: Record,
) -> Result<(), AllocError>
    ensures { Draws canvas.old.out.items canvas.new.out.items []
        (notice view.now.shape view.now.window
        view.now.right sight.now.words.items given) []
        result }
{
    let Record::Step(step) = given else {
        return Ok(());
    };
    if !view.window.has(step.number) {
        return Ok(());
    }
    let moment = view.window.moment(step.number);
    draw_notice(canvas, view, sight, moment, step.touched)
}

// The key that a step does, where it is known.
fn key_of(keys: &[Option<u64>], given: Record) -> Option<u64> {
    let Record::Step(step) = given else {
        return None;
    };
    let place = step.number.checked_sub(1)?;
    if place < keys.len() as u64 {
        keys[place as usize]
    } else {
        None
    }
}

// Goes on to what stands where after a record.
fn go_on(view: &PictureLayout, sight: &mut Sight, given: Record)
    ensures { LeaveAll view.now.shape sight.old.words.items (given ∷ []) sight.new.words.items }
{
    if let Record::Step(step) = given {
        sight.follow(&view.shape, step.touched);
    }
}
