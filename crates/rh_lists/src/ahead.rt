//! A block that is read while the next one comes.

ghost use Rattle.std.specs.Thread.{IsSync};
ghost use Rattle.std.specs.Prelude.{◌≡◌, ◌<◌, ◌-◌, ◌+◌, IfOk, IfSome, length, slice_index};
ghost use Rattle.rh_lists.specs.Ahead.{IsFilled};
ghost use Rattle.rh_lists.specs.Parts.{IsPartOf};

use crate::part::ListPart;
use crate::workers::line_from;
use rh_bytes::{Counted, Filled, fill_front};
use rh_forks::{Team, Workers};
use rh_numbers::LineSoFar;
use std::alloc::AllocError;
use std::io::Read;
use std::thread::{Threads, join_mut};

/// Reads a block, before which the line has said so much, by a team, and fills the other buffer.
/// Several workers do so while this thread fills it; one does so before.
pub(crate) fn read_ahead<T: Threads + Sync, R: Read>(
    team: &Team<'_, T>,
    so_far: LineSoFar,
    block: &[u8],
    reader: &mut Counted<R>,
    next: &mut [u8],
) -> (Result<ListPart, AllocError>, Filled)
    ensures part { IfOk result.0 (IsPartOf so_far block.now) }
    ensures filled { IsFilled R.remaining reader.old reader.new next.new result.1 }
{
    if team.workers.count == 1 {
        let part = ListPart::read(team.alloc, so_far, block);
        let filled = fill_front(reader, next);
        return (part, filled);
    }
    read_pieces(team, so_far, block, reader, next)
}

/// The same by threads of which each reads a piece. This thread starts one after the other, and
/// works only when all are started: `rh_forks` has the reason.
#[cycle(pieces)]
fn read_pieces<T: Threads + Sync, R: Read>(
    team: &Team<'_, T>,
    so_far: LineSoFar,
    block: &[u8],
    reader: &mut Counted<R>,
    next: &mut [u8],
) -> (Result<ListPart, AllocError>, Filled)
    ensures part { IfOk result.0 (IsPartOf so_far block.now) }
    ensures filled { IsFilled R.remaining reader.old reader.new next.new result.1 }
{
    let Some((at, workers)) = first_piece(block, team.workers) else {
        return read_last(team, so_far, block, reader, next);
    };
    let (front, back) = block.split_at(at);
    let Team { rt, alloc, .. } = *team;
    let mut theirs = || -> Result<ListPart, AllocError>
        ensures { IfOk result (IsPartOf so_far front.entry.now) }
    { ListPart::read(alloc, so_far, front) };
    let mut ours = || -> (Result<ListPart, AllocError>, Filled)
        requires { IsSync T.row }
        ensures { IfOk result.0 (IsPartOf LineSoFar.Start back.entry.now)
            × IsFilled R.remaining reader.entry.now reader.exit.now next.exit.now result.1 }
    {
        let others = Team { rt, alloc, workers };
        read_pieces(&others, LineSoFar::Start, back, reader, next)
    };
    let (before, (behind, filled)) = join_mut(rt, &mut theirs, &mut ours);
    let (Ok(before), Ok(behind)) = (before, behind) else {
        return (Err(AllocError), filled);
    };
    (before.then(behind), filled)
}

/// The same of the last piece.
fn read_last<T: Threads + Sync, R: Read>(
    team: &Team<'_, T>,
    so_far: LineSoFar,
    piece: &[u8],
    reader: &mut Counted<R>,
    next: &mut [u8],
) -> (Result<ListPart, AllocError>, Filled)
    ensures part { IfOk result.0 (IsPartOf so_far piece.now) }
    ensures filled { IsFilled R.remaining reader.old reader.new next.new result.1 }
{
    let Team { rt, alloc, .. } = *team;
    join_mut(
        rt,
        &mut || -> Result<ListPart, AllocError>
            ensures { IfOk result (IsPartOf so_far piece.entry.now) }
        { ListPart::read(alloc, so_far, piece) },
        &mut || -> Filled
            ensures { IsFilled R.remaining reader.entry.now reader.exit.now next.exit.now result }
        { fill_front(reader, next) },
    )
}

/// How long the first of so many pieces is, and how many read the others, where there are several.
fn first_piece(block: &[u8], workers: Workers) -> Option<(usize, Workers)>
    ensures { IfSome result (λ piece. (0 < piece.0) × (piece.0 < length block.now)
        × (slice_index block.now (piece.0 - 1) ≡ 10)
        × (piece.1.count + 1 ≡ workers.count)) }
{
    let Some(others) = workers.others() else {
        return None;
    };
    let Some(at) = line_from(block, block.len() / workers.count) else {
        return None;
    };
    Some((at, others))
}
