//! A part of a text that several workers read.

ghost use Rattle.std.specs.Thread.{IsSync};
ghost use Rattle.std.specs.Prelude.{◌≡◌, ◌<◌, ◌-◌, IfOk, IfSome, length, slice_index};
ghost use Rattle.rh_lists.specs.Parts.{IsPartOf};

use crate::part::ListPart;
use rh_forks::{Team, both};
use rh_numbers::LineSoFar;
use std::alloc::AllocError;
use std::thread::Threads;

/// The first place from this one on at which a line begins behind another one.
pub(crate) fn line_from(bytes: &[u8], from: usize) -> Option<usize>
    ensures { IfSome result (λ at. (0 < at) × (at < length bytes.now)
        × (slice_index bytes.now (at - 1) ≡ 10)) }
{
    for at in from.max(1)..bytes.len() {
        if bytes[at - 1] == b'\n' {
            return Some(at);
        }
    }
    None
}

/// Reads the bytes, before which the line has said so much, by a team: they are cut where a line
/// begins, and both halves of the workers read their part side by side, while the caller waits.
/// Where no thread can be started, one half reads after the other.
#[cycle(halves)]
pub(crate) fn read_part<T: Threads + Sync>(
    team: &Team<'_, T>,
    so_far: LineSoFar,
    bytes: &[u8],
) -> Result<ListPart, AllocError>
    ensures { IfOk result (IsPartOf so_far bytes.now) }
{
    let Team { rt, alloc, workers } = *team;
    let Some((first, others)) = workers.halves() else {
        return ListPart::read(alloc, so_far, bytes);
    };
    let Some(at) = line_from(bytes, bytes.len() / workers.count * first.count) else {
        return ListPart::read(alloc, so_far, bytes);
    };
    let (front, back) = bytes.split_at(at);
    let theirs = move || -> Result<ListPart, AllocError>
        requires { IsSync T.row }
        ensures { IfOk result (IsPartOf so_far front.entry.now) }
    {
        let half = Team {
            rt,
            alloc,
            workers: first,
        };
        read_part(&half, so_far, front)
    };
    let ours = move || -> Result<ListPart, AllocError>
        requires { IsSync T.row }
        ensures { IfOk result (IsPartOf LineSoFar.Start back.entry.now) }
    {
        let half = Team {
            rt,
            alloc,
            workers: others,
        };
        read_part(&half, LineSoFar::Start, back)
    };
    let (before, behind) = both(rt, theirs, ours);
    let before = before?;
    let behind = behind?;
    before.then(behind)
}
