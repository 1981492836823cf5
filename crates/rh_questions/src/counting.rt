//! The same of lists in pieces, by several workers, part by part.

ghost use Rattle.std.specs.Thread.{IsSync};
ghost use Rattle.std.specs.Prelude.{◌≡◌, ℕ, List, ◌+◌, ◌^◌, ◌<◌, ◌≤◌, IfOk, OnOk, length, map, vec_len};
ghost use Rattle.rh_cutting.specs.Borders.{between};
ghost use Rattle.rh_cutting.specs.Cut.{AreLists};
ghost use Rattle.rh_cutting.specs.Pieces.{keys_in};
ghost use Rattle.rh_questions.specs.Tallies.{AreCounts, AreTallies, IsCount, combined};
ghost use Rattle.rh_questions.specs.declared.limits.TheConstants.{MOST_COMPARED};

use crate::comparing::{count_rows, no_counts};
use crate::rows::rows_of;
use rh_bytes::Progress;
use rh_combine_workers::{lists_of_part, slices_of};
use rh_cutting::{CutLists, KeyList, cut_lists};
use rh_forks::{Team, both};
use std::alloc::{AllocError, Global};
use std::thread::Threads;

/// About how many keys a worker counts in a round, so that progress can be told.
const IN_A_ROUND: usize = 1 << 20;

/// Counts the numbers of a part, each at the place of its combination of lists.
fn count_part(
    alloc: Global,
    cut: &CutLists,
    part: usize,
    counts: &mut Vec<u64>,
) -> Result<(), AllocError>
    requires few { length cut.now.lists.items ≤ MOST_COMPARED }
    requires part { part + 1 < length cut.now.borders.values.items }
    requires room { length counts.old.items ≡ 2 ^ length cut.now.lists.items }
    ensures len { length counts.new.items ≡ length counts.old.items }
    ensures counts { OnOk result ((lists : List (List ℕ)) → AreLists cut.now lists →
        (c n : ℕ) → c < length counts.old.items → IsCount counts.old.items c n →
        IsCount counts.new.items c (n + length
        (between cut.now.borders.values.items part (part + 1) (combined lists c)))) }
{
    let mine = lists_of_part(alloc, cut, part)?;
    let slices = slices_of(alloc, &mine)?;
    let rows = rows_of(alloc, &slices, 0)?;
    count_rows(&rows, counts);
    Ok(())
}

/// The counts of the parts from one up to before another, by one worker.
fn count_parts(
    alloc: Global,
    cut: &CutLists,
    from: usize,
    to: usize,
) -> Result<Vec<u64>, AllocError>
    requires few { length cut.now.lists.items ≤ MOST_COMPARED }
    requires order { from ≤ to }
    requires inside { to < length cut.now.borders.values.items }
    ensures { IfOk result (λ v. AreCounts cut.now from to v.items) }
{
    let mut counts = no_counts(alloc, cut.lists.len())?;
    for part in from..to {
        count_part(alloc, cut, part, &mut counts)?;
    }
    Ok(counts)
}

/// Adds counts to counts.
fn add(counts: &mut Vec<u64>, more: &[u64])
    requires { length more.now ≡ length counts.old.items }
    ensures len { length counts.new.items ≡ length counts.old.items }
    ensures sums { (c m n : ℕ) → c < length counts.old.items →
        IsCount counts.old.items c m → IsCount more.now c n → IsCount counts.new.items c (m + n) }
{
    for place in 0..counts.len() {
        counts[place] = counts[place].saturating_add(more[place]);
    }
}

/// The counts of these parts by a team: each half of its workers counts about half of them, while
/// the caller waits. Where no thread can be started, one half is counted after the other.
#[cycle(halves)]
fn count_by_team<T: Threads + Sync>(
    team: &Team<'_, T>,
    cut: &CutLists,
    from: usize,
    to: usize,
) -> Result<Vec<u64>, AllocError>
    requires few { length cut.now.lists.items ≤ MOST_COMPARED }
    requires order { from ≤ to }
    requires inside { to < length cut.now.borders.values.items }
    ensures { IfOk result (λ v. AreCounts cut.now from to v.items) }
{
    let Team { rt, alloc, workers } = *team;
    let Some((first, others)) = workers.halves() else {
        return count_parts(alloc, cut, from, to);
    };
    let share = (to - from).div_ceil(workers.count);
    let at = share
        .saturating_mul(first.count)
        .saturating_add(from)
        .min(to);
    let theirs = move || -> Result<Vec<u64>, AllocError>
        requires { IsSync T.row × (length cut.now.lists.items ≤ MOST_COMPARED) × (from ≤ at)
            × (at < length cut.now.borders.values.items) }
        ensures { IfOk result (λ v. AreCounts cut.entry.now from at v.items) }
    {
        let half = Team {
            rt,
            alloc,
            workers: first,
        };
        count_by_team(&half, cut, from, at)
    };
    let ours = move || -> Result<Vec<u64>, AllocError>
        requires { IsSync T.row × (length cut.now.lists.items ≤ MOST_COMPARED) × (at ≤ to)
            × (to < length cut.now.borders.values.items) }
        ensures { IfOk result (λ v. AreCounts cut.entry.now at to v.items) }
    {
        let half = Team {
            rt,
            alloc,
            workers: others,
        };
        count_by_team(&half, cut, at, to)
    };
    let (before, behind) = both(rt, theirs, ours);
    let mut counts = before?;
    let more = behind?;
    add(&mut counts, &more);
    Ok(counts)
}

/// How many parts are counted in a round.
fn round_size(keys: usize, parts: usize, workers: usize) -> usize
    requires { 0 < parts }
    ensures { 0 < result }
{
    let in_a_part = (keys / parts).max(1);
    let of_each = (IN_A_ROUND / in_a_part).max(1);
    of_each.saturating_mul(workers).max(1)
}

/// The counts of all parts, round by round.
fn count_all<T: Threads + Sync, P: Progress>(
    team: &Team<'_, T>,
    cut: &CutLists,
    progress: &mut P,
) -> Result<Vec<u64>, AllocError>
    requires few { length cut.now.lists.items ≤ MOST_COMPARED }
    ensures { (parts : ℕ) → parts + 1 ≡ length cut.now.borders.values.items →
        IfOk result (λ v. AreCounts cut.now 0 parts v.items) }
{
    let parts = cut.parts();
    let size = round_size(cut.keys, parts, team.workers.count);
    let mut counts = no_counts(team.alloc, cut.lists.len())?;
    let mut first = 0;
    while first < parts {
        let next = first.saturating_add(size).min(parts);
        let more = count_by_team(team, cut, first, next)?;
        add(&mut counts, &more);
        first = next;
        progress.done(first, parts);
    }
    Ok(counts)
}

/// How many numbers stand in each combination of the lists, as `compare` has it. That depends
/// neither on the number of workers nor on the pieces of a list.
///
/// Beside what cutting the lists takes, each worker holds the rows of a part, and 8 bytes for each
/// combination. Progress is told once a round.
pub fn compare_lists<T: Threads + Sync, P: Progress>(
    team: &Team<'_, T>,
    lists: Vec<KeyList>,
    progress: &mut P,
) -> Result<Vec<u64>, AllocError>
    requires few { vec_len lists ≤ MOST_COMPARED }
    ensures { IfOk result (λ v. AreTallies (map keys_in lists.items) v.items) }
{
    progress.cut();
    let cut = cut_lists(team, lists)?;
    count_all(team, &cut, progress)
}
