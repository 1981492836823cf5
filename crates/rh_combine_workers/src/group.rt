//! Groups of consecutive parts, worked out side by side.

ghost use Rattle.std.specs.Prelude.{◌≡◌, ℕ, List, ◌+◌, ◌-◌, ◌^◌, ◌<◌, ◌≤◌, IfOk, Ok, length, map, min, slice_index_or, sum_by};
ghost use Rattle.rh_cutting.specs.Cut.{AreLists};
ghost use Rattle.rh_combine_workers.specs.Groups.{IsGroup, IsRound, TellsGroup, group_edge, parts_of};

use crate::form::spell;
use crate::part::of_part;
use crate::question::{Question, by_number};
use rh_combine::Form;
use rh_cutting::CutLists;
use rh_forks::{Team, map_indices};
use std::alloc::{AllocError, Global};
use std::thread::Threads;

/// What came of a group of parts: its bytes, and how many numbers it was. That stops at the greatest
/// `u64`, where no answer comes.
#[derive(Drop)]
pub(crate) struct Group {
    pub(crate) bytes: Vec<u8>,
    pub(crate) count: u64,
}

/// The part with which a group begins, and the group before it ends.
pub(crate) fn edge(first: usize, number: usize, size: usize, parts: usize) -> usize
    ensures { result ≡ group_edge first number size parts }
{
    number.saturating_mul(size).saturating_add(first).min(parts)
}

/// What comes of the parts from one up to before another: each is spelled as soon as it is sorted.
fn group_of<Q: Question>(
    alloc: Global,
    question: &Q,
    form: Form,
    cut: &CutLists,
    from: usize,
    to: usize,
) -> Result<Group, AllocError>
    requires takes { Q.takes question.now (length cut.now.lists.items) }
    requires order { from ≤ to }
    requires inside { to < length cut.now.borders.values.items }
    ensures { (lists : List (List ℕ)) → AreLists cut.now lists →
        IfOk result (IsGroup (Q.answer question.now) form cut.now.borders.values.items from to
        lists) }
{
    let mut bytes = Vec::new(alloc);
    let mut count = 0u64;
    for part in from..to {
        let numbers = of_part(alloc, question, cut, part)?;
        spell(&mut bytes, form, &numbers)?;
        count = count.saturating_add(numbers.len() as u64);
    }
    Ok(Group { bytes, count })
}

/// What one worker makes of one group, of those of so many parts from the first part on.
fn group_at<Q: Question>(
    alloc: Global,
    question: &Q,
    form: Form,
    cut: &CutLists,
    first: usize,
    size: usize,
    number: usize,
) -> Result<Group, AllocError>
    requires takes { Q.takes question.now (length cut.now.lists.items) }
    requires number { number + 1 < 2 ^ 64 }
    ensures { TellsGroup (Q.answer question.now) form cut.now first size number result }
{
    let parts = cut.parts();
    let from = edge(first, number, size, parts);
    let to = edge(first, number + 1, size, parts);
    group_of(alloc, question, form, cut, from, to)
}

/// What the workers make of as many groups of so many parts, from the first part on. Where no
/// thread can be started the caller does its work.
fn groups<T: Threads + Sync, Q: Question + Sync>(
    team: &Team<'_, T>,
    question: &Q,
    form: Form,
    cut: &CutLists,
    first: usize,
    size: usize,
) -> Result<Vec<Result<Group, AllocError>>, AllocError>
    requires takes { Q.takes question.now (length cut.now.lists.items) }
    ensures len { IfOk result (λ v. length v.items ≡ team.now.workers.count) }
    ensures each { IfOk result (λ v. (i : ℕ) (d : _) → i < team.now.workers.count →
        TellsGroup (Q.answer question.now) form cut.now first size i (slice_index_or v.items i d)) }
{
    let alloc = team.alloc;
    let count = team.workers.count;
    map_indices(
        team.rt,
        alloc,
        count,
        &|i| group_at(alloc, question, form, cut, first, size, i),
    )
}

/// A round: these groups, where memory sufficed for each.
pub(crate) fn round<T: Threads + Sync, Q: Question + Sync>(
    team: &Team<'_, T>,
    question: &Q,
    form: Form,
    cut: &CutLists,
    first: usize,
    size: usize,
) -> Result<Vec<Group>, AllocError>
    requires takes { Q.takes question.now (length cut.now.lists.items) }
    requires first { first < length cut.now.borders.values.items }
    ensures { IfOk result (λ v. IsRound (Q.answer question.now) form cut.now first
        (group_edge first team.now.workers.count size (parts_of cut.now)) v.items) }
{
    by_number(question);
    let tried = groups(team, question, form, cut, first, size)?;
    all_done(team.alloc, tried)
}

/// The groups, where memory sufficed for each.
fn all_done(alloc: Global, tried: Vec<Result<Group, AllocError>>) -> Result<Vec<Group>, AllocError>
    ensures { IfOk result (λ v. map Ok v.items ≡ tried.items) }
{
    let mut groups = Vec::with_capacity(alloc, tried.len())?;
    for one in tried {
        let group = one?;
        groups.push(group)?;
    }
    Ok(groups)
}

/// How many numbers the groups have. It stops at the greatest `u64`, where no answer comes.
pub(crate) fn count_of(groups: &[Group]) -> u64
    ensures { result ≡ min (sum_by (λ g. g.count) groups.now) (2 ^ 64 - 1) }
{
    let mut sum = 0u64;
    for group in groups {
        sum = sum.saturating_add(group.count);
    }
    sum
}
