//! What is answered of lists is written, round by round.

ghost use Rattle.std.specs.Thread.{IsSync};
ghost use Rattle.std.specs.Prelude.{◌≡◌, ◌<◌, IfOk, false, length, map, vec_len};
ghost use Rattle.std.specs.List.{flat_map};
ghost use Rattle.rh_bytes.specs.Counting.{Emits};
ghost use Rattle.rh_cutting.specs.Pieces.{keys_in};
ghost use Rattle.rh_combine_workers.specs.Groups.{IsRound, group_edge, parts_of};
ghost use Rattle.rh_combine_workers.specs.Written.{WritesAnswer, WritesParts};

use crate::fault::CombineFault;
use crate::group::{Group, count_of, edge, round};
use crate::question::{Question, by_number};
use rh_bytes::{Counted, Progress, WriteFault, write_text};
use rh_combine::Form;
use rh_cutting::{CutLists, KeyList, cut_lists};
use rh_forks::{Team, Workers};
use std::alloc::AllocError;
use std::io::Write;
use std::thread::{Threads, join_mut};

/// About how many keys a group of parts has, so that a round takes little memory beside the lists.
const IN_A_GROUP: usize = 1 << 18;

/// How many parts a group has: no more than each worker needs to have one.
fn group_size(keys: usize, parts: usize, workers: Workers) -> usize
    requires { 0 < parts }
    ensures { 0 < result }
{
    let in_a_part = (keys / parts).max(1);
    let by_keys = IN_A_GROUP / in_a_part;
    by_keys.min(parts.div_ceil(workers.count)).max(1)
}

/// The bytes of the groups, one group after the other. They may come to the terminal on which
/// progress is told: nothing of that stands there any more.
fn write_groups<W: Write, P: Progress>(
    groups: &[Group],
    writer: &mut Counted<W>,
    _progress: &P,
) -> Result<(), WriteFault>
    requires { P.stands _progress.now ≡ false }
    ensures { Emits W.contents writer.old writer.new (flat_map (λ g. g.bytes.items) groups.now)
        result }
{
    for group in groups {
        write_text(writer, &group.bytes)?;
    }
    Ok(())
}

/// Writes the groups of a round, while the workers make those of the next one, which begins with this
/// part; one worker makes them behind the writing. Behind the last round there are none.
fn write_beside<T: Threads + Sync, Q: Question + Sync, W: Write, P: Progress>(
    team: &Team<'_, T>,
    question: &Q,
    form: Form,
    cut: &CutLists,
    next: usize,
    size: usize,
    done: &[Group],
    writer: &mut Counted<W>,
    progress: &P,
) -> (Result<Vec<Group>, AllocError>, Result<(), WriteFault>)
    requires takes { Q.takes question.now (length cut.now.lists.items) }
    requires next { next < length cut.now.borders.values.items }
    requires away { P.stands progress.now ≡ false }
    ensures next { IfOk result.0 (λ v. IsRound (Q.answer question.now) form cut.now next
        (group_edge next team.now.workers.count size (parts_of cut.now)) v.items) }
    ensures written { Emits W.contents writer.old writer.new
        (flat_map (λ g. g.bytes.items) done.now) result.1 }
{
    let Team { rt, alloc, workers } = *team;
    if next == cut.parts() {
        let written = write_groups(done, writer, progress);
        return (Ok(Vec::new(alloc)), written);
    }
    if workers.count == 1 {
        let written = write_groups(done, writer, progress);
        return (round(team, question, form, cut, next, size), written);
    }
    join_mut(
        rt,
        &mut || -> Result<Vec<Group>, AllocError>
            requires { IsSync T.row × (next < length cut.now.borders.values.items)
                × Q.takes question.now (length cut.now.lists.items) }
            ensures { IfOk result (λ v. IsRound (Q.answer question.entry.now) form cut.entry.now
                next
                (group_edge next workers.count size (parts_of cut.entry.now)) v.items) }
        {
            round(
                &Team { rt, alloc, workers },
                question,
                form,
                cut,
                next,
                size,
            )
        },
        &mut || -> Result<(), WriteFault>
            requires { P.stands progress.now ≡ false }
            ensures { Emits W.contents writer.entry.now writer.exit.now
                (flat_map (λ g. g.bytes.items) done.entry.now) result }
        { write_groups(done, writer, progress) },
    )
}

/// All rounds: each is written in its order, beside the work on the next.
fn write_rounds<T: Threads + Sync, Q: Question + Sync, W: Write, P: Progress>(
    team: &Team<'_, T>,
    question: &Q,
    form: Form,
    cut: &CutLists,
    writer: &mut Counted<W>,
    progress: &mut P,
) -> Result<u64, CombineFault>
    requires takes { Q.takes question.now (length cut.now.lists.items) }
    ensures { WritesParts W.contents (Q.answer question.now) form cut.now 0 (parts_of cut.now)
        writer.old writer.new result }
{
    by_number(question);
    let parts = cut.parts();
    let size = group_size(cut.keys, parts, team.workers);
    let mut done = round(team, question, form, cut, 0, size)?;
    let mut first = 0;
    let mut count = 0u64;
    while first < parts {
        let next = edge(first, team.workers.count, size, parts);
        progress.clear();
        let (made, written) = write_beside(
            team, question, form, cut, next, size, &done, writer, progress,
        );
        written?;
        count = count.saturating_add(count_of(&done));
        done = made?;
        first = next;
        progress.done(first, parts);
    }
    Ok(count)
}

/// Writes the numbers that are answered of the lists, each once, in rising order, and tells how
/// many they are. The keys of a list may stand in any order. What is written depends neither on the
/// number of workers nor on the pieces of a list. But small pieces leave the workers little to
/// share: 100,000 keys or so are a good size.
///
/// It takes at most some 24 bytes for each number of the lists, and a round's groups beside that.
/// Where no thread can be started the caller does its work. Progress is told once a round, and taken
/// away before each write. On a fault a front of the text was written.
pub fn write_answer<T: Threads + Sync, Q: Question + Sync, W: Write, P: Progress>(
    team: &Team<'_, T>,
    question: &Q,
    form: Form,
    lists: Vec<KeyList>,
    writer: &mut Counted<W>,
    progress: &mut P,
) -> Result<u64, CombineFault>
    requires takes { Q.takes question.now (vec_len lists) }
    ensures { WritesAnswer W.contents (Q.answer question.now) form (map keys_in lists.items)
        writer.old writer.new result }
{
    by_number(question);
    progress.cut();
    let cut = cut_lists(team, lists)?;
    write_rounds(team, question, form, &cut, writer, progress)
}
