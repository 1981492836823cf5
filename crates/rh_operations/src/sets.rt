//! What is made of a set by keys: of a slice, or that come in batches. All of it is worked out on a
//! copy, so that a refused command leaves the set as it was.

ghost use Rattle.std.specs.Prelude.{◌≡◌, ◌+◌, All, Ok, IfErr, IfOk, length};
ghost use Rattle.std.specs.FinSet as finset;
ghost use Rattle.rh_layout.specs.Key.{IsKey};
ghost use Rattle.rh_layout.specs.Layout.{keys_of};
ghost use Rattle.rh_ledger.specs.Phase.{looked_up, set_after, tally_of};
ghost use Rattle.rh_ledger.specs.declared.tally.Kind.TheVariants.{Insert, Remove};
ghost use Rattle.rh_runner.specs.Lists.{Took};
ghost use Rattle.rh_operations.specs.Actions.{means, room_for};
ghost use Rattle.rh_operations.specs.Acts.{Acts};
ghost use Rattle.rh_script.specs.declared.action.Action.TheVariants.{Add, Drop, Keep, Flip, Ask};
ghost use Rattle.rh_operations.specs.Leaves.{KeepsRunner};
ghost use Rattle.rh_operations.specs.Refusals.{FaultOn, IsOfKeys, IsOfPhase, RefusedBy, StartFails, TellsKeys};
ghost use Rattle.rh_operations.specs.Size.{size_for};

use crate::cause::Cause;
use crate::done::Done;
use crate::size::{copy_table, grow_table};
use rh_edit::SeqSet;
use rh_key_files::KeySource;
use rh_layout::MIN_BITS;
use rh_ledger::{Kind, Tally};
use rh_report::Change;
use rh_runner::{Chosen, Host, Runner, ask_all, change_all, choose, take_all};
use std::sync::Wait;
use std::thread::Threads;

/// The set with these keys too, in a table that has grown for them, and what was counted.
fn with_keys<T: Threads + Wait + Sync, N: Runner>(
    host: &Host<'_, T>,
    runner: &mut N,
    set: &SeqSet,
    keys: &[u64],
) -> Result<(SeqSet, Tally), Cause>
    requires { All IsKey keys.now }
    ensures size { IfOk result (λ made.
        size_for set.now.bits (finset.len set.now.keys + length keys.now) ≡ Ok made.0.bits) }
    ensures held { IfOk result (λ made. made.0.keys ≡ set_after Insert set.now.keys keys.now) }
    ensures tally { IfOk result (λ made. made.1 ≡ tally_of Insert set.now.keys keys.now) }
    ensures refused { IfErr result
        (RefusedBy (size_for set.now.bits (finset.len set.now.keys + length keys.now))
        (StartFails (N.refused_starts runner.old) (N.refused_starts runner.new))) }
    ensures own { IfErr result IsOfPhase }
    ensures runner { KeepsRunner (N.refused_starts runner.old) (N.refused_starts runner.new)
        result }
{
    let mut scratch = grow_table(host.alloc, set, keys.len() as u64)?;
    let cells = &mut scratch.cells;
    let tally = runner.change(host.rt, host.alloc, Kind::Insert, scratch.bits, cells, keys)?;
    Ok((SeqSet::from_cells(scratch.bits, scratch.cells), tally))
}

/// The set without these keys, in a table of the same size, and what was counted.
fn without_keys<T: Threads + Wait + Sync, N: Runner>(
    host: &Host<'_, T>,
    runner: &mut N,
    set: &SeqSet,
    keys: &[u64],
) -> Result<(SeqSet, Tally), Cause>
    requires { All IsKey keys.now }
    ensures size { IfOk result (λ made. made.0.bits ≡ set.now.bits) }
    ensures held { IfOk result (λ made. made.0.keys ≡ set_after Remove set.now.keys keys.now) }
    ensures tally { IfOk result (λ made. made.1 ≡ tally_of Remove set.now.keys keys.now) }
    ensures refused { IfErr result
        (StartFails (N.refused_starts runner.old) (N.refused_starts runner.new)) }
    ensures own { IfErr result IsOfPhase }
    ensures runner { KeepsRunner (N.refused_starts runner.old) (N.refused_starts runner.new)
        result }
{
    let mut scratch = copy_table(host.alloc, set)?;
    let cells = &mut scratch.cells;
    let tally = runner.change(host.rt, host.alloc, Kind::Remove, scratch.bits, cells, keys)?;
    Ok((SeqSet::from_cells(scratch.bits, scratch.cells), tally))
}

/// All keys of a list, and of each whether the set holds it.
fn look_through<T: Threads + Wait + Sync, N: Runner, K: KeySource>(
    host: &Host<'_, T>,
    runner: &mut N,
    set: &SeqSet,
    keys: &mut K,
) -> Result<(Vec<u64>, Vec<bool>), Cause>
    ensures took { IfOk result
        (λ seen. Took (K.coming keys.old) (K.left_of keys.old) seen.0.items) }
    ensures found { IfOk result (λ seen. seen.1.items ≡ looked_up set.now.keys seen.0.items) }
    ensures refused { IfErr result (FaultOn (K.coming keys.old) (N.refused_starts runner.old)
        (N.refused_starts runner.new)) }
    ensures told { IfErr result (TellsKeys (K.failed_with keys.new)) }
    ensures own { IfErr result IsOfKeys }
    ensures runner { KeepsRunner (N.refused_starts runner.old) (N.refused_starts runner.new)
        result }
{
    let mut list = vec![in host.alloc; 0; keys.keys_left() as usize]?;
    take_all(keys, &mut list)?;
    let found = runner.ask(host.rt, host.alloc, set.bits(), set.cells(), &list)?;
    Ok((list, found))
}

/// Adds the keys of a list.
pub(crate) fn add_keys<T: Threads + Wait + Sync, N: Runner, K: KeySource>(
    host: &Host<'_, T>,
    runner: &mut N,
    set: &mut SeqSet,
    keys: &mut K,
) -> Result<Done, Cause>
    ensures { Acts (means Add set.old) (room_for Add set.old (K.left_of keys.old)) set.old set.new
        (K.coming keys.old) (K.left_of keys.old) (K.failed_with keys.new)
        (N.refused_starts runner.old) (N.refused_starts runner.new) result }
{
    let mut scratch = grow_table(host.alloc, set, keys.keys_left())?;
    let tally = change_all(host, runner, Kind::Insert, &mut scratch, keys)?;
    *set = SeqSet::from_cells(scratch.bits, scratch.cells);
    Ok(Done::Changed(Change::Added(tally.added)))
}

/// Takes the keys of a list out.
pub(crate) fn drop_keys<T: Threads + Wait + Sync, N: Runner, K: KeySource>(
    host: &Host<'_, T>,
    runner: &mut N,
    set: &mut SeqSet,
    keys: &mut K,
) -> Result<Done, Cause>
    ensures { Acts (means Drop set.old) (room_for Drop set.old (K.left_of keys.old)) set.old set.new
        (K.coming keys.old) (K.left_of keys.old) (K.failed_with keys.new)
        (N.refused_starts runner.old) (N.refused_starts runner.new) result }
{
    let mut scratch = copy_table(host.alloc, set)?;
    let tally = change_all(host, runner, Kind::Remove, &mut scratch, keys)?;
    *set = SeqSet::from_cells(scratch.bits, scratch.cells);
    Ok(Done::Changed(Change::Dropped(tally.removed)))
}

/// Keeps of the set the keys of a list alone, in a table of the least size for as many as the list
/// has of them.
pub(crate) fn keep_keys<T: Threads + Wait + Sync, N: Runner, K: KeySource>(
    host: &Host<'_, T>,
    runner: &mut N,
    set: &mut SeqSet,
    keys: &mut K,
) -> Result<Done, Cause>
    ensures { Acts (means Keep set.old) (room_for Keep set.old (K.left_of keys.old)) set.old set.new
        (K.coming keys.old) (K.left_of keys.old) (K.failed_with keys.new)
        (N.refused_starts runner.old) (N.refused_starts runner.new) result }
{
    let (mut taken, found) = look_through(host, runner, set, keys)?;
    let list = taken.as_mut_slice();
    let many = choose(Chosen::Present, &found, list);
    let empty = SeqSet::new(host.alloc, MIN_BITS)?;
    let (kept, _) = with_keys(host, runner, &empty, &list[..many])?;
    *set = kept;
    Ok(Done::Changed(Change::Kept(many as u64)))
}

/// Takes the keys of a list that the set holds out of it, and adds the others, in a table that has
/// grown for those.
pub(crate) fn flip_keys<T: Threads + Wait + Sync, N: Runner, K: KeySource>(
    host: &Host<'_, T>,
    runner: &mut N,
    set: &mut SeqSet,
    keys: &mut K,
) -> Result<Done, Cause>
    ensures { Acts (means Flip set.old) (room_for Flip set.old (K.left_of keys.old)) set.old set.new
        (K.coming keys.old) (K.left_of keys.old) (K.failed_with keys.new)
        (N.refused_starts runner.old) (N.refused_starts runner.new) result }
{
    let (mut taken, found) = look_through(host, runner, set, keys)?;
    let list = taken.as_mut_slice();
    let (rest, dropped) = without_keys(host, runner, set, list)?;
    let many = choose(Chosen::Absent, &found, list);
    let (flipped, added) = with_keys(host, runner, &rest, &list[..many])?;
    *set = flipped;
    let (removed, added) = (dropped.removed, added.added);
    Ok(Done::Changed(Change::Flipped { removed, added }))
}

/// Looks the keys of a list up.
pub(crate) fn ask_keys<T: Threads + Wait + Sync, N: Runner, K: KeySource>(
    host: &Host<'_, T>,
    runner: &mut N,
    set: &SeqSet,
    keys: &mut K,
) -> Result<Done, Cause>
    ensures { Acts (means Ask set.now) (room_for Ask set.now (K.left_of keys.old)) set.now set.now
        (K.coming keys.old) (K.left_of keys.old) (K.failed_with keys.new)
        (N.refused_starts runner.old) (N.refused_starts runner.new) result }
{
    Ok(Done::Asked(ask_all(host, runner, set.bits(), set.cells(), keys)?))
}
