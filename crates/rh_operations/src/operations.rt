//! What the commands do with the set that is held and with the lists.

ghost use Rattle.std.specs.Prelude.{◌≡◌, ℕ, List, [], Some, Ok, IfOk, IfErr, OnErr, OnOk, length};
ghost use Rattle.std.specs.FinSet as finset;
ghost use Rattle.rh_bytes.specs.Counting.{Rose};
ghost use Rattle.rh_edit.specs.Rising.{rising_keys};
ghost use Rattle.rh_shelf.specs.Shelf.{Files};
ghost use Rattle.rh_operations.specs.Actions.{made_of, means, room_at, room_found, telling};
ghost use Rattle.rh_operations.specs.Acts.{Acts};
ghost use Rattle.rh_operations.specs.Found.{keys_found};
ghost use Rattle.rh_operations.specs.KeyLists.{Gave, Stands, path_of, source_bytes};
ghost use Rattle.rh_operations.specs.Leaves.{Leaves, UsesShelf};
ghost use Rattle.rh_operations.specs.Outside.{outside};
ghost use Rattle.rh_operations.specs.Refusals.{ListFails, PhaseFails, RefusedBy, WantedAfter};

use crate::cause::Cause;
use crate::done::Done;
use crate::key_lists::{KeyList, Source};
use crate::opening::{blame_reader, open_file, open_list};
use crate::sets::{add_keys, ask_keys, drop_keys, flip_keys, keep_keys};
use rh_bytes::Counted;
use rh_edit::SeqSet;
use rh_key_files::{KeySource, open_keys, write_keys};
use rh_runner::{Host, Runner, read_through};
use rh_script::Action;
use rh_shelf::Lender;
use std::alloc::Global;
use std::sync::Wait;
use std::thread::Threads;

/// How many keys the file at the path has. It is read to its end.
pub fn use_file<S: Lender>(alloc: Global, shelf: &mut S, path: &str) -> Result<u64, Cause>
    ensures used { (files : Files) → (S.state shelf.old).files ≡ Some files → IfOk result (λ count.
        (keys : List ℕ) × (keys_found (files path.now) ≡ Ok keys) × (length keys ≡ count)) }
    ensures refused { (files : Files) → (S.state shelf.old).files ≡ Some files → IfErr result
        (RefusedBy (keys_found (files path.now))
        (ListFails (S.state shelf.old) (S.state shelf.new))) }
    ensures memory { IfErr result (λ cause. cause ≡ Cause.Memory →
        Rose (S.state shelf.old).failures (S.state shelf.new).failures) }
    ensures shelf { UsesShelf (S.state shelf.old) (S.state shelf.new) result }
{
    let mut reader = Counted::new(open_file(alloc, shelf, path)?);
    match open_keys(&mut reader) {
        Ok(mut keys) => {
            let count = keys.count();
            match read_through(&mut keys) {
                Ok(()) => Ok(count),
                Err(fault) => Err(blame_reader(shelf, keys.reader(), Cause::from(fault))),
            }
        }
        Err(fault) => Err(blame_reader(shelf, &reader, Cause::from(fault))),
    }
}

/// Does with the set and the keys of the list what the action says. The list is read once.
pub fn operate<T: Threads + Wait + Sync, S: Lender, N: Runner>(
    host: &Host<'_, T>,
    shelf: &mut S,
    runner: &mut N,
    set: &mut SeqSet,
    list: &KeyList<'_>,
    action: Action,
) -> Result<Done, Cause>
    ensures done { IfOk result (λ done. (keys : List ℕ)
        × Gave (S.state shelf.old).files list.now keys
        × (means action set.old keys ≡ Ok (set.new, telling done))) }
    ensures memory { (files : Files) → (S.state shelf.old).files ≡ Some files → IfErr result
        (WantedAfter (room_found action set.old list.now.count (source_bytes files list.now.source))
        (S.state shelf.old) (S.state shelf.new)) }
    ensures refused { (files : Files) → (S.state shelf.old).files ≡ Some files → IfErr result
        (RefusedBy (made_of action set.old list.now.count (source_bytes files list.now.source))
        (PhaseFails (outside S.state N.refused_starts shelf.old runner.old)
        (outside S.state N.refused_starts shelf.new runner.new))) }
    ensures unchanged { OnErr result (set.new ≡ set.old) }
    ensures leaves { Leaves (outside S.state N.refused_starts shelf.old runner.old)
        (outside S.state N.refused_starts shelf.new runner.new) result }
{
    let mut reader = open_list(host.alloc, shelf, list)?;
    match open_keys(&mut reader) {
        Ok(mut keys) => {
            match act(host, runner, set, list.count, &mut keys, action) {
                Ok(done) => Ok(done),
                Err(cause) => Err(blame_reader(shelf, keys.reader(), cause)),
            }
        }
        Err(fault) => Err(blame_reader(shelf, &reader, Cause::from(fault))),
    }
}

/// Does so with keys that come in batches, of which so many were noted.
fn act<T: Threads + Wait + Sync, N: Runner, K: KeySource>(
    host: &Host<'_, T>,
    runner: &mut N,
    set: &mut SeqSet,
    noted: u64,
    keys: &mut K,
    action: Action,
) -> Result<Done, Cause>
    ensures again { OnOk result (K.left_of keys.old ≡ noted) }
    ensures acts { Acts (means action set.old) (room_at action set.old noted (K.left_of keys.old))
        set.old set.new (K.coming keys.old) (K.left_of keys.old) (K.failed_with keys.new)
        (N.refused_starts runner.old) (N.refused_starts runner.new) result }
{
    if keys.keys_left() != noted {
        return Err(Cause::Changed);
    }
    match action {
        Action::Add => add_keys(host, runner, set, keys),
        Action::Drop => drop_keys(host, runner, set, keys),
        Action::Keep => keep_keys(host, runner, set, keys),
        Action::Flip => flip_keys(host, runner, set, keys),
        Action::Ask => ask_keys(host, runner, set, keys),
    }
}

/// The keys of the set, in rising order, as a list whose key file stands in memory.
pub fn save<'a>(alloc: Global, set: &SeqSet) -> Result<KeyList<'a>, Cause>
    ensures saved { (files : Files) →
        IfOk result (λ list. Stands (Some files) list (rising_keys set.now.keys)) }
    ensures count { IfOk result (λ list. list.count ≡ finset.len set.now.keys) }
    ensures no_path { IfOk result (λ list. path_of list.source ≡ []) }
    ensures memory { IfErr result (λ cause. cause ≡ Cause.Memory) }
{
    let keys = set.sorted_keys(alloc)?;
    let mut file = Counted::new(Vec::new(alloc));
    let Ok(()) = write_keys(&keys, &mut file) else {
        return Err(Cause::Memory);
    };
    Ok(KeyList {
        source: Source::Memory(file.into_inner()),
        count: keys.len() as u64,
    })
}
