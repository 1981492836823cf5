//! The commands that act on no list, without the writing of their reports.

ghost use Rattle.std.specs.Prelude.{◌≡◌, false, List, Some, IfErr, OnErr, OnOk, Option};
ghost use Rattle.rh_edit.specs.Held.{Held};
ghost use Rattle.rh_script.specs.Instruction.{Save, Snapshot, Use};
ghost use Rattle.rh_script.specs.Names.{is_given};
ghost use Rattle.rh_shelf.specs.Shelf.{Files};
ghost use Rattle.rh_operations.specs.declared.key_lists.KeyList.{KeyList};
ghost use Rattle.rh_operations.specs.KeyLists.{paths_of};
ghost use Rattle.rh_operations.specs.Leaves.{UsesShelf};
ghost use Rattle.rh_operations.specs.Refusals.{ListFails, MemoryFails, PutFails, RestoreFails};
ghost use Rattle.rh_script_run.specs.Ends.{LeavesShelf};
ghost use Rattle.rh_script_run.specs.Files.{FileMap, HasFiles};
ghost use Rattle.rh_script_run.specs.Meaning.{clears, restores, saves, snapshots, uses};
ghost use Rattle.rh_script_run.specs.Steps.{ListsGrow, ListsStand, MakesOrRefuses, MakesLists, MakesState};
ghost use Rattle.rh_script_run.specs.Steps.{Named, world_of};

use crate::told::{Told, table_of};
use rh_edit::SeqSet;
use rh_layout::MIN_BITS;
use rh_operations::{Cause, KeyList, Source, put_snapshot, restore, save, use_file};
use rh_report::Account;
use rh_shelf::Lender;
use std::alloc::Global;

/// `use`: the file at the path becomes a list.
pub(crate) fn use_step<'a, S: Lender>(
    alloc: Global,
    shelf: &mut S,
    lists: &mut Vec<KeyList<'a>>,
    name: &'a str,
    path: &'a str,
) -> Result<Told<'a>, Cause>
    ensures made { (set : Held) (named : Named) (files : FileMap) →
        HasFiles files (S.state shelf.old).files →
        ListsStand (S.state shelf.old).files lists.old.items named →
        MakesLists (uses (world_of set named files) name.now path.now)
        (ListFails (S.state shelf.old) (S.state shelf.new))
        files (S.state shelf.old).files set lists.new.items result }
    ensures grow { OnOk result
        (ListsGrow (Use name.now path.now) lists.old.items lists.new.items) }
    ensures shelf { UsesShelf (S.state shelf.old) (S.state shelf.new) result }
{
    let count = use_file(alloc, shelf, path)?;
    let source = Source::Path(path);
    let Ok(()) = lists.push(KeyList { source, count }) else {
        return Err(Cause::Memory);
    };
    Ok(Told::Line(Account::Used { name, count }))
}

/// `save`: the keys that are held become a list.
pub(crate) fn save_step<'a>(
    alloc: Global,
    set: &SeqSet,
    lists: &mut Vec<KeyList<'_>>,
    name: &'a str,
) -> Result<Told<'a>, Cause>
    ensures made { (named : Named) (files : FileMap) (now : Option Files) (known : Files) →
        now ≡ Some known → ListsStand now lists.old.items named →
        MakesLists (saves (world_of set.now named files) name.now) MemoryFails
        files now set.now lists.new.items result }
    ensures grow { OnOk result (ListsGrow (Save name.now) lists.old.items lists.new.items) }
    ensures memory { IfErr result (λ cause. cause ≡ Cause.Memory) }
{
    let list = save(alloc, set)?;
    let count = list.count;
    let Ok(()) = lists.push(list) else {
        return Err(Cause::Memory);
    };
    Ok(Told::Line(Account::Saved { name, count }))
}

/// `clear`: no key is held, in a table of the least size.
pub(crate) fn clear_step<'a>(alloc: Global, set: &mut SeqSet) -> Result<Told<'a>, Cause>
    ensures made { (lists : Named) (files : FileMap) →
        MakesOrRefuses (clears (world_of set.old lists files)) MemoryFails
        (world_of set.new lists files) set.new result }
    ensures unchanged { OnErr result (set.new ≡ set.old) }
    ensures memory { IfErr result (λ cause. cause ≡ Cause.Memory) }
{
    *set = SeqSet::new(alloc, MIN_BITS)?;
    Ok(Told::Line(Account::Cleared))
}

/// `snapshot`: a snapshot of the table is put under the path.
pub(crate) fn snapshot_step<'a, S: Lender>(
    alloc: Global,
    shelf: &mut S,
    set: &SeqSet,
    path: &'a str,
) -> Result<Told<'a>, Cause>
    ensures made { (lists : List KeyList) (named : Named) (files : FileMap) →
        HasFiles files (S.state shelf.old).files →
        ListsStand (S.state shelf.old).files lists named →
        is_given path.now (paths_of lists) ≡ false →
        MakesState (Snapshot path.now) (snapshots (world_of set.now named files) path.now)
        (PutFails (S.state shelf.old) (S.state shelf.new))
        files (S.state shelf.new).files set.now lists result }
    ensures shelf { LeavesShelf (S.state shelf.old) (S.state shelf.new) result }
    ensures no_thread { IfErr result (λ cause. cause ≡ Cause.NoThread → ⊥) }
    ensures no_write { IfErr result (λ cause. cause ≡ Cause.Write → ⊥) }
{
    put_snapshot(alloc, shelf, path, set)?;
    let table = table_of(set);
    Ok(Told::Line(Account::Sealed { path, table }))
}

/// `restore`: the table is that of the snapshot at the path.
pub(crate) fn restore_step<'a, S: Lender>(
    alloc: Global,
    shelf: &mut S,
    set: &mut SeqSet,
    path: &'a str,
) -> Result<Told<'a>, Cause>
    ensures made { (lists : Named) (files : FileMap) → HasFiles files (S.state shelf.old).files →
        MakesOrRefuses (restores (world_of set.old lists files) path.now)
        (RestoreFails (S.state shelf.old) (S.state shelf.new))
        (world_of set.new lists files) set.new result }
    ensures unchanged { OnErr result (set.new ≡ set.old) }
    ensures shelf { UsesShelf (S.state shelf.old) (S.state shelf.new) result }
{
    *set = restore(alloc, shelf, path)?;
    let table = table_of(set);
    Ok(Told::Line(Account::Restored { path, table }))
}
