//! Snapshots of the table on a shelf.

ghost use Rattle.std.specs.Prelude.{◌≡◌, ℕ, List, Some, Ok, IfErr, IfOk, OnErr, OnOk};
ghost use Rattle.rh_shelf.specs.Shelf.{Files, InDoubt, Puts};
ghost use Rattle.rh_operations.specs.Snapshots.{IsSnapshotOf};
ghost use Rattle.rh_operations.specs.Leaves.{UsesShelf};
ghost use Rattle.rh_operations.specs.Refusals.{RefusedBy};
ghost use Rattle.rh_operations.specs.Found.{table_found};
ghost use Rattle.rh_operations.specs.Refusals.{PutFails, RestoreFails};

use crate::cause::Cause;
use crate::opening::{blame_reader, open_file};
use rh_bytes::Counted;
use rh_edit::SeqSet;
use rh_shelf::{Lender, ShelfFault};
use rh_snapshot::{read_snapshot, write_snapshot};
use std::alloc::Global;

/// Puts a snapshot of the set's table under the path.
pub fn put_snapshot<S: Lender>(
    alloc: Global,
    shelf: &mut S,
    path: &str,
    set: &SeqSet,
) -> Result<(), Cause>
    ensures put { OnOk result ((bytes : List ℕ) × IsSnapshotOf set.now bytes
        × Puts (S.state shelf.old).files (S.state shelf.new).files path.now bytes) }
    ensures doubt { OnErr result
        (InDoubt (S.state shelf.old).files (S.state shelf.new).files path.now) }
    ensures refused { IfErr result
        (PutFails (S.state shelf.old) (S.state shelf.new)) }
    ensures fine { OnOk result ((S.state shelf.new).failures ≡ (S.state shelf.old).failures) }
    ensures same_reads { (S.state shelf.new).failed_reads ≡ (S.state shelf.old).failed_reads }
{
    let bytes = seal(alloc, set)?;
    match shelf.store(alloc, path, &bytes) {
        Ok(()) => Ok(()),
        Err(ShelfFault::Write) => Err(Cause::Put),
        Err(ShelfFault::Memory) => Err(Cause::Memory),
        Err(ShelfFault::Missing) => unreachable!(),
    }
}

/// The snapshot of the set's table.
fn seal(alloc: Global, set: &SeqSet) -> Result<Vec<u8>, Cause>
    ensures sealed { IfOk result (λ bytes. IsSnapshotOf set.now bytes.items) }
    ensures memory { IfErr result (λ cause. cause ≡ Cause.Memory) }
{
    let mut bytes = Vec::new(alloc);
    write_snapshot(alloc, set.bits(), set.cells(), &mut bytes)?;
    Ok(bytes)
}

/// The table of the snapshot at the path.
pub fn restore<S: Lender>(alloc: Global, shelf: &mut S, path: &str) -> Result<SeqSet, Cause>
    ensures restored { (files : Files) → (S.state shelf.old).files ≡ Some files →
        IfOk result (λ set. table_found (files path.now) ≡ Ok set) }
    ensures refused { (files : Files) → (S.state shelf.old).files ≡ Some files → IfErr result
        (RefusedBy (table_found (files path.now))
        (RestoreFails (S.state shelf.old) (S.state shelf.new))) }
    ensures shelf { UsesShelf (S.state shelf.old) (S.state shelf.new) result }
{
    let mut reader = Counted::new(open_file(alloc, shelf, path)?);
    match read_snapshot(alloc, &mut reader) {
        Ok(snapshot) => Ok(SeqSet::from_cells(snapshot.bits, snapshot.cells)),
        Err(fault) => Err(blame_reader(shelf, &reader, Cause::from(fault))),
    }
}
