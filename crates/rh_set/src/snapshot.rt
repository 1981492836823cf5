//! Sets written as snapshots, and read back.

ghost use Rattle.std.specs.Prelude.{◌≡◌, IfErr, IfOk, OnErr, length};
ghost use Rattle.rh_snapshot.specs.declared.version.Version.{Version};
ghost use Rattle.rh_snapshot.specs.declared.version.Version.TheVariants.{Second};
ghost use Rattle.rh_snapshot.specs.Reading.{SnapFails, file_table};
ghost use Rattle.rh_set.specs.Snapshot.{IsSnapshotOf, IsSnapshotPut, IsWhyNoSnapshot};

use crate::fault::PutFault;
use crate::putting::put;
use crate::set::Set;
use rh_bytes::Counted;
use rh_edit::SeqSet;
use rh_snapshot::{SnapFault, read_snapshot, write_snapshot};
use std::alloc::{AllocError, Global};

impl Set {
    /// Puts a snapshot of the set at the front of the slice, and answers how many bytes it has.
    /// It takes as much memory for a while.
    pub fn snapshot_into(&self, alloc: Global, into: &mut [u8]) -> Result<usize, PutFault>
        ensures front { IfOk result (IsSnapshotPut self.now into.old into.new) }
        ensures why { IfErr result (IsWhyNoSnapshot self.now (length into.old)) }
        ensures unchanged { OnErr result (into.new ≡ into.old) }
    {
        let Ok(bytes) = self.snapshot(alloc) else {
            return Err(PutFault::Memory);
        };
        put(&bytes, into)
    }

    /// A snapshot of the set, of the second version.
    pub fn snapshot(&self, alloc: Global) -> Result<Vec<u8>, AllocError>
        ensures { IfOk result (λ bytes. IsSnapshotOf Second bytes.items self.now) }
    {
        let mut bytes = Vec::new(alloc);
        write_snapshot(alloc, self.table.bits(), self.table.cells(), &mut bytes)?;
        Ok(bytes)
    }

    /// The set of a snapshot of either version. It has the size that the snapshot has.
    pub fn from_snapshot(alloc: Global, bytes: &[u8]) -> Result<Set, SnapFault>
        ensures restored { IfOk result
            (λ s. (version : Version) × IsSnapshotOf version bytes.now s) }
        ensures fault { IfErr result (λ fault. SnapFails fault (file_table bytes.now)) }
    {
        let mut reader = Counted::new(bytes);
        let snapshot = read_snapshot(alloc, &mut reader)?;
        let table = SeqSet::from_cells(snapshot.bits, snapshot.cells);
        Ok(Set { table })
    }
}
