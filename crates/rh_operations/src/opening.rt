//! Opening files of a shelf.

ghost use Rattle.std.specs.Prelude.{◌≡◌, ◌≢◌, ◌⊎◌, Some, IfOk, IfErr};
ghost use Rattle.rh_bytes.specs.Counting.{Rose, failures_of, inner_of};
ghost use Rattle.rh_shelf.specs.Shelf.{Files, Finds, Lacks};
ghost use Rattle.rh_operations.specs.Found.{header_count};
ghost use Rattle.rh_operations.specs.KeyLists.{Opens, bytes_left, source_bytes};
ghost use Rattle.rh_operations.specs.Leaves.{IsRead, UsesShelf};
ghost use Rattle.rh_operations.specs.Refusals.{OpenFails, RefusedBy};

use crate::cause::Cause;
use crate::key_lists::{KeyList, ListReader, Source};
use rh_bytes::Counted;
use rh_key_files::KeyFault;
use rh_shelf::{Lender, ShelfFault};
use rh_snapshot::SnapFault;
use std::alloc::Global;

/// A reader of the file at the path.
pub(crate) fn open_file<S: Lender>(
    alloc: Global,
    shelf: &mut S,
    path: &str,
) -> Result<S::Reader, Cause>
    ensures opened { IfOk result (λ r.
        Finds (S.state shelf.old).files path.now (S.Reader.remaining r)) }
    ensures refused { IfErr result (λ cause. (cause ≡ Cause.Memory) ⊎ ((cause ≡ Cause.Missing)
        × (Lacks (S.state shelf.old).files path.now
        ⊎ Rose (S.state shelf.old).failures (S.state shelf.new).failures))) }
    ensures memory { IfErr result (λ cause. cause ≡ Cause.Memory →
        Rose (S.state shelf.old).failures (S.state shelf.new).failures) }
    ensures shelf { UsesShelf (S.state shelf.old) (S.state shelf.new) result }
{
    match shelf.lend(alloc, path) {
        Ok(reader) => Ok(reader),
        Err(ShelfFault::Missing) => Err(Cause::Missing),
        Err(ShelfFault::Memory) => Err(Cause::Memory),
        Err(ShelfFault::Write) => unreachable!(),
    }
}

/// A reader of the list's file, which has not failed yet.
pub(crate) fn open_list<'a, S: Lender>(
    alloc: Global,
    shelf: &mut S,
    list: &'a KeyList<'_>,
) -> Result<Counted<ListReader<'a, S::Reader>>, Cause>
    ensures opened { IfOk result (λ r. Opens (S.state shelf.old).files list.now.source
        (bytes_left S.Reader.remaining (inner_of r))) }
    ensures fresh { IfOk result (λ r. failures_of r ≡ 0) }
    ensures refused { (files : Files) → (S.state shelf.old).files ≡ Some files → IfErr result
        (RefusedBy (header_count (source_bytes files list.now.source))
        (OpenFails (S.state shelf.old) (S.state shelf.new))) }
    ensures memory { IfErr result (λ cause. cause ≡ Cause.Memory →
        Rose (S.state shelf.old).failures (S.state shelf.new).failures) }
    ensures shelf { UsesShelf (S.state shelf.old) (S.state shelf.new) result }
{
    Ok(Counted::new(match &list.source {
        Source::Path(path) => ListReader::File(open_file(alloc, shelf, path)?),
        Source::Memory(bytes) => ListReader::Memory(bytes),
    }))
}

/// Shows the shelf a reader of which a failed read is the cause, and hands the cause on.
pub(crate) fn blame_reader<S: Lender, R>(shelf: &mut S, reader: &Counted<R>, cause: Cause) -> Cause
    requires { IsRead cause → failures_of reader.now ≢ 0 }
    ensures same_cause { result ≡ cause }
    ensures read { IsRead cause →
        Rose (S.state shelf.old).failed_reads (S.state shelf.new).failed_reads }
    ensures others { (IsRead cause → ⊥) → S.state shelf.new ≡ S.state shelf.old }
    ensures same_failures { (S.state shelf.new).failures ≡ (S.state shelf.old).failures }
    ensures same_files { (S.state shelf.new).files ≡ (S.state shelf.old).files }
{
    if let Cause::Keys(KeyFault::Read) | Cause::Snap(SnapFault::Read) = cause {
        shelf.blame(reader);
    }
    cause
}
