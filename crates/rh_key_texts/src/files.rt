//! The command `list` of several files, one after the other.

ghost use Rattle.std.specs.Prelude.{◌≡◌, ◌≢◌, ◌<◌, ◌⊎◌, ℕ, List, Option, length, map, string_bytes, IfErr, IsErrOf, OnOk, true};
ghost use Rattle.rh_bytes.specs.Counting.{Rose, WritesLast, failures_of, inner_of};
ghost use Rattle.rh_shelf.specs.Shelf.{CountsReads, Files, Finds, Lacks};
ghost use Rattle.rh_shelf.specs.declared.shelf.ShelfFault.{ShelfFault as InShelf};
ghost use Rattle.rh_key_texts.specs.Files.{LacksAt, ListsFile, ListsFiles, tells_failed_read};

use crate::listing::{ListFault, list_keys};
use crate::snapshot::{HeldFault, list_snapshot};
use rh_bytes::Counted;
use rh_key_files::KeyFault;
use rh_shelf::{Lender, ShelfFault};
use rh_snapshot::SnapFault;
use std::alloc::Global;
use std::io::{Read, Write};
use thiserror::Error;

/// What is in a file that is listed.
#[derive(Clone, Copy)]
pub enum Form {
    Keys,
    Snapshot,
}

/// Why a file was not listed, or not all of it.
#[derive(Clone, Copy, Debug, PartialEq, Eq, Error)]
pub enum FileFault {
    /// The file could not be opened. Never `ShelfFault::Write`.
    #[error(transparent)]
    Shelf(ShelfFault),
    /// The key file is refused, or could not be read, also for want of memory.
    #[error(transparent)]
    Keys(KeyFault),
    /// The snapshot is refused, or could not be read, also for want of memory.
    #[error(transparent)]
    Snap(SnapFault),
    #[error("cannot write the output")]
    Write,
}

impl From<ShelfFault> for FileFault {
    ghost use Rattle.std.specs.Prelude.{◌≡◌};
    ghost use Rattle.rh_key_texts.specs.declared.files.FileFault.TheVariants.{Shelf};

    ghost from_gives = { λ fault given. given ≡ Shelf fault };

    fn from(fault: ShelfFault) -> FileFault {
        FileFault::Shelf(fault)
    }
}

impl From<ListFault> for FileFault {
    ghost use Rattle.std.specs.Prelude.{◌≡◌};
    ghost use Rattle.rh_key_texts.specs.Files.{of_list};

    ghost from_gives = { λ fault given. given ≡ of_list fault };

    fn from(fault: ListFault) -> FileFault {
        match fault {
            ListFault::Keys(fault) => FileFault::Keys(fault),
            ListFault::Write => FileFault::Write,
        }
    }
}

impl From<HeldFault> for FileFault {
    ghost use Rattle.std.specs.Prelude.{◌≡◌};
    ghost use Rattle.rh_key_texts.specs.Files.{of_held};

    ghost from_gives = { λ fault given. given ≡ of_held fault };

    fn from(fault: HeldFault) -> FileFault {
        match fault {
            HeldFault::Snap(fault) => FileFault::Snap(fault),
            HeldFault::Write => FileFault::Write,
        }
    }
}

/// Why not all files were listed: those before `index` were, and the one there has this fault.
#[derive(Clone, Copy, Debug, PartialEq, Eq)]
pub struct FaultAt {
    pub index: usize,
    pub fault: FileFault,
}

/// Lists the files at these paths, one after the other, up to the first that has a fault.
///
/// Each file is read to its end before a byte of it is written, and `Memory` comes only where a
/// growth was refused. Each number is a write of its own, so give it a writer with a buffer.
pub fn list_files<S: Lender, W: Write>(
    alloc: Global,
    shelf: &mut S,
    paths: &[String],
    form: Form,
    writer: &mut Counted<W>,
) -> Result<(), FaultAt>
    ensures listed { ListsFiles (S.state shelf.old).files form (map string_bytes paths.now)
        (W.contents (inner_of writer.old)) (W.contents (inner_of writer.new)) result }
    ensures inside { IfErr result (λ e. e.index < length paths.now) }
    ensures same_files { (S.state shelf.new).files ≡ (S.state shelf.old).files }
    ensures missing { IfErr result (λ e. e.fault ≡ FileFault.Shelf ShelfFault.Missing →
        LacksAt (S.state shelf.old).files (map string_bytes paths.now) e.index
        ⊎ Rose (S.state shelf.old).failures (S.state shelf.new).failures) }
    ensures memory { IfErr result (λ e. e.fault ≡ FileFault.Shelf ShelfFault.Memory →
        Rose (S.state shelf.old).failures (S.state shelf.new).failures) }
    ensures no_shelf_write { IfErr result (λ e. e.fault ≢ FileFault.Shelf ShelfFault.Write) }
    ensures read { IfErr result (λ e.
        CountsReads (tells_failed_read e.fault) (S.state shelf.old) (S.state shelf.new)) }
    ensures fine { OnOk result (S.state shelf.new ≡ S.state shelf.old) }
    ensures write { IfErr result (λ e. e.fault ≡ FileFault.Write →
        Rose (failures_of writer.old) (failures_of writer.new)) }
    ensures written { OnOk result (failures_of writer.new ≡ failures_of writer.old) }
{
    for index in 0..paths.len() {
        if let Err(fault) = list_file(alloc, shelf, &paths[index], form, writer) {
            return Err(FaultAt { index, fault });
        }
    }
    Ok(())
}

/// Lists the file at the path.
fn list_file<S: Lender, W: Write>(
    alloc: Global,
    shelf: &mut S,
    path: &str,
    form: Form,
    writer: &mut Counted<W>,
) -> Result<(), FileFault>
    ensures listed { ListsFile (S.state shelf.old).files path.now form
        (W.contents (inner_of writer.old)) (W.contents (inner_of writer.new)) result }
    ensures missing { IsErrOf result (FileFault.Shelf ShelfFault.Missing) →
        Lacks (S.state shelf.old).files path.now
        ⊎ Rose (S.state shelf.old).failures (S.state shelf.new).failures }
    ensures memory { IsErrOf result (FileFault.Shelf ShelfFault.Memory) →
        Rose (S.state shelf.old).failures (S.state shelf.new).failures }
    ensures no_shelf_write { IsErrOf result (FileFault.Shelf ShelfFault.Write) → ⊥ }
    ensures read { IfErr result (λ fault.
        CountsReads (tells_failed_read fault) (S.state shelf.old) (S.state shelf.new)) }
    ensures fine { OnOk result (S.state shelf.new ≡ S.state shelf.old) }
    ensures same_files { (S.state shelf.new).files ≡ (S.state shelf.old).files }
    ensures writes { WritesLast FileFault.Write writer.old writer.new result }
{
    let mut reader = Counted::new(shelf.lend(alloc, path)?);
    let listed = list_form(alloc, form, &mut reader, writer);
    // Behind another fault a read may have failed too, but it is not told.
    if let Err(FileFault::Keys(KeyFault::Read) | FileFault::Snap(SnapFault::Read)) = listed {
        shelf.blame(&reader);
    }
    listed
}

/// Lists the file that the reader gives.
fn list_form<R: Read, W: Write>(
    alloc: Global,
    form: Form,
    reader: &mut Counted<R>,
    writer: &mut Counted<W>,
) -> Result<(), FileFault>
    ensures listed { (files : Option Files) (path : List ℕ) →
        Finds files path (R.remaining (inner_of reader.old)) →
        ListsFile files path form
        (W.contents (inner_of writer.old)) (W.contents (inner_of writer.new)) result }
    ensures no_shelf { (fault : InShelf) → IsErrOf result (FileFault.Shelf fault) → ⊥ }
    ensures read { IfErr result (λ fault. tells_failed_read fault ≡ true →
        Rose (failures_of reader.old) (failures_of reader.new)) }
    ensures writes { WritesLast FileFault.Write writer.old writer.new result }
{
    match form {
        Form::Keys => list_keys(alloc, reader, writer)?,
        Form::Snapshot => list_snapshot(alloc, reader, writer)?,
    }
    Ok(())
}
