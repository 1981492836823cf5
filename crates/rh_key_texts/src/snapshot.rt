//! The command `list --snapshot`: the keys of a snapshot become a text of numbers.

ghost use Rattle.std.specs.Prelude.{◌≡◌, IsErrOf};
ghost use Rattle.rh_bytes.specs.Counting.{CountsFault, WritesLast, inner_of};
ghost use Rattle.rh_snapshot.specs.Reading.{BeginsWithSnapHeader};
ghost use Rattle.rh_snapshot.specs.Limits.{TakesOfSnap};
ghost use Rattle.rh_key_texts.specs.List.{ComesFirstOrLast, ListsHeld, fault_held};

use rh_bytes::{Counted, WriteFault};
use rh_edit::SeqSet;
use rh_numbers::write_numbers;
use rh_snapshot::{SnapFault, read_snapshot};
use std::alloc::{AllocError, Global};
use std::io::{Read, Write};
use thiserror::Error;

/// Why the keys of a snapshot were not listed, or not all of them.
#[derive(Clone, Copy, Debug, PartialEq, Eq, Error)]
pub enum HeldFault {
    /// The snapshot is refused, or could not be read. Want of memory is told here too, wherever it
    /// came.
    #[error(transparent)]
    Snap(SnapFault),
    #[error("cannot write the output")]
    Write,
}

impl From<SnapFault> for HeldFault {
    ghost use Rattle.std.specs.Prelude.{◌≡◌};
    ghost use Rattle.rh_key_texts.specs.declared.snapshot.HeldFault.TheVariants.{Snap};

    ghost from_gives = { λ fault given. given ≡ Snap fault };

    fn from(fault: SnapFault) -> HeldFault {
        HeldFault::Snap(fault)
    }
}

impl From<AllocError> for HeldFault {
    ghost use Rattle.std.specs.Prelude.{◌≡◌};
    ghost use Rattle.rh_key_texts.specs.declared.snapshot.HeldFault.TheVariants.{Snap};
    ghost use Rattle.rh_snapshot.specs.declared.fault.SnapFault.TheVariants.{Memory};

    ghost from_gives = { λ _ fault. fault ≡ Snap Memory };

    fn from(_error: AllocError) -> HeldFault {
        HeldFault::Snap(SnapFault::Memory)
    }
}

impl From<WriteFault> for HeldFault {
    ghost use Rattle.std.specs.Prelude.{◌≡◌};
    ghost use Rattle.rh_key_texts.specs.declared.snapshot.HeldFault.TheVariants.{Write};

    ghost from_gives = { λ _ fault. fault ≡ Write };

    fn from(_fault: WriteFault) -> HeldFault {
        HeldFault::Write
    }
}

/// Reads a snapshot of either version, and writes its keys as a text, one a line, in rising order.
///
/// The snapshot is read to its end before a byte is written, and its keys are put in order in
/// memory. `Snap(Memory)` comes only where a growth was refused. Each number is read and written by
/// itself, so give it a reader and a writer with buffers.
pub fn list_snapshot<R: Read, W: Write>(
    alloc: Global,
    reader: &mut Counted<R>,
    writer: &mut Counted<W>,
) -> Result<(), HeldFault>
    ensures listed { ListsHeld (R.remaining (inner_of reader.old))
        (R.remaining (inner_of reader.new))
        (W.contents (inner_of writer.old)) (W.contents (inner_of writer.new)) result }
    ensures takes { TakesOfSnap (R.remaining (inner_of reader.old))
        (R.remaining (inner_of reader.new)) (fault_held result) }
    ensures counts { CountsFault (HeldFault.Snap SnapFault.Read) reader.old reader.new result }
    ensures memory { IsErrOf result (HeldFault.Snap SnapFault.Memory) →
        BeginsWithSnapHeader (R.remaining (inner_of reader.old)) }
    ensures comes { IsErrOf result (HeldFault.Snap SnapFault.Memory) →
        ComesFirstOrLast (R.remaining (inner_of reader.old)) (R.remaining (inner_of reader.new)) }
    ensures writes { WritesLast HeldFault.Write writer.old writer.new result }
{
    let snapshot = read_snapshot(alloc, reader)?;
    let set = SeqSet::from_cells(snapshot.bits, snapshot.cells);
    let keys = set.sorted_keys(alloc)?;
    write_numbers(&keys, writer)?;
    Ok(())
}
