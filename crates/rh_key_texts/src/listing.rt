//! The command `list`: a key file becomes a text of numbers.

ghost use Rattle.std.specs.Prelude.{◌≡◌, IsErrOf};
ghost use Rattle.std.specs.List.{flat_map};
ghost use Rattle.rh_bytes.specs.Counting.{Counts, Emits, WritesLast, inner_of};
ghost use Rattle.rh_key_files.specs.Reading.{BeginsWithLongHeader, TakesGoodKeys, long_header_at};
ghost use Rattle.rh_key_files.specs.Limits.{NoKeyReadFailed, TakesOfLongFile};
ghost use Rattle.rh_numbers.specs.Writing.{text_of};
ghost use Rattle.rh_key_texts.specs.List.{Lists, list_fault_in};

use rh_bytes::{Counted, WriteFault};
use rh_key_files::{KeyFault, read_long_keys};
use rh_numbers::write_numbers;
use std::alloc::Global;
use std::io::{Read, Write};
use thiserror::Error;

/// Why a key file was not listed, or not all of it.
#[derive(Clone, Copy, Debug, PartialEq, Eq, Error)]
pub enum ListFault {
    /// The key file is refused, or could not be read, also for want of memory.
    #[error(transparent)]
    Keys(KeyFault),
    #[error("cannot write the output")]
    Write,
}

impl From<KeyFault> for ListFault {
    ghost use Rattle.std.specs.Prelude.{◌≡◌};
    ghost use Rattle.rh_key_texts.specs.declared.listing.ListFault.TheVariants.{Keys};

    ghost from_gives = { λ fault given. given ≡ Keys fault };

    fn from(fault: KeyFault) -> ListFault {
        ListFault::Keys(fault)
    }
}

impl From<WriteFault> for ListFault {
    ghost use Rattle.std.specs.Prelude.{◌≡◌};
    ghost use Rattle.rh_key_texts.specs.declared.listing.ListFault.TheVariants.{Write};

    ghost from_gives = { λ _ fault. fault ≡ Write };

    fn from(_fault: WriteFault) -> ListFault {
        ListFault::Write
    }
}

/// Reads a key file of either version and of any number of keys, and writes its keys as a text, one
/// a line, in their order.
///
/// The file is read to its end before a byte is written. Only the reading takes memory, 8 bytes for
/// each key, and `Keys(Memory)` comes only where a growth was refused. Each number is written by
/// itself, so give it a writer with a buffer.
pub fn list_keys<R: Read, W: Write>(
    alloc: Global,
    reader: &mut Counted<R>,
    writer: &mut Counted<W>,
) -> Result<(), ListFault>
    ensures listed { Lists (R.remaining (inner_of reader.old)) (R.remaining (inner_of reader.new))
        (W.contents (inner_of writer.old)) (W.contents (inner_of writer.new)) result }
    ensures takes { TakesOfLongFile (R.remaining (inner_of reader.old))
        (R.remaining (inner_of reader.new)) (list_fault_in result) }
    ensures counts { Counts (IsErrOf result (ListFault.Keys KeyFault.Read))
        (NoKeyReadFailed (list_fault_in result)) reader.old reader.new }
    ensures tested { IsErrOf result (ListFault.Keys KeyFault.Read) → TakesGoodKeys long_header_at
        (R.remaining (inner_of reader.old)) (R.remaining (inner_of reader.new)) }
    ensures memory { IsErrOf result (ListFault.Keys KeyFault.Memory) →
        BeginsWithLongHeader (R.remaining (inner_of reader.old)) }
    ensures tested_too { IsErrOf result (ListFault.Keys KeyFault.Memory) →
        TakesGoodKeys long_header_at (R.remaining (inner_of reader.old))
        (R.remaining (inner_of reader.new)) }
    ensures writes { WritesLast ListFault.Write writer.old writer.new result }
{
    let pieces = read_long_keys(alloc, reader)?;
    write_pieces(&pieces, writer)?;
    Ok(())
}

/// Writes the texts of the pieces, one after the other.
fn write_pieces<W: Write>(pieces: &[Vec<u64>], writer: &mut Counted<W>) -> Result<(), WriteFault>
    ensures { Emits W.contents writer.old writer.new
        (flat_map (λ piece. text_of piece.items) pieces.now) result }
{
    for piece in pieces {
        write_numbers(piece, writer)?;
    }
    Ok(())
}
