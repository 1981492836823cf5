//! The command `pack`: a text of numbers becomes a key file.

ghost use Rattle.std.specs.Prelude.{◌≡◌, ◌≢◌, IfErr, IsErrOf};
ghost use Rattle.rh_bytes.specs.Counting.{Counts, WritesLast, inner_of};
ghost use Rattle.rh_numbers.specs.Reading.{NoTextReadFailed, TakesFew, TakesFewParts, TakesToFault};
ghost use Rattle.rh_key_texts.specs.Pack.{Packs, fault_in_text};

use rh_bytes::{Counted, WriteFault};
use rh_key_files::write_keys;
use rh_numbers::{TextFault, read_numbers};
use std::alloc::Global;
use std::io::{Read, Write};
use thiserror::Error;

/// Why a text was not packed, or not all of it.
#[derive(Clone, Copy, Debug, PartialEq, Eq, Error)]
pub enum PackFault {
    /// The text is refused, or could not be read, also for want of memory.
    #[error(transparent)]
    Text(TextFault),
    #[error("cannot write the output")]
    Write,
}

impl From<TextFault> for PackFault {
    ghost use Rattle.std.specs.Prelude.{◌≡◌};
    ghost use Rattle.rh_key_texts.specs.declared.packing.PackFault.TheVariants.{Text};

    ghost from_gives = { λ fault given. given ≡ Text fault };

    fn from(fault: TextFault) -> PackFault {
        PackFault::Text(fault)
    }
}

impl From<WriteFault> for PackFault {
    ghost use Rattle.std.specs.Prelude.{◌≡◌};
    ghost use Rattle.rh_key_texts.specs.declared.packing.PackFault.TheVariants.{Write};

    ghost from_gives = { λ _ fault. fault ≡ Write };

    fn from(_fault: WriteFault) -> PackFault {
        PackFault::Write
    }
}

/// Reads a text of numbers, and writes the key file of exactly these, in their order.
///
/// The text is read to its end before a byte is written. Only the reading takes memory, and
/// `Text(Memory)` comes only where a growth was refused, before a part of the text was read. Each
/// number is a write of its own, so give it a writer with a buffer; the reading needs none.
pub fn pack<R: Read, W: Write>(
    alloc: Global,
    reader: &mut Counted<R>,
    writer: &mut Counted<W>,
) -> Result<(), PackFault>
    ensures packed { Packs (R.remaining (inner_of reader.old)) (R.remaining (inner_of reader.new))
        (W.contents (inner_of writer.old)) (W.contents (inner_of writer.new)) result }
    ensures takes { IfErr result (λ fault. fault ≢ PackFault.Write →
        TakesToFault (R.remaining (inner_of reader.old)) (R.remaining (inner_of reader.new))) }
    ensures tested { IsErrOf result (PackFault.Text TextFault.Read) →
        TakesFew (R.remaining (inner_of reader.old)) (R.remaining (inner_of reader.new)) }
    ensures memory { IsErrOf result (PackFault.Text TextFault.Memory) →
        TakesFewParts (R.remaining (inner_of reader.old)) (R.remaining (inner_of reader.new)) }
    ensures counts { Counts (IsErrOf result (PackFault.Text TextFault.Read))
        (NoTextReadFailed (fault_in_text result)) reader.old reader.new }
    ensures writes { WritesLast PackFault.Write writer.old writer.new result }
{
    let keys = read_numbers(alloc, reader)?;
    write_keys(&keys, writer)?;
    Ok(())
}
