//! The command `dump`: the table of the keys of a key file.

ghost use Rattle.std.specs.Prelude.{◌≡◌, IsErrOf};
ghost use Rattle.rh_bytes.specs.Counting.{Counts, WritesLast, inner_of};
ghost use Rattle.rh_key_files.specs.Limits.{NoKeyReadFailed, TakesOfFile};
ghost use Rattle.rh_commands.specs.Dump.{Dumps, dump_fault_in};

use rh_bytes::{Counted, WriteFault};
use rh_dump::write_dump;
use rh_edit::SeqSet;
use rh_grow::bits_for;
use rh_key_files::{KeyFault, read_keys};
use rh_layout::MIN_BITS;
use std::alloc::{AllocError, Global};
use std::io::{Read, Write};
use thiserror::Error;

/// Why there is no dump, or not all of it.
#[derive(Clone, Copy, Debug, PartialEq, Eq, Error)]
pub enum DumpFault {
    /// The key file is refused, or could not be read. Never want of memory.
    #[error(transparent)]
    Keys(KeyFault),
    /// No table is large enough.
    #[error("table too large")]
    TooLarge,
    #[error("out of memory")]
    Memory,
    #[error("cannot write the output")]
    Write,
}

impl From<KeyFault> for DumpFault {
    ghost use Rattle.std.specs.Prelude.{◌≡◌};
    ghost use Rattle.rh_commands.specs.Dump.{from_keys};

    ghost from_gives = { λ fault given. given ≡ from_keys fault };

    fn from(fault: KeyFault) -> DumpFault {
        match fault {
            KeyFault::Memory => DumpFault::Memory,
            other => DumpFault::Keys(other),
        }
    }
}

impl From<AllocError> for DumpFault {
    ghost use Rattle.std.specs.Prelude.{◌≡◌};
    ghost use Rattle.rh_commands.specs.declared.dump.DumpFault.TheVariants.{Memory};

    ghost from_gives = { λ _ fault. fault ≡ Memory };

    fn from(_error: AllocError) -> DumpFault {
        DumpFault::Memory
    }
}

impl From<WriteFault> for DumpFault {
    ghost use Rattle.std.specs.Prelude.{◌≡◌};
    ghost use Rattle.rh_commands.specs.declared.dump.DumpFault.TheVariants.{Write};

    ghost from_gives = { λ _ fault. fault ≡ Write };

    fn from(_fault: WriteFault) -> DumpFault {
        DumpFault::Write
    }
}

/// Writes the dump of the keys of a key file, added to an empty table.
///
/// The table has the least bits that the keys fit, repeats counted. `Memory` comes only where a
/// growth was refused.
pub fn dump_keys<R: Read, W: Write>(
    alloc: Global,
    reader: &mut Counted<R>,
    writer: &mut Counted<W>,
) -> Result<(), DumpFault>
    ensures dumped { Dumps (R.remaining (inner_of reader.old)) (R.remaining (inner_of reader.new))
        (W.contents (inner_of writer.old)) (W.contents (inner_of writer.new)) result }
    ensures takes { TakesOfFile (R.remaining (inner_of reader.old))
        (R.remaining (inner_of reader.new)) (dump_fault_in result) }
    ensures counts { Counts (IsErrOf result (DumpFault.Keys KeyFault.Read))
        (NoKeyReadFailed (dump_fault_in result)) reader.old reader.new }
    ensures writes { WritesLast DumpFault.Write writer.old writer.new result }
{
    let keys = read_keys(alloc, reader)?;
    let Some(bits) = bits_for(MIN_BITS, 0, keys.len() as u64) else {
        return Err(DumpFault::TooLarge);
    };
    let set = SeqSet::from_keys(alloc, bits, &keys)?;
    write_dump(bits, set.cells(), writer)?;
    Ok(())
}
