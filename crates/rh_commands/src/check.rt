//! The command `check`: whether a file is a snapshot, and of what table.

ghost use Rattle.std.specs.Prelude.{◌≡◌, IsErrOf};
ghost use Rattle.hex.specs.Hex.{encode_lower};
ghost use Rattle.rh_bytes.specs.Counting.{CountsFault, Emits, WritesLast, inner_of};
ghost use Rattle.rh_snapshot.specs.Reading.{BeginsWithSnapHeader, table_as};
ghost use Rattle.rh_snapshot.specs.Limits.{TakesOfSnap};
ghost use Rattle.rh_commands.specs.Check.{Checks, check_text, snap_fault_in};

use itoa::Buffer;
use rh_bytes::{Counted, WriteFault, write_texts};
use rh_snapshot::{SnapFault, Snapshot, read_snapshot};
use std::alloc::Global;
use std::io::{Read, Write};
use thiserror::Error;

/// Why a snapshot was not told, or not all of it.
#[derive(Clone, Copy, Debug, PartialEq, Eq, Error)]
pub enum CheckFault {
    /// The snapshot is refused, or could not be read, also for want of memory.
    #[error(transparent)]
    Snap(SnapFault),
    #[error("cannot write the output")]
    Write,
}

impl From<SnapFault> for CheckFault {
    ghost use Rattle.std.specs.Prelude.{◌≡◌};
    ghost use Rattle.rh_commands.specs.declared.check.CheckFault.TheVariants.{Snap};

    ghost from_gives = { λ fault given. given ≡ Snap fault };

    fn from(fault: SnapFault) -> CheckFault {
        CheckFault::Snap(fault)
    }
}

impl From<WriteFault> for CheckFault {
    ghost use Rattle.std.specs.Prelude.{◌≡◌};
    ghost use Rattle.rh_commands.specs.declared.check.CheckFault.TheVariants.{Write};

    ghost from_gives = { λ _ fault. fault ≡ Write };

    fn from(_fault: WriteFault) -> CheckFault {
        CheckFault::Write
    }
}

/// Reads a snapshot and writes the line `bits B held N seal HEX` of its table, ended by LF: HEX is
/// the seal in 64 lower-case hexadecimal digits.
///
/// Only the reading takes memory, and `Snap(Memory)` comes only where a growth was refused. Each
/// number and each word is a write of its own, so give it a writer with a buffer.
pub fn check_snapshot<R: Read, W: Write>(
    alloc: Global,
    reader: &mut Counted<R>,
    writer: &mut Counted<W>,
) -> Result<(), CheckFault>
    ensures checked { Checks (R.remaining (inner_of reader.old)) (R.remaining (inner_of reader.new))
        (W.contents (inner_of writer.old)) (W.contents (inner_of writer.new)) result }
    ensures takes { TakesOfSnap (R.remaining (inner_of reader.old))
        (R.remaining (inner_of reader.new)) (snap_fault_in result) }
    ensures counts { CountsFault (CheckFault.Snap SnapFault.Read) reader.old reader.new result }
    ensures memory { IsErrOf result (CheckFault.Snap SnapFault.Memory) →
        BeginsWithSnapHeader (R.remaining (inner_of reader.old)) }
    ensures writes { WritesLast CheckFault.Write writer.old writer.new result }
{
    let table = read_snapshot(alloc, reader)?;
    put_line(writer, &table)?;
    Ok(())
}

fn put_line<W: Write>(writer: &mut Counted<W>, table: &Snapshot) -> Result<(), WriteFault>
    ensures { Emits W.contents writer.old writer.new (check_text (table_as table.now)) result }
{
    let (mut first, mut second) = (Buffer::new(), Buffer::new());
    let bits = first.format(table.bits).as_bytes();
    let held = second.format(table.count).as_bytes();
    let seal = digits_of(&table.seal);
    let texts: [&[u8]; 7] = [b"bits ", bits, b" held ", held, b" seal ", &seal, b"\n"];
    write_texts(writer, &texts)
}

/// The seal in hexadecimal digits.
fn digits_of(seal: &[u8; 32]) -> [u8; 64]
    ensures { result ≡ encode_lower seal.now }
{
    let mut digits = [0; 64];
    hex::encode_to_slice(seal, &mut digits).unwrap();
    digits
}
