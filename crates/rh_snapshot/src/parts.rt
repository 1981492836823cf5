//! The parts of a snapshot before its end, read one after the other.

ghost use Rattle.std.specs.Prelude.{◌≡◌, ◌*◌, ◌^◌, length, IfOk};
ghost use Rattle.std.specs.Int.{w64, from_be_bytes};
ghost use Rattle.sha2.specs.Sha256.{sha256};
ghost use Rattle.rh_layout.specs.Key.{IsBits};
ghost use Rattle.rh_bytes.specs.Counting.{CountsFault, inner_of};
ghost use Rattle.rh_bytes.specs.Taking.{TakesAtMost};
ghost use Rattle.rh_bytes.specs.Input.{always, bytes_at, eight_bytes, fault_of};
ghost use Rattle.rh_snapshot.specs.Limits.{snap_header_taken, snap_magic_bytes, numbers_taken, seal_bytes};
ghost use Rattle.rh_snapshot.specs.Snapshot.{text_of};
ghost use Rattle.rh_snapshot.specs.Parts.{ReadsSnapPart};
ghost use Rattle.rh_snapshot.specs.Reading.{ReadsSnap, bits_at, numbers_at, snap_header_at};
ghost use Rattle.rh_snapshot.specs.Reading.{snap_version_at};

use crate::fault::SnapFault;
use crate::header::Header;
use crate::version::Version;
use rh_bytes::{Counted, read_bytes, read_number};
use sha2::{Digest, Sha256};
use std::alloc::Global;
use std::io::Read;

fn read_version<R: Read>(reader: &mut Counted<R>) -> Result<Version, SnapFault>
    ensures { ReadsSnapPart R.remaining reader.old reader.new
        snap_version_at (λ v. v) snap_magic_bytes result }
{
    let mut four = [0u8; 4];
    read_bytes::<_, SnapFault>(reader, &mut four)?;
    if four == Version::First.magic() {
        return Ok(Version::First);
    }
    if four == Version::Second.magic() {
        return Ok(Version::Second);
    }
    Err(SnapFault::NotSnapshot)
}

fn read_bits<R: Read>(reader: &mut Counted<R>, version: Version) -> Result<u32, SnapFault>
    ensures reads { ReadsSnapPart R.remaining reader.old reader.new
        (bits_at version) (λ b. b) 1 result }
    ensures in_range { IfOk result IsBits }
{
    let mut one = [0u8; 1];
    read_bytes::<_, SnapFault>(reader, &mut one)?;
    let bits = u32::from(one[0]);
    if !version.allows(bits) {
        return Err(SnapFault::BadBits);
    }
    Ok(bits)
}

pub(crate) fn read_header<R: Read>(reader: &mut Counted<R>) -> Result<Header, SnapFault>
    ensures reads { ReadsSnapPart R.remaining reader.old reader.new
        snap_header_at (λ h. h) (snap_header_taken (fault_of result)) result }
    ensures in_range { IfOk result (λ h. IsBits h.bits) }
{
    let version = read_version(reader)?;
    let bits = read_bits(reader, version)?;
    let count = read_number::<_, SnapFault>(reader)?;
    Ok(Header {
        version,
        bits,
        count,
    })
}

/// The number that these bytes spell, the highest first.
fn number_of(eight: &[u8; 8]) -> u64
    ensures value { result ≡ from_be_bytes w64 eight.now }
    ensures spelled { eight_bytes result ≡ eight.now }
{
    u64::from_be_bytes(*eight)
}

/// Fills the slice with numbers, and hashes their bytes as they come, after their header. The
/// digest is the seal that they should have.
fn fill_numbers<R: Read>(
    reader: &mut Counted<R>,
    header: Header,
    numbers: &mut [u64],
) -> Result<[u8; 32], SnapFault>
    requires { IsBits header.bits }
    ensures reads { ReadsSnapPart R.remaining reader.old reader.new
        (numbers_at (length numbers.new)) (always numbers.new) (8 * length numbers.new) result }
    ensures digest { IfOk result (λ d. d ≡ sha256 (text_of header numbers.new)) }
{
    let mut hasher = header.hasher();
    for slot in numbers.iter_mut() {
        let mut eight = [0u8; 8];
        read_bytes::<_, SnapFault>(reader, &mut eight)?;
        hasher.update(eight);
        *slot = number_of(&eight);
    }
    Ok(hasher.finalize())
}

/// The numbers, and the seal that they should have. The memory for them is taken at once.
pub(crate) fn read_numbers<R: Read>(
    alloc: Global,
    reader: &mut Counted<R>,
    header: Header,
) -> Result<(Vec<u64>, [u8; 32]), SnapFault>
    requires { IsBits header.bits }
    ensures known { ReadsSnap (R.remaining (inner_of reader.old))
        (R.remaining (inner_of reader.new))
        (numbers_at (2 ^ header.bits)) (λ n. n.0.items) result }
    ensures digest { IfOk result (λ n. n.1 ≡ sha256 (text_of header n.0.items)) }
    ensures takes { TakesAtMost (R.remaining (inner_of reader.old))
        (R.remaining (inner_of reader.new)) (numbers_taken (2 ^ header.bits) (fault_of result)) }
    ensures counts { CountsFault SnapFault.Read reader.old reader.new result }
{
    let Ok(mut numbers) = vec![in alloc; 0u64; 1 << header.bits] else {
        return Err(SnapFault::Memory);
    };
    let digest = fill_numbers(reader, header, &mut numbers)?;
    Ok((numbers, digest))
}

pub(crate) fn read_seal<R: Read>(reader: &mut Counted<R>) -> Result<[u8; 32], SnapFault>
    ensures { ReadsSnapPart R.remaining reader.old reader.new
        (bytes_at SnapFault.Short 32) (λ s. s) seal_bytes result }
{
    let mut seal = [0u8; 32];
    read_bytes::<_, SnapFault>(reader, &mut seal)?;
    Ok(seal)
}
