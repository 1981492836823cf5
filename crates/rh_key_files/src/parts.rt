//! The parts of a key file before its keys, read one after the other.

ghost use Rattle.std.specs.Prelude.{◌≤◌, IfOk};
ghost use Rattle.rh_bytes.specs.Input.{fault_of};
ghost use Rattle.rh_key_files.specs.Limits.{header_taken, magic_bytes};
ghost use Rattle.rh_key_files.specs.Parts.{ReadsHead};
ghost use Rattle.rh_key_files.specs.Reading.{version_at, count_at, header_at};

use crate::fault::KeyFault;
use crate::header::Header;
use crate::version::Version;
use rh_bytes::{Counted, read_bytes, read_number};
use rh_layout::MAX_KEYS;
use std::io::Read;

pub(crate) fn read_version<R: Read>(reader: &mut Counted<R>) -> Result<Version, KeyFault>
    ensures { ReadsHead R.remaining reader.old reader.new version_at (λ v. v) magic_bytes result }
{
    let mut four = [0u8; 4];
    read_bytes::<_, KeyFault>(reader, &mut four)?;
    if four == Version::First.magic() {
        return Ok(Version::First);
    }
    if four == Version::Second.magic() {
        return Ok(Version::Second);
    }
    Err(KeyFault::NotKeys)
}

fn read_count<R: Read>(reader: &mut Counted<R>) -> Result<u64, KeyFault>
    ensures reads { ReadsHead R.remaining reader.old reader.new count_at (λ n. n) 8 result }
    ensures few { IfOk result (λ n. n ≤ MAX_KEYS) }
{
    let count = read_number::<_, KeyFault>(reader)?;
    if count > MAX_KEYS {
        return Err(KeyFault::TooMany);
    }
    Ok(count)
}

pub(crate) fn read_header<R: Read>(reader: &mut Counted<R>) -> Result<Header, KeyFault>
    ensures reads { ReadsHead R.remaining reader.old reader.new header_at (λ h. h)
        (header_taken (fault_of result)) result }
    ensures few { IfOk result (λ h. h.count ≤ MAX_KEYS) }
{
    let version = read_version(reader)?;
    let count = read_count(reader)?;
    Ok(Header { version, count })
}
