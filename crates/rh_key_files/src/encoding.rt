//! Key files, written.

ghost use Rattle.std.specs.Prelude.{◌≡◌, ◌≤◌, ◌++◌, All, OnOk, length};
ghost use Rattle.rh_layout.specs.Key.{IsKey};
ghost use Rattle.rh_bytes.specs.Counting.{Emits};
ghost use Rattle.rh_key_files.specs.KeyFile.{header, spelled_keys, spelling};
ghost use Rattle.rh_layout.specs.declared.limits.TheConstants.{MAX_KEYS};
ghost use Rattle.rh_key_files.specs.declared.version.Version.TheVariants.{Second};

use crate::version::Version;
use byteorder::{BigEndian, ByteOrder};
use rh_bytes::{Counted, WriteFault, write_text, write_texts};
use std::alloc::AllocError;
use std::io::Write;

/// Writes the keys as a key file of the second version, in their order. `read_keys` takes it back
/// to the same list. It takes no memory. Each number is a write of its own, so give it a writer
/// with a buffer.
pub fn write_keys<W: Write>(keys: &[u64], writer: &mut Counted<W>) -> Result<(), WriteFault>
    requires few { length keys.now ≤ MAX_KEYS }
    requires keys { All IsKey keys.now }
    ensures { Emits W.contents writer.old writer.new (spelling Second keys.now) result }
{
    write_header(keys.len() as u64, writer)?;
    put_keys(keys, writer)
}

/// Writes what stands before the keys of a key file of the second version that has so many: 12
/// bytes in two writes.
pub fn write_header<W: Write>(count: u64, writer: &mut Counted<W>) -> Result<(), WriteFault>
    ensures { Emits W.contents writer.old writer.new (header Second count) result }
{
    let mut eight = [0; 8];
    BigEndian::write_u64(&mut eight, count);
    write_texts(writer, &[&Version::Second.magic(), &eight])
}

fn put_keys<W: Write>(keys: &[u64], writer: &mut Counted<W>) -> Result<(), WriteFault>
    ensures { Emits W.contents writer.old writer.new (spelled_keys keys.now) result }
{
    for key in keys {
        let mut eight = [0; 8];
        BigEndian::write_u64(&mut eight, *key);
        write_text(writer, &eight)?;
    }
    Ok(())
}

/// The same into memory: it puts the keys behind the bytes, eight bytes each, as a key file has them
/// behind its header.
pub fn append_keys(bytes: &mut Vec<u8>, keys: &[u64]) -> Result<(), AllocError>
    ensures { OnOk result (bytes.new.items ≡ bytes.old.items ++ spelled_keys keys.now) }
{
    for key in keys {
        let mut eight = [0; 8];
        BigEndian::write_u64(&mut eight, *key);
        bytes.extend_from_slice(&eight)?;
    }
    Ok(())
}
