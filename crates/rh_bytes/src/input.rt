//! Bytes, numbers and the end of a binary file, read one after the other. What is wrong is told as
//! a fault of that file, which the caller names: `read_bytes::<_, KeyFault>(reader, &mut four)?`.

ghost use Rattle.std.specs.Prelude.{◌≡◌, ℕ, Bool, [], length};
ghost use Rattle.rh_bytes.specs.Input.{AreFaults, always, bytes_at, number_at, end_at};
ghost use Rattle.rh_bytes.specs.Parts.{ReadsPart};

use crate::bytes::fill;
use crate::counted::Counted;
use byteorder::{BigEndian, ByteOrder};
use std::io::Read;

/// Why a file of some kind could not be read.
pub trait InputFault: Copy {
    /// Whether the fault says nothing of the bytes.
    ghost is_silent: { Self → Bool };

    ghost short_fault: { Self };

    ghost long_fault: { Self };

    ghost read_fault: { Self };

    /// Memory was refused, which is told of no part of a file here.
    ghost memory_fault: { Self };

    /// The file ends early.
    fn short() -> Self
        ensures { result ≡ short_fault };

    /// The file goes on after its end.
    fn long() -> Self
        ensures { result ≡ long_fault };

    /// A read failed.
    fn read() -> Self
        ensures { result ≡ read_fault };

    ghost are_faults: { AreFaults is_silent short_fault long_fault read_fault memory_fault };
}

/// Fills the buffer.
pub fn read_bytes<R: Read, E: InputFault>(reader: &mut Counted<R>, buf: &mut [u8]) -> Result<(), E>
    ensures { ReadsPart R.remaining E.is_silent E.read_fault E.memory_fault reader.old reader.new
        (bytes_at E.short_fault (length buf.new)) (always buf.new) (length buf.new) result }
{
    let Some(n) = fill(reader, buf) else {
        return Err(E::read());
    };
    if n < buf.len() {
        return Err(E::short());
    }
    Ok(())
}

/// A number of 8 bytes, the highest first.
pub fn read_number<R: Read, E: InputFault>(reader: &mut Counted<R>) -> Result<u64, E>
    ensures { ReadsPart R.remaining E.is_silent E.read_fault E.memory_fault reader.old reader.new
        (number_at E.short_fault) (λ n. n) 8 result }
{
    let mut eight = [0u8; 8];
    read_bytes::<_, E>(reader, &mut eight)?;
    Ok(BigEndian::read_u64(&eight))
}

/// Tests that nothing comes any more.
pub fn read_end<R: Read, E: InputFault>(reader: &mut Counted<R>) -> Result<(), E>
    ensures { ReadsPart R.remaining E.is_silent E.read_fault E.memory_fault reader.old reader.new
        (end_at E.long_fault) (λ _. []) 1 result }
{
    let mut one = [0u8; 1];
    let Some(n) = fill(reader, &mut one) else {
        return Err(E::read());
    };
    if n > 0 {
        return Err(E::long());
    }
    Ok(())
}
