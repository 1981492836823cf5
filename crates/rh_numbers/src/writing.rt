//! Texts of numbers, written.

ghost use Rattle.std.specs.Prelude.{◌≡◌, ◌++◌, OnOk};
ghost use Rattle.rh_bytes.specs.Counting.{Emits};
ghost use Rattle.rh_numbers.specs.Writing.{number_line, text_of};

use itoa::Buffer;
use rh_bytes::{Counted, WriteFault, write_texts};
use std::alloc::AllocError;
use std::io::Write;

/// Writes the numbers as a text, one a line, each ended by LF. `read_numbers` takes it back to the
/// same list, where they are keys and not too many. It takes no memory. Each line is two writes, so
/// give it a writer with a buffer.
pub fn write_numbers<W: Write>(numbers: &[u64], writer: &mut Counted<W>) -> Result<(), WriteFault>
    ensures { Emits W.contents writer.old writer.new (text_of numbers.now) result }
{
    for number in numbers {
        put_line(*number, writer)?;
    }
    Ok(())
}

fn put_line<W: Write>(number: u64, writer: &mut Counted<W>) -> Result<(), WriteFault>
    ensures { Emits W.contents writer.old writer.new (number_line number) result }
{
    let mut buffer = Buffer::new();
    let digits = buffer.format(number).as_bytes();
    write_texts(writer, &[digits, b"\n"])
}

/// The same into memory: it puts the numbers behind the bytes, one a line, each ended by LF.
pub fn append_numbers(bytes: &mut Vec<u8>, numbers: &[u64]) -> Result<(), AllocError>
    ensures { OnOk result (bytes.new.items ≡ bytes.old.items ++ text_of numbers.now) }
{
    for number in numbers {
        append_line(bytes, *number)?;
    }
    Ok(())
}

fn append_line(bytes: &mut Vec<u8>, number: u64) -> Result<(), AllocError>
    ensures { OnOk result (bytes.new.items ≡ bytes.old.items ++ number_line number) }
{
    let mut buffer = Buffer::new();
    bytes.extend_from_slice(buffer.format(number).as_bytes())?;
    bytes.push(b'\n')?;
    Ok(())
}
