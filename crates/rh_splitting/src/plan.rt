//! Parts that are counted, and how many keys each was given, as a text.

ghost use Rattle.std.specs.Prelude.{◌≡◌, ◌≤◌, ◌+◌, ◌%◌, All, IfOk, length};
ghost use Rattle.rh_bytes.specs.Counting.{Emits};
ghost use Rattle.rh_parts.specs.declared.part.TheConstants.{MAX_PARTS};
ghost use Rattle.rh_splitting.specs.Plan.{keys_given, last_line, part_line, part_lines, plan_text};
ghost use Rattle.rh_splitting.specs.Plan.{IsCounting, three_digits};

use crate::number::parts_for;
use crate::part::Part;
use itoa::Buffer;
use rh_bytes::{Counted, WriteFault, write_texts};
use std::alloc::{AllocError, Global};
use std::io::{self, Sink, Write};

/// So many parts whose keys are counted, as many as come, and written nowhere.
pub fn counting_parts(alloc: Global, count: u64) -> Result<Vec<Part<Sink>>, AllocError>
    ensures many { IfOk result (λ parts. length parts.items ≡ count) }
    ensures counting { IfOk result (λ parts. All IsCounting parts.items) }
{
    let mut parts = Vec::new(alloc);
    for _ in 0..count {
        parts.push(Part::new(io::sink(), u64::MAX))?;
    }
    Ok(parts)
}

/// Writes a line for each part: its number, in three digits, and how many keys it was given. Then
/// one line with the number of all keys, and of how many parts would do.
pub fn write_plan<P, W: Write>(parts: &[Part<P>], writer: &mut Counted<W>) -> Result<(), WriteFault>
    requires { length parts.now ≤ MAX_PARTS }
    ensures { Emits W.contents writer.old writer.new (plan_text parts.now) result }
{
    let Ok(()) = put_lines(parts, writer) else {
        return Err(WriteFault::Write);
    };
    put_last_line(keys_given(parts), writer)
}

/// Writes a line for each part.
fn put_lines<P, W: Write>(parts: &[Part<P>], writer: &mut Counted<W>) -> Result<(), WriteFault>
    requires { length parts.now ≤ MAX_PARTS }
    ensures { Emits W.contents writer.old writer.new (part_lines 0 parts.now) result }
{
    let mut number = 0;
    for part in parts {
        put_line(number, part.count(), writer)?;
        number += 1;
    }
    Ok(())
}

fn put_line<W: Write>(part: u64, count: u64, writer: &mut Counted<W>) -> Result<(), WriteFault>
    ensures { Emits W.contents writer.old writer.new (part_line part count) result }
{
    let mut buffer = Buffer::new();
    let digits = buffer.format(count).as_bytes();
    write_texts(writer, &[&three_digits(part), b" ", digits, b"\n"])
}

/// How many keys all the parts were given.
fn keys_given<P>(parts: &[Part<P>]) -> u128
    requires { length parts.now ≤ MAX_PARTS }
    ensures { result ≡ keys_given parts.now }
{
    let mut keys = 0;
    for part in parts {
        keys += u128::from(part.count());
    }
    keys
}

fn put_last_line<W: Write>(keys: u128, writer: &mut Counted<W>) -> Result<(), WriteFault>
    ensures { Emits W.contents writer.old writer.new (last_line keys) result }
{
    let (mut buffer, mut other) = (Buffer::new(), Buffer::new());
    let digits = buffer.format(keys).as_bytes();
    let parts = other.format(parts_for(keys)).as_bytes();
    write_texts(writer, &[b"keys ", digits, b" parts ", parts, b"\n"])
}

/// The name of a part's folder.
fn three_digits(part: u64) -> [u8; 3]
    ensures { result ≡ three_digits part }
{
    [digit(part / 100), digit(part / 10), digit(part)]
}

/// The last digit of a number.
fn digit(n: u64) -> u8
    ensures { result ≡ 48 + n % 10 }
{
    b'0' + (n % 10) as u8
}
