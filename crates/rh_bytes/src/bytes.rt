//! Whole buffers from a reader and to a writer, where each error ends the call.

ghost use Rattle.std.specs.Prelude.{ℕ, List, ◌≤◌, ◌<◌, length, take, IfSome, IsNone, IsSome};
ghost use Rattle.std.specs.Prelude.{IsFalse, IsTrue};
ghost use Rattle.std.specs.Io.KnownBytes.{Consumes, IsAtEnd};
ghost use Rattle.rh_bytes.specs.Counting.{Counts, Emits, inner_of, joined};
ghost use Rattle.rh_bytes.specs.Taking.{TakesAtMost};

use crate::counted::Counted;
use crate::fault::WriteFault;
use std::io::{Read, Write};

/// How far a buffer was filled.
pub struct Filled {
    /// How many bytes were read: fewer than there is room for where the input ended or a read
    /// failed.
    pub count: usize,
    /// Whether it was a failed read that ended it.
    pub failed: bool,
}

/// Reads until the buffer is full, the input ends or a read fails. Any error of the reader is a
/// failed read, an interruption too; nothing is read after one.
pub fn fill_front<R: Read>(reader: &mut Counted<R>, buf: &mut [u8]) -> Filled
    ensures bound { result.count ≤ length buf.new }
    ensures bytes { Consumes (R.remaining (inner_of reader.old)) (R.remaining (inner_of reader.new))
        (take result.count buf.new) }
    ensures end { IsFalse result.failed → result.count < length buf.new →
        IsAtEnd (R.remaining (inner_of reader.new)) }
    ensures early { IsTrue result.failed → result.count < length buf.new }
    ensures counts { Counts (IsTrue result.failed) (IsFalse result.failed) reader.old reader.new }
{
    let mut count = 0;
    while count < buf.len() {
        match reader.read(&mut buf[count..]) {
            Ok(0) => break,
            Ok(n) => count += n,
            Err(_) => {
                return Filled {
                    count,
                    failed: true,
                };
            }
        }
    }
    Filled {
        count,
        failed: false,
    }
}

/// Reads until the buffer is full or the input ends, and how many bytes that were. `None`: a read
/// failed.
pub fn fill<R: Read>(reader: &mut Counted<R>, buf: &mut [u8]) -> Option<usize>
    ensures bound { IfSome result (λ n. n ≤ length buf.new) }
    ensures bytes { IfSome result (λ n. Consumes (R.remaining (inner_of reader.old))
        (R.remaining (inner_of reader.new)) (take n buf.new)) }
    ensures end { IfSome result (λ n. n < length buf.new →
        IsAtEnd (R.remaining (inner_of reader.new))) }
    ensures takes { TakesAtMost (R.remaining (inner_of reader.old))
        (R.remaining (inner_of reader.new)) (length buf.new) }
    ensures counts { Counts (IsNone result) (IsSome result) reader.old reader.new }
{
    let Filled { count, failed } = fill_front(reader, buf);
    if failed {
        return None;
    }
    Some(count)
}

/// Writes all of the text. A write that takes no byte ends it too.
pub fn write_text<W: Write>(writer: &mut Counted<W>, text: &[u8]) -> Result<(), WriteFault>
    ensures { Emits W.contents writer.old writer.new text.now result }
{
    let mut at = 0;
    while at < text.len() {
        match writer.write(&text[at..]) {
            Ok(0) => return Err(WriteFault::Write),
            Ok(n) => at += n,
            Err(_) => return Err(WriteFault::Write),
        }
    }
    Ok(())
}

/// Writes the texts in turn. A write that takes no byte is a failure, and where one fails, a front
/// of the texts may have been written. Each text is a write of its own.
pub fn write_texts<W: Write>(writer: &mut Counted<W>, texts: &[&[u8]]) -> Result<(), WriteFault>
    ensures { Emits W.contents writer.old writer.new (joined texts.now) result }
{
    for text in texts {
        write_text(writer, text)?;
    }
    Ok(())
}
