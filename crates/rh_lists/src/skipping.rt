//! A list whose first lines are passed by, as a heading is.

ghost use Rattle.std.specs.Prelude.{◌≡◌, ◌≤◌, ◌⊎◌, ◌++◌, ℕ, List, [], false, take};
ghost use Rattle.rh_lists.specs.Blanks.{blanked, skipping};
ghost use Rattle.rh_lists.specs.declared.skipping.TheConstants.{MAGIC_BYTES};

use crate::blanks::blank;
use rh_bytes::{Counted, Filled, fill_front};
use rh_key_files::Version;
use std::io::{self, ErrorKind, Read};

/// How many bytes the magic of a key file has.
pub(crate) const MAGIC_BYTES: usize = 4;

/// A reader of a list, of which the first lines are read as blank ones, so that the others keep
/// their numbers. A key file, which its first four bytes tell, is read as it is.
#[derive(Drop)]
pub struct Skipping<R> {
    inner: Counted<R>,
    /// How many lines are still to be passed by.
    lines: u64,
    /// The first bytes, which tell what it is.
    front: [u8; MAGIC_BYTES],
    /// How many of them were read, and how many of these were given.
    held: usize,
    given: usize,
    /// Whether it is known what it is.
    is_known: bool,
    ghost given_few: { given ≤ held },
    ghost held_few: { held ≤ MAGIC_BYTES },
    ghost none_given: { is_known ≡ false → given ≡ 0 },
}

impl<R> Skipping<R> {
    ghost use Rattle.std.specs.Prelude.{◌≡◌, ℕ, List, Option, option_map};
    ghost use Rattle.rh_lists.specs.Blanks.{skipping};
    ghost use Rattle.rh_lists.specs.Skipping.{left_of, skipped_of};

    /// The reader of the list without so many lines. With 0 it is read as it is.
    pub fn new(lines: u64, inner: R) -> Skipping<R>
        ensures reader { skipped_of result ≡ inner }
        ensures left { (remaining : R → Option (List ℕ)) →
            left_of remaining result ≡ option_map (skipping lines) (remaining inner) }
    {
        Skipping {
            inner: Counted::new(inner),
            lines,
            front: [0; MAGIC_BYTES],
            held: 0,
            given: 0,
            is_known: lines == 0,
        }
    }
}

impl<R: Read> Skipping<R> {
    ghost use Rattle.std.specs.Prelude.{◌≡◌, ◌<◌, ◌≤◌, false, true, IsTrue, length, take};
    ghost use Rattle.std.specs.Io.{ReadsAtMost};
    ghost use Rattle.std.specs.Io.KnownBytes.{Consumes, Keeps, ReadConsumes};
    ghost use Rattle.rh_lists.specs.Skipping.{IsFull, left_of};

    /// Reads the first bytes, which tell what the list is. Whether no read failed; the next call
    /// goes on behind a failed one.
    fn learn(&mut self) -> bool
        requires { self.old.is_known ≡ false }
        ensures known { IsTrue result → self.new.is_known ≡ true }
        ensures kept { Keeps (left_of R.remaining self.old) (left_of R.remaining self.new) }
    {
        let is_read = self.fill();
        if is_read {
            self.settle();
        }
        is_read
    }

    /// Reads the first bytes, up to four. Whether no read failed.
    fn fill(&mut self) -> bool
        requires { self.old.is_known ≡ false }
        ensures unknown { self.new.is_known ≡ false }
        ensures filled { IsTrue result → IsFull R.remaining self.new }
        ensures kept { Keeps (left_of R.remaining self.old) (left_of R.remaining self.new) }
    {
        let held = self.held;
        let front = &mut self.front[..];
        let Filled { count, failed } = fill_front(&mut self.inner, &mut front[held..]);
        self.held = held + count;
        !failed
    }

    /// Notes what the list is, of which these are the first bytes.
    fn settle(&mut self)
        requires unknown { self.old.is_known ≡ false }
        requires filled { IsFull R.remaining self.old }
        ensures known { self.new.is_known ≡ true }
        ensures kept { left_of R.remaining self.new ≡ left_of R.remaining self.old }
    {
        let held = self.held;
        let mut lines = lines_passed(self.lines, self.front, held);
        let front = &mut self.front[..];
        blank(&mut lines, &mut front[0..held]);
        self.lines = lines;
        self.is_known = true;
    }

    /// Gives of the first bytes what the buffer has room for, and how many these are.
    fn give(&mut self, buf: &mut [u8]) -> usize
        requires known { self.old.is_known ≡ true }
        requires some { self.old.given < self.old.held }
        ensures bound { result ≤ length buf.new }
        ensures some { 0 < length buf.new → 0 < result }
        ensures known { self.new.is_known ≡ true }
        ensures gives { Consumes (left_of R.remaining self.old) (left_of R.remaining self.new)
            (take result buf.new) }
    {
        let count = buf.len().min(self.held - self.given);
        let end = self.given + count;
        buf[..count].copy_from_slice(&self.front[self.given..end]);
        self.given = end;
        count
    }

    /// Reads behind the first bytes.
    fn read_on(&mut self, buf: &mut [u8]) -> io::Result<usize>
        requires known { self.old.is_known ≡ true }
        requires all_given { self.old.given ≡ self.old.held }
        ensures bound { ReadsAtMost result buf.new }
        ensures bytes { ReadConsumes (left_of R.remaining self.old)
            (left_of R.remaining self.new) result buf.new }
    {
        let outcome = self.inner.read(buf);
        if let Ok(count) = &outcome {
            blank(&mut self.lines, &mut buf[..*count]);
        }
        outcome
    }
}

impl<R: Read> Read for Skipping<R> {
    ghost use Rattle.std.specs.Io.{ReadsAtMost};
    ghost use Rattle.std.specs.Io.KnownBytes.{ReadConsumes};
    ghost use Rattle.rh_lists.specs.Skipping.{left_of};

    ghost remaining = { λ s. left_of R.remaining s };

    fn read(&mut self, buf: &mut [u8]) -> io::Result<usize>
        ensures bound { ReadsAtMost result buf.new }
        ensures bytes { ReadConsumes (left_of R.remaining self.old)
            (left_of R.remaining self.new) result buf.new }
    {
        if !self.is_known && !self.learn() {
            return Err(io::Error::from(ErrorKind::Other));
        }
        if self.given < self.held {
            return Ok(self.give(buf));
        }
        self.read_on(buf)
    }
}

/// How many lines are passed by of a list of which so many bytes were read: four, or all there are.
fn lines_passed(lines: u64, front: [u8; MAGIC_BYTES], held: usize) -> u64
    requires { held ≤ MAGIC_BYTES }
    ensures { (rest : List ℕ) → (held ≡ MAGIC_BYTES) ⊎ (rest ≡ []) →
        blanked result (take held front ++ rest) ≡ skipping lines (take held front ++ rest) }
{
    if held < MAGIC_BYTES {
        return lines;
    }
    match Version::of_magic(front) {
        Some(_) => 0,
        None => lines,
    }
}
