//! A text on the way: what was read of it, and how it goes on.

ghost use Rattle.std.specs.Prelude.{◌≤◌, length, All};
ghost use Rattle.std.specs.Vec.{vec_capacity};
ghost use Rattle.rh_layout.specs.Key.{IsKey};
ghost use Rattle.rh_layout.specs.declared.limits.TheConstants.{MAX_KEYS};

use crate::fault::TextFault;
use crate::limits::PART_BYTES;
use crate::line_so_far::LineSoFar;
use rh_bytes::{Counted, Filled, fill_front};
use rh_layout::MAX_KEYS;
use std::alloc::Global;
use std::io::Read;

/// How far a text was read, and the keys that it gave and that were not cleared.
/// Its keys are taken part by part: to be given them one by one would need a trait whose law says
/// what a row of calls comes to, also of writers whose bytes are not known.
#[derive(Drop)]
pub struct Reading {
    pub(crate) keys: Vec<u64>,
    /// The number of the line, from 1 on.
    pub(crate) line: u64,
    /// What the line has said so far.
    pub(crate) so_far: LineSoFar,
    ghost in_range: { All IsKey keys.items },
    ghost few: { length keys.items ≤ MAX_KEYS },
}

impl Reading {
    ghost use Rattle.std.specs.Prelude.{◌≡◌, ◌≤◌, ◌<◌, ◌+◌, ◌^◌, ℕ, List, [], ◌∷◌, ◌++◌};
    ghost use Rattle.std.specs.Prelude.{IsErrOf, MatchResult, None, OnOk};
    ghost use Rattle.rh_bytes.specs.Counting.{Counts, inner_of};
    ghost use Rattle.rh_bytes.specs.Input.{fault_of};
    ghost use Rattle.rh_numbers.specs.Parts.{ReadsTextPart, keys_read, line_reached, said_by, so_far_of};
    ghost use Rattle.rh_numbers.specs.Reading.{NoTextReadFailed, Stops, with_line};
    ghost use Rattle.rh_numbers.specs.declared.limits.TheConstants.{PART_BYTES};

    /// Nothing was read yet.
    pub fn new(alloc: Global) -> Reading
        ensures keys { keys_read result ≡ [] }
        ensures line { line_reached result ≡ 1 }
        ensures so_far { so_far_of result ≡ LineSoFar.Head }
    {
        Reading {
            keys: Vec::new(alloc),
            line: 1,
            so_far: LineSoFar::Head,
        }
    }

    /// The keys that were read and not cleared, in the order of the text.
    pub fn keys(&self) -> &[u64]
        ensures keys { result.now ≡ keys_read self.now }
        ensures in_range { All IsKey result.now }
        ensures few { length result.now ≤ MAX_KEYS }
    {
        &self.keys
    }

    pub(crate) fn into_keys(self) -> Vec<u64>
        ensures keys { result.items ≡ keys_read self }
        ensures in_range { All IsKey result.items }
        ensures few { length result.items ≤ MAX_KEYS }
    {
        self.keys
    }

    /// Drops the keys that were read. The text goes on where it was, and room for as many keys
    /// stays.
    pub fn clear(&mut self)
        ensures keys { keys_read self.new ≡ [] }
        ensures line { line_reached self.new ≡ line_reached self.old }
        ensures so_far { so_far_of self.new ≡ so_far_of self.old }
    {
        self.keys.clear();
    }

    /// Reads the next 8,192 bytes and adds their keys to those that are held, up to the first
    /// fault, and tells whether the text may go on. Where it ends, so does its last line.
    ///
    /// Where a read fails, the lines that came whole before that are taken first. Room for as many
    /// keys as such bytes may say is taken before they are read, so that no fault of a text is told
    /// as want of memory.
    ///
    /// `TooMany` says that `MAX_KEYS` are held and one more came; whoever clears them before each
    /// part never meets it.
    pub fn read_part<R: Read>(&mut self, reader: &mut Counted<R>) -> Result<bool, TextFault>
        requires { line_reached self.old + PART_BYTES < 2 ^ 64 }
        ensures part { ReadsTextPart (R.remaining (inner_of reader.old))
            (R.remaining (inner_of reader.new)) self.old self.new result }
        ensures line { OnOk result (line_reached self.new ≤ line_reached self.old + PART_BYTES) }
        ensures many { length (keys_read self.new) ≤ length (keys_read self.old) + PART_BYTES + 1 }
        ensures full { IsErrOf result TextFault.TooMany → length (keys_read self.new) ≡ MAX_KEYS }
        ensures not_too_long { IsErrOf result TextFault.TooLong → ⊥ }
        ensures counts { Counts (IsErrOf result TextFault.Read) (NoTextReadFailed (fault_of result))
            reader.old reader.new }
    {
        self.keys.reserve(PART_BYTES + 1)?;
        let mut part = [0; PART_BYTES];
        let Filled { count, failed } = fill_front(reader, &mut part);
        self.read(&part[..count])?;
        if failed {
            return Err(TextFault::Read);
        }
        if count < PART_BYTES {
            self.end_line()?;
            return Ok(false);
        }
        Ok(true)
    }

    /// Reads the next bytes.
    fn read(&mut self, bytes: &[u8]) -> Result<(), TextFault>
        requires few { self.old.line + length bytes.now < 2 ^ 64 }
        requires room { length self.old.keys.items + length bytes.now ≤ vec_capacity self.old.keys }
        ensures line { OnOk result (self.new.line ≤ self.old.line + length bytes.now) }
        ensures room { vec_capacity self.new.keys ≡ vec_capacity self.old.keys }
        ensures many { length self.new.keys.items ≤ length self.old.keys.items + length bytes.now }
        ensures full { IsErrOf result TextFault.TooMany → length self.new.keys.items ≡ MAX_KEYS }
        ensures read { MatchResult result
            (λ _. (rest : List ℕ) →
            said_by self.old (bytes.now ++ rest) ≡ said_by self.new rest)
            (λ fault. (rest : List ℕ) →
            Stops fault (keys_read self.new) (said_by self.old (bytes.now ++ rest))) }
    {
        for b in bytes {
            self.step(*b)?;
        }
        Ok(())
    }

    /// Reads the next byte. A line that can be no number any more is refused there.
    #[tactic(auto, unfolding(crate::specs::Reading::said_from))]
    fn step(&mut self, b: u8) -> Result<(), TextFault>
        requires few { self.old.line + 1 < 2 ^ 64 }
        requires room { length self.old.keys.items < vec_capacity self.old.keys }
        ensures line { OnOk result (self.new.line ≤ self.old.line + 1) }
        ensures room { vec_capacity self.new.keys ≡ vec_capacity self.old.keys }
        ensures many { length self.new.keys.items ≤ length self.old.keys.items + 1 }
        ensures full { IsErrOf result TextFault.TooMany → length self.new.keys.items ≡ MAX_KEYS }
        ensures read { MatchResult result
            (λ _. (rest : List ℕ) → said_by self.old (b ∷ rest) ≡ said_by self.new rest)
            (λ fault. (rest : List ℕ) →
            Stops fault (keys_read self.new) (said_by self.old (b ∷ rest))) }
    {
        if b == b'\n' {
            self.end_line()?;
            self.line += 1;
            self.so_far = LineSoFar::Start;
            return Ok(());
        }
        self.so_far = self.so_far.next(b);
        if let LineSoFar::Other = self.so_far {
            return Err(TextFault::NotAKey { line: self.line });
        }
        Ok(())
    }

    /// Takes what the line said, which ends here.
    fn end_line(&mut self) -> Result<(), TextFault>
        requires { length self.old.keys.items < vec_capacity self.old.keys }
        ensures line { self.new.line ≡ self.old.line }
        ensures room { vec_capacity self.new.keys ≡ vec_capacity self.old.keys }
        ensures many { length self.new.keys.items ≤ length self.old.keys.items + 1 }
        ensures full { IsErrOf result TextFault.TooMany → length self.new.keys.items ≡ MAX_KEYS }
        ensures keys { MatchResult result
            (λ _. with_line self.old.keys.items self.old.line self.old.so_far
            ≡ (self.new.keys.items, None))
            (λ fault. Stops fault self.new.keys.items
            (with_line self.old.keys.items self.old.line self.old.so_far)) }
    {
        match self.so_far.end() {
            Ok(None) => Ok(()),
            Ok(Some(key)) => self.take(key),
            Err(bad) => Err(bad.in_line(self.line)),
        }
    }

    /// Takes a key, if not too many are held.
    fn take(&mut self, key: u64) -> Result<(), TextFault>
        requires key { IsKey key }
        requires room { length self.old.keys.items < vec_capacity self.old.keys }
        ensures line { self.new.line ≡ self.old.line }
        ensures room { vec_capacity self.new.keys ≡ vec_capacity self.old.keys }
        ensures many { length self.new.keys.items ≤ length self.old.keys.items + 1 }
        ensures full { IsErrOf result TextFault.TooMany → length self.new.keys.items ≡ MAX_KEYS }
        ensures keys { MatchResult result
            (λ _. self.new.keys.items ≡ self.old.keys.items ++ key ∷ [])
            (λ fault. Stops fault self.new.keys.items
            (self.old.keys.items ++ key ∷ [], None)) }
    {
        if self.keys.len() as u64 >= MAX_KEYS {
            return Err(TextFault::TooMany);
        }
        self.keys.push_reserved(key);
        Ok(())
    }
}
