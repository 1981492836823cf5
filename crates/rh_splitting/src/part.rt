//! One part of a list that is split.

ghost use Rattle.std.specs.Prelude.{◌≤◌};

use byteorder::{BigEndian, ByteOrder};
use rh_bytes::{Counted, WriteFault, write_texts};
use rh_key_files::write_header;
use rh_layout::MAX_KEYS;
use std::io::Write;

/// Why a part did not take a key.
#[derive(Clone, Copy)]
pub(crate) enum PartFault {
    /// It has as many keys as it takes.
    Full,
    Write,
}

/// A part of a list: the writer that its keys go to, how many it was given, and how many it takes.
#[derive(Drop)]
pub struct Part<W> {
    writer: Counted<W>,
    count: u64,
    limit: u64,
    ghost few: { count ≤ limit },
}

impl<W> Part<W> {
    ghost use Rattle.std.specs.Prelude.{◌≡◌, ◌≤◌};
    ghost use Rattle.rh_bytes.specs.Counting.{failures_of, inner_of};
    ghost use Rattle.rh_splitting.specs.Parts.{limit_of, part_count, writer_of};

    /// A part that was given no key, and takes so many.
    pub fn new(writer: W, limit: u64) -> Part<W>
        ensures writer { inner_of (writer_of result) ≡ writer }
        ensures failures { failures_of (writer_of result) ≡ 0 }
        ensures count { part_count result ≡ 0 }
        ensures limit { limit_of result ≡ limit }
    {
        Part {
            writer: Counted::new(writer),
            count: 0,
            limit,
        }
    }

    /// How many keys it was given.
    pub fn count(&self) -> u64
        ensures count { result ≡ part_count self.now }
        ensures few { result ≤ limit_of self.now }
    {
        self.count
    }

    /// The writer, behind the keys that the part was given.
    pub fn into_writer(self) -> Counted<W>
        ensures { result ≡ writer_of self }
    {
        self.writer
    }
}

impl<W: Write> Part<W> {
    ghost use Rattle.std.specs.Prelude.{◌≡◌, [], ◌∷◌, IfOk, IsErrOf, OnOk};
    ghost use Rattle.std.specs.Io.KnownBytes.{Appends};
    ghost use Rattle.rh_bytes.specs.Counting.{failures_of, inner_of};
    ghost use Rattle.rh_key_files.specs.KeyFile.{header};
    ghost use Rattle.rh_key_files.specs.declared.version.Version.TheVariants.{Second};
    ghost use Rattle.rh_layout.specs.declared.limits.TheConstants.{MAX_KEYS};
    ghost use Rattle.rh_splitting.specs.Parts.{Got, GotButOne, limit_of, part_count, writer_of};

    /// A part that was given no key, with room for the header of its key file, which says how many
    /// it takes.
    pub fn begin(writer: W) -> Result<Part<W>, WriteFault>
    where
        W: Drop,
        ensures room { IfOk result (λ part. Appends (W.contents writer)
            (W.contents (inner_of (writer_of part))) (header Second 0)) }
        ensures failures { IfOk result (λ part. failures_of (writer_of part) ≡ 0) }
        ensures count { IfOk result (λ part. part_count part ≡ 0) }
        ensures limit { IfOk result (λ part. limit_of part ≡ MAX_KEYS) }
    {
        let mut part = Part::new(writer, MAX_KEYS);
        write_header(0, &mut part.writer)?;
        Ok(part)
    }

    /// Writes the key behind those that the part was given.
    pub(crate) fn put(&mut self, key: u64) -> Result<(), PartFault>
        ensures put { OnOk result (Got W.contents self.old self.new (key ∷ [])) }
        ensures full { IsErrOf result PartFault.Full → part_count self.old ≡ limit_of self.old }
        ensures unchanged { IsErrOf result PartFault.Full → self.new ≡ self.old }
        ensures write { IsErrOf result PartFault.Write →
            GotButOne W.contents self.old self.new [] key }
    {
        let Part {
            writer,
            count,
            limit,
        } = self;
        if *count >= *limit {
            return Err(PartFault::Full);
        }
        let mut eight = [0; 8];
        BigEndian::write_u64(&mut eight, key);
        let Ok(()) = write_texts(writer, &[&eight]) else {
            return Err(PartFault::Write);
        };
        *count += 1;
        Ok(())
    }
}
