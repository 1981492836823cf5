//! A list of keys is split into parts.

ghost use Rattle.std.specs.Prelude.{◌<◌, ◌≤◌, IsErrOf, length};
ghost use Rattle.rh_bytes.specs.Counting.{Counts, inner_of};
ghost use Rattle.rh_parts.specs.declared.part.TheConstants.{MAX_PARTS};
ghost use Rattle.rh_splitting.specs.Splitting as splits;
ghost use Rattle.rh_splitting.specs.Splitting.{PutsKeys, ReadsSource, Splits, SplitsFile, TakesText};
ghost use Rattle.rh_splitting.specs.declared.source.Source.TheVariants as sources;

use crate::fault::SplitFault;
use crate::part::{Part, PartFault};
use rh_bytes::Counted;
use rh_key_files::read_keys;
use rh_numbers::{MAX_READS, Reading, TextFault};
use rh_parts::part_of;
use std::alloc::Global;
use std::io::{Read, Write};

/// Reads a text of numbers of any length, and gives each key to its part, in the order of the text.
///
/// The text is read once. Memory is taken for the keys of one read of 8,192 bytes at a time.
pub fn split_text<R: Read, W: Write>(
    alloc: Global,
    reader: &mut Counted<R>,
    parts: &mut [Part<W>],
) -> Result<(), SplitFault>
    requires some { 0 < length parts.old }
    requires few { length parts.old ≤ MAX_PARTS }
    ensures split { Splits (R.remaining (inner_of reader.old)) (R.remaining (inner_of reader.new))
        W.contents parts.old parts.new result }
    ensures takes { TakesText (R.remaining (inner_of reader.old))
        (R.remaining (inner_of reader.new)) }
    ensures not_too_many { IsErrOf result (SplitFault.Text TextFault.TooMany) → ⊥ }
    ensures counts { Counts (IsErrOf result (SplitFault.Text TextFault.Read))
        (splits.NoReadFailed result) reader.old reader.new }
{
    let mut reading = Reading::new(alloc);
    for _ in 0..MAX_READS {
        // The keys before a fault come first, as one of them may have no room in its part.
        let outcome = reading.read_part(reader);
        split_keys(reading.keys(), parts)?;
        reading.clear();
        if !outcome? {
            return Ok(());
        }
    }
    Err(SplitFault::Text(TextFault::TooLong))
}

/// Gives each key to its part, in the order of the list.
pub fn split_keys<W: Write>(keys: &[u64], parts: &mut [Part<W>]) -> Result<(), SplitFault>
    requires some { 0 < length parts.old }
    requires few { length parts.old ≤ MAX_PARTS }
    ensures { PutsKeys W.contents parts.old parts.new keys.now result }
{
    for key in keys {
        let part = part_of(parts.len() as u64, *key);
        match parts[part as usize].put(*key) {
            Ok(()) => {}
            Err(PartFault::Full) => return Err(SplitFault::TooMany { part }),
            Err(PartFault::Write) => return Err(SplitFault::Write { part }),
        }
    }
    Ok(())
}

/// Reads a key file of either version, and gives each key to its part, in the order of the file.
///
/// The file is read to its end before a key is given.
pub fn split_file<R: Read, W: Write>(
    alloc: Global,
    reader: &mut Counted<R>,
    parts: &mut [Part<W>],
) -> Result<(), SplitFault>
    requires some { 0 < length parts.old }
    requires few { length parts.old ≤ MAX_PARTS }
    ensures split { SplitsFile (R.remaining (inner_of reader.old))
        (R.remaining (inner_of reader.new)) W.contents parts.old parts.new result }
    ensures reads { ReadsSource R.remaining sources.Keys reader.old reader.new result }
{
    let keys = read_keys(alloc, reader)?;
    split_keys(&keys, parts)
}
