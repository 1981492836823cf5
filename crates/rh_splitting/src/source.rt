//! Where the keys that are split come from.

ghost use Rattle.std.specs.Prelude.{◌≡◌, ◌<◌, ◌≤◌, IfErr, OnErr, OnOk, length};
ghost use Rattle.std.specs.Io.KnownBytes.{Keeps};
ghost use Rattle.rh_bytes.specs.Counting.{Rose, failures_of, inner_of};
ghost use Rattle.rh_parts.specs.declared.part.TheConstants.{MAX_PARTS};
ghost use Rattle.rh_splitting.specs.Splitting.{ReadsSource, SplitsSource, unread};

use crate::fault::SplitFault;
use crate::part::Part;
use crate::splitting::{split_file, split_text};
use rh_bytes::Counted;
use rh_key_files::KeyFault;
use rh_numbers::TextFault;
use std::alloc::Global;
use std::io::{Read, Write};

/// What is split.
#[derive(Clone, Copy)]
pub enum Source {
    /// A text of numbers.
    Text,
    /// A key file, of either version.
    Keys,
}

/// Reads no byte, which fails where nothing can be read, as from a stream that is closed.
pub fn try_source<R: Read>(reader: &mut Counted<R>, source: Source) -> Result<(), SplitFault>
    ensures kept { Keeps (R.remaining (inner_of reader.old)) (R.remaining (inner_of reader.new)) }
    ensures told { IfErr result (λ fault. fault ≡ unread source) }
    ensures failed { OnErr result (Rose (failures_of reader.old) (failures_of reader.new)) }
    ensures fine { OnOk result (failures_of reader.new ≡ failures_of reader.old) }
{
    match reader.read(&mut []) {
        Ok(_) => Ok(()),
        Err(_) => Err(match source {
            Source::Text => SplitFault::Text(TextFault::Read),
            Source::Keys => SplitFault::Keys(KeyFault::Read),
        }),
    }
}

/// Gives each key that the reader has to its part, in their order.
pub fn split_source<R: Read, W: Write>(
    alloc: Global,
    reader: &mut Counted<R>,
    source: Source,
    parts: &mut [Part<W>],
) -> Result<(), SplitFault>
    requires some { 0 < length parts.old }
    requires few { length parts.old ≤ MAX_PARTS }
    ensures split { SplitsSource source (R.remaining (inner_of reader.old))
        (R.remaining (inner_of reader.new)) W.contents parts.old parts.new result }
    ensures reads { ReadsSource R.remaining source reader.old reader.new result }
{
    match source {
        Source::Text => split_text(alloc, reader, parts),
        Source::Keys => split_file(alloc, reader, parts),
    }
}
