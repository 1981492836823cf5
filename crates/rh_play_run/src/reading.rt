//! The play that a reader gives.

ghost use Rattle.std.specs.Prelude.{◌≡◌, ◌≢◌, ◌+◌, ◌<◌, ◌≤◌, length, IfErr, IfOk, IsErrOf};
ghost use Rattle.std.specs.Io.KnownBytes.{Consumes, IsAtEnd};
ghost use Rattle.rh_bytes.specs.Counting.{CountsFault, inner_of};
ghost use Rattle.rh_bytes.specs.Taking.{TakesAtMost};
ghost use Rattle.rh_play_text.specs.declared.limits.TheConstants.{MAX_TEXT_BYTES};
ghost use Rattle.rh_play_run.specs.Run.{IsPlayRead, IsUnread};

use crate::fault::PlayRunFault;
use rh_bytes::{Counted, fill};
use rh_play_text::{MAX_TEXT_BYTES, Play, parse_play};
use std::alloc::Global;
use std::io::Read;

/// Reads a play. One byte more than a text may have is read at most: that tells a text that is too
/// long.
pub(crate) fn read_play<R: Read>(
    alloc: Global,
    reader: &mut Counted<R>,
) -> Result<Play, PlayRunFault>
    ensures read { IfOk result (λ play. IsPlayRead (R.remaining (inner_of reader.old)) play) }
    ensures refused { IfErr result (IsUnread (R.remaining (inner_of reader.old))) }
    ensures memory { IsErrOf result PlayRunFault.Memory → reader.new ≡ reader.old }
    ensures taken { TakesAtMost (R.remaining (inner_of reader.old))
        (R.remaining (inner_of reader.new)) (MAX_TEXT_BYTES + 1) }
    ensures counts { CountsFault PlayRunFault.Read reader.old reader.new result }
{
    let text = read_front(alloc, reader, MAX_TEXT_BYTES + 1)?;
    Ok(parse_play(alloc, &text)?)
}

/// The bytes up to the end, or so many of them.
fn read_front<R: Read>(
    alloc: Global,
    reader: &mut Counted<R>,
    most: usize,
) -> Result<Vec<u8>, PlayRunFault>
    ensures read { IfOk result (λ text. Consumes (R.remaining (inner_of reader.old))
        (R.remaining (inner_of reader.new)) text.items) }
    ensures size { IfOk result (λ text. length text.items ≤ most) }
    ensures whole { IfOk result (λ text. length text.items < most →
        IsAtEnd (R.remaining (inner_of reader.new))) }
    ensures taken { TakesAtMost (R.remaining (inner_of reader.old))
        (R.remaining (inner_of reader.new)) most }
    ensures refused { IfErr result (λ fault. fault ≢ PlayRunFault.Read →
        (fault ≡ PlayRunFault.Memory) × (reader.new ≡ reader.old)) }
    ensures counts { CountsFault PlayRunFault.Read reader.old reader.new result }
{
    let mut text = vec![in alloc; 0u8; most]?;
    let Some(count) = fill(reader, &mut text) else {
        return Err(PlayRunFault::Read);
    };
    text.truncate(count);
    Ok(text)
}
