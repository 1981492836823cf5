//! A text, read part by part.

ghost use Rattle.std.specs.Prelude.{◌≡◌, ◌≤◌, ◌<◌, ◌+◌, ◌^◌, IfOk, length};
ghost use Rattle.rh_numbers.specs.declared.limits.TheConstants.{PART_BYTES};
ghost use Rattle.rh_checks.specs.Lines.{text_findings};
ghost use Rattle.rh_checks.specs.Lists.{AnswersWalk, findings_in};

use crate::found::Found;
use crate::walk::Walk;
use rh_bytes::{Counted, Filled, Progress, fill_front};
use rh_numbers::{MAX_READS, PART_BYTES, TextFault, behind_mark};
use std::alloc::{AllocError, Global};
use std::io::Read;

/// What is found in a whole text that is held in memory.
pub(crate) fn find_short_text(alloc: Global, bytes: &[u8]) -> Result<Found, AllocError>
    requires { length bytes.now + 1 < 2 ^ 64 }
    ensures { IfOk result (λ found. findings_in found ≡ text_findings bytes.now) }
{
    let mut walk = Walk::new(alloc);
    walk.read(behind_mark(bytes))?;
    let found = walk.end(alloc)?;
    Ok(found)
}

/// What is found in a text that begins so, and whose rest the reader has.
pub(crate) fn find_text<R: Read, P: Progress>(
    alloc: Global,
    begun: &[u8],
    reader: &mut Counted<R>,
    progress: &mut P,
) -> Result<Found, TextFault>
    requires { (3 ≤ length begun.now) × (length begun.now ≤ PART_BYTES) }
    ensures { AnswersWalk R.remaining begun.now reader.old reader.new result }
{
    let mut walk = Walk::new(alloc);
    walk.read(behind_mark(begun))?;
    let mut part = [0; PART_BYTES];
    for _ in 0..MAX_READS {
        let Filled { count, failed } = fill_front(reader, &mut part);
        progress.read(count);
        if failed {
            return Err(TextFault::Read);
        }
        walk.read(&part[..count])?;
        if count < PART_BYTES {
            let found = walk.end(alloc)?;
            return Ok(found);
        }
    }
    Err(TextFault::TooLong)
}
