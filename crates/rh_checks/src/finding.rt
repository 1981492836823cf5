//! A list, looked through from its bytes.

ghost use Rattle.rh_checks.specs.Lists.{AnswersFound};

use crate::found::Found;
use crate::text::{find_short_text, find_text};
use rh_bytes::{Counted, Filled, Progress, fill_front};
use rh_cutting::KeyList;
use rh_key_files::{Version, read_pieces};
use rh_lists::ListFault;
use rh_numbers::TextFault;
use std::alloc::Global;
use std::io::Read;

/// How many bytes the magic of a key file has.
const MAGIC_BYTES: usize = 4;

/// Looks through a list: a key file of either version, which its first four bytes tell, or else a
/// text of numbers. It has any length. No bad line of a text is a fault: all lines are read.
///
/// It takes 8 bytes for each number, twice that while they grow, and a text is read in parts of
/// 8,192 bytes by one worker.
pub(crate) fn find_list<R: Read, P: Progress>(
    alloc: Global,
    reader: &mut Counted<R>,
    progress: &mut P,
) -> Result<Found, ListFault>
    ensures { AnswersFound R.remaining reader.old reader.new result }
{
    let mut four = [0; MAGIC_BYTES];
    let Filled { count, failed } = fill_front(reader, &mut four);
    progress.read(count);
    if failed {
        return Err(ListFault::Text(TextFault::Read));
    }
    if count < MAGIC_BYTES {
        let Ok(found) = find_short_text(alloc, &four[..count]) else {
            return Err(ListFault::Text(TextFault::Memory));
        };
        return Ok(found);
    }
    if let Some(version) = Version::of_magic(four) {
        let pieces = read_pieces(alloc, version, reader, progress)?;
        return Ok(Found {
            keys: KeyList::of(pieces),
            bad: Vec::new(alloc),
            more: 0,
        });
    }
    let found = find_text(alloc, &four, reader, progress)?;
    Ok(found)
}
