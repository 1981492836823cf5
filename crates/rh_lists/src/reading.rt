//! A list, read from its bytes.

ghost use Rattle.rh_lists.specs.Lists.{AnswersList};

use crate::blocks::Blocks;
use crate::fault::ListFault;
use crate::skipping::MAGIC_BYTES;
use crate::text::{read_short_text, read_text};
use rh_bytes::{Counted, Filled, Progress, fill_front};
use rh_cutting::KeyList;
use rh_forks::Team;
use rh_key_files::{Version, read_pieces};
use rh_numbers::TextFault;
use std::io::Read;
use std::thread::Threads;

/// Reads a list: a key file of either version, which its first four bytes tell, or else a text of
/// numbers. It has any length. What is answered does not depend on how many workers read.
///
/// A text is read in blocks, and while several workers read one the caller reads the next: 32 MB at
/// the most are held beside the keys. The blocks serve for the next list too. With one worker no
/// thread is started.
pub fn read_list<T: Threads + Sync, R: Read, P: Progress>(
    team: &Team<'_, T>,
    blocks: &mut Blocks,
    reader: &mut Counted<R>,
    progress: &mut P,
) -> Result<KeyList, ListFault>
    ensures { AnswersList R.remaining reader.old reader.new result }
{
    let mut four = [0; MAGIC_BYTES];
    let Filled { count, failed } = fill_front(reader, &mut four);
    progress.read(count);
    if failed {
        return Err(ListFault::Text(TextFault::Read));
    }
    if count < MAGIC_BYTES {
        let keys = read_short_text(team.alloc, &four[..count])?;
        return Ok(keys);
    }
    if let Some(version) = Version::of_magic(four) {
        let pieces = read_pieces(team.alloc, version, reader, progress)?;
        return Ok(KeyList::of(pieces));
    }
    let keys = read_text(team, blocks, &four, reader, progress)?;
    Ok(keys)
}
