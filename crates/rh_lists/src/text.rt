//! A text of numbers of any length, read block by block.

ghost use Rattle.std.specs.Prelude.{◌<◌, ◌≤◌, ◌+◌, ◌++◌, ◌^◌, ℕ, List, IfErr, length};
ghost use Rattle.rh_numbers.specs.declared.line_so_far.LineSoFar.TheVariants.{Head};
ghost use Rattle.rh_numbers.specs.Reading.{text_said};
ghost use Rattle.rh_lists.specs.Lists.{OfHeldBytes};
ghost use Rattle.rh_lists.specs.Parts.{AnswersText, EndsText, IsReadTo, TellsText};
ghost use Rattle.rh_lists.specs.declared.limits.TheConstants.{BLOCK_BYTES, FIRST_BYTES};

use crate::ahead::read_ahead;
use crate::blocks::{Blocks, behind, lengthen};
use crate::limits::FIRST_BYTES;
use crate::part::ListPart;
use crate::workers::read_part;
use rh_bytes::{Counted, Filled, Progress, fill_front};
use rh_cutting::KeyList;
use rh_forks::Team;
use rh_numbers::{LineSoFar, MAX_BYTES, TextFault};
use std::alloc::Global;
use std::io::Read;
use std::mem;
use std::thread::Threads;

/// Reads a whole text that is held in memory.
pub(crate) fn read_short_text(alloc: Global, bytes: &[u8]) -> Result<KeyList, TextFault>
    requires { length bytes.now + 1 < 2 ^ 64 }
    ensures told { TellsText (text_said bytes.now) result }
    ensures held { IfErr result OfHeldBytes }
{
    let Ok(text) = ListPart::read(alloc, LineSoFar::Head, bytes) else {
        return Err(TextFault::Memory);
    };
    text.end_text(alloc)
}

/// Reads the rest of a text that begins so. Less than `FIRST_BYTES` is read by one worker, so that a
/// short text takes no thread; and where no text was longer, it takes no longer block.
pub(crate) fn read_text<T: Threads + Sync, R: Read, P: Progress>(
    team: &Team<'_, T>,
    blocks: &mut Blocks,
    begun: &[u8],
    reader: &mut Counted<R>,
    progress: &mut P,
) -> Result<KeyList, TextFault>
    requires begun { length begun.now ≤ FIRST_BYTES }
    ensures { AnswersText R.remaining begun.now reader.old reader.new result }
{
    let Ok(front) = ListPart::read(team.alloc, LineSoFar::Head, begun) else {
        return Err(TextFault::Memory);
    };
    let Ok(()) = blocks.begin(team.alloc) else {
        return Err(TextFault::Memory);
    };
    let Filled { count, failed } = fill_front(reader, &mut blocks.block);
    progress.read(count);
    if count < FIRST_BYTES.min(blocks.block.len()) {
        return last_block(&team.alone(), front, &blocks.block[..count], failed);
    }
    if count < blocks.block.len() {
        return last_block(team, front, &blocks.block[..count], failed);
    }
    let most = blocks.most;
    read_blocks(
        team,
        most,
        front,
        &mut blocks.block,
        &mut blocks.next,
        reader,
        progress,
    )
}

/// Reads a text of which this block comes next, and the rest of it from the reader, block by block.
/// The two blocks take turns, and the one that is filled next is made longer first where it is
/// shorter than `behind` says.
fn read_blocks<T: Threads + Sync, R: Read, P: Progress>(
    team: &Team<'_, T>,
    most: usize,
    begun: ListPart,
    block: &mut Vec<u8>,
    next: &mut Vec<u8>,
    reader: &mut Counted<R>,
    progress: &mut P,
) -> Result<KeyList, TextFault>
    requires most { (0 < most) × (most ≤ BLOCK_BYTES) }
    requires some { 0 < length block.old.items }
    requires few { (length block.old.items ≤ BLOCK_BYTES) × (length next.old.items ≤ BLOCK_BYTES) }
    requires lines { begun.lines ≤ BLOCK_BYTES }
    ensures read { (before : List ℕ) → IsReadTo Head before begun →
        AnswersText R.remaining (before ++ block.old.items) reader.old reader.new result }
    ensures few { (length block.new.items ≤ BLOCK_BYTES) × (length next.new.items ≤ BLOCK_BYTES) }
{
    let mut text = begun;
    let mut passed = 0u64;
    while passed < MAX_BYTES {
        let Ok(()) = lengthen(team.alloc, next, behind(block.len(), most)) else {
            return Err(TextFault::Memory);
        };
        let (part, Filled { count, failed }) = read_ahead(team, text.so_far(), block, reader, next);
        progress.read(count);
        let Ok(part) = part else {
            return Err(TextFault::Memory);
        };
        text = text.more(part)?;
        if count < next.len() {
            return last_block(team, text, &next[..count], failed);
        }
        passed += next.len() as u64;
        mem::swap(block, next);
    }
    Err(TextFault::TooLong)
}

/// Reads the last bytes of a text, behind which a read failed, or nothing comes.
fn last_block<T: Threads + Sync>(
    team: &Team<'_, T>,
    text: ListPart,
    bytes: &[u8],
    failed: bool,
) -> Result<KeyList, TextFault>
    requires { text.lines + length bytes.now + 1 < 2 ^ 64 }
    ensures { EndsText text bytes.now failed result }
{
    let Ok(part) = read_part(team, text.so_far(), bytes) else {
        return Err(TextFault::Memory);
    };
    let text = text.more(part)?;
    if failed {
        return Err(TextFault::Read);
    }
    text.end_text(team.alloc)
}
