//! The blocks that texts are read into.

ghost use Rattle.std.specs.Prelude.{◌≡◌, ◌≤◌, ◌<◌, ◌*◌, OnOk, length, max, min};
ghost use Rattle.rh_lists.specs.declared.limits.TheConstants.{BLOCK_BYTES, TIMES_LONGER};

use crate::limits::{BLOCK_BYTES, FIRST_BYTES, TIMES_LONGER};
use std::alloc::{AllocError, Global};
use std::mem;

/// The blocks that texts are read into. They are as long as the longest text so far asked for, and
/// are kept from one list to the next, so that none is made twice.
#[derive(Drop)]
pub struct Blocks {
    /// The longest that a block may be.
    pub(crate) most: usize,
    /// The one that is read, and the one that comes behind it.
    pub(crate) block: Vec<u8>,
    pub(crate) next: Vec<u8>,
    ghost some: { 0 < most },
    ghost most_few: { most ≤ BLOCK_BYTES },
    ghost block_few: { length block.items ≤ BLOCK_BYTES },
    ghost next_few: { length next.items ≤ BLOCK_BYTES },
}

impl Blocks {
    ghost use Rattle.std.specs.Prelude.{◌≡◌, ◌≤◌, ◌<◌, OnOk, length, max, min};
    ghost use Rattle.rh_lists.specs.declared.limits.TheConstants.{FIRST_BYTES};

    /// No block yet. Each will have `BLOCK_BYTES` at the most.
    pub fn new(alloc: Global) -> Blocks {
        Blocks::up_to(alloc, BLOCK_BYTES)
    }

    /// The same, where each will have so many bytes at the most.
    pub fn up_to(alloc: Global, most: usize) -> Blocks
        requires { (0 < most) × (most ≤ BLOCK_BYTES) }
    {
        Blocks {
            most,
            block: Vec::new(alloc),
            next: Vec::new(alloc),
        }
    }

    /// Sees that there is a first block: the longer of both, and no shorter than that of a short
    /// text.
    pub(crate) fn begin(&mut self, alloc: Global) -> Result<(), AllocError>
        ensures size { OnOk result (length self.new.block.items
            ≡ max (max (length self.old.block.items) (length self.old.next.items))
            (min FIRST_BYTES self.old.most)) }
        ensures some { OnOk result (0 < length self.new.block.items) }
    {
        if self.block.len() < self.next.len() {
            mem::swap(&mut self.block, &mut self.next);
        }
        lengthen(alloc, &mut self.block, FIRST_BYTES.min(self.most))
    }
}

/// How long the block behind one of so many bytes is at the least.
pub(crate) fn behind(bytes: usize, most: usize) -> usize
    requires { (0 < bytes) × (0 < most) }
    ensures size { result ≡ min (bytes * TIMES_LONGER) most }
    ensures some { 0 < result }
    ensures few { result ≤ most }
{
    bytes.saturating_mul(TIMES_LONGER).min(most)
}

/// Makes a block of so many bytes in its place, where it is shorter.
pub(crate) fn lengthen(alloc: Global, block: &mut Vec<u8>, bytes: usize) -> Result<(), AllocError>
    ensures long { OnOk result (length block.new.items ≡ max (length block.old.items) bytes) }
    ensures kept { length block.new.items ≤ max (length block.old.items) bytes }
{
    if block.len() < bytes {
        *block = vec![in alloc; 0u8; bytes]?;
    }
    Ok(())
}
