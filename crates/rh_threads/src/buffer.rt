//! Room for what a worker sees of the table.

ghost use Rattle.std.specs.Prelude.{◌≡◌, ◌*◌, ◌^◌, ◌<◌, IfOk, length, min};
ghost use Rattle.rh_layout.specs.Key.{IsBits};
ghost use Rattle.rh_threads.specs.Buffer.{HasBufferRoom, HasCapacity};

use rh_layout::Entry;
use std::alloc::{AllocError, Global};

/// How many cells are in use at first: few keys need more.
const FIRST_CELLS: usize = 64;

/// What stands where no entry was planned yet.
const NO_ENTRY: Entry = Entry {
    cell: 0,
    old: 0,
    new: 0,
};

/// Room for what the cells from a key's home on hold, and for the entries of its act. It does for
/// as many as the table has cells, of which as many are in use as a scan has needed so far: the
/// memory behind is never touched.
/// All of it is taken before the first worker starts, so that no growth is refused in the middle;
/// to fill it would touch 8 MB a worker at 18 bits.
#[derive(Drop)]
pub(crate) struct Buffer {
    pub seen: Vec<u64>,
    pub entries: Vec<Entry>,
}

impl Buffer {
    /// Room for a table of 2 to the power of `bits` cells.
    pub(crate) fn new(alloc: Global, bits: u32) -> Result<Buffer, AllocError>
        requires { IsBits bits }
        ensures { IfOk result (HasBufferRoom bits) }
    {
        let cells = 1usize << bits;
        let mut buffer = Buffer {
            seen: Vec::with_capacity(alloc, cells)?,
            entries: Vec::with_capacity(alloc, cells)?,
        };
        buffer.use_first(bits, FIRST_CELLS);
        Ok(buffer)
    }

    /// Has twice as much in use, as far as there is room. It takes no memory.
    pub(crate) fn use_more(&mut self, bits: u32)
        requires bits { IsBits bits }
        requires room { HasBufferRoom bits self.old }
        ensures room { HasBufferRoom bits self.new }
        ensures twice { length self.new.seen.items ≡ min (2 * length self.old.seen.items)
            (2 ^ bits) }
    {
        let cells = self.seen.len().saturating_mul(2);
        self.use_first(bits, cells);
    }

    /// Has so many in use, as far as there is room. It takes no memory.
    fn use_first(&mut self, bits: u32, cells: usize)
        requires bits { IsBits bits }
        requires capacity { HasCapacity bits self.old }
        requires some { 0 < cells }
        ensures room { HasBufferRoom bits self.new }
        ensures used { length self.new.seen.items ≡ min cells (2 ^ bits) }
    {
        let cells = cells.min(1 << bits);
        // (there is room for them)
        self.seen.resize(cells, 0).unwrap();
        self.entries.resize(cells, NO_ENTRY).unwrap();
    }
}
