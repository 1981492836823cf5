//! Growth.

ghost use Rattle.rh_layout.specs.Key.{IsBits};
ghost use Rattle.rh_layout.specs.Layout.{HasFree, IsLayout};
ghost use Rattle.rh_layout.specs.declared.limits.TheConstants.{MAX_BITS};
ghost use Rattle.std.specs.Prelude.{◌≤◌};

use crate::layout::has_room;
use std::alloc::{AllocError, Global};

pub fn bits_for(bits: u32, held: u64, more: u64) -> Option<u32>
    requires { IsBits bits }
{
    rh_grow::bits_for(bits, held, more)
}

pub fn grow(alloc: Global, bits: u32, cells: &[u64], new_bits: u32) -> Result<Vec<u64>, AllocError>
    requires layout { IsLayout bits cells.now }
    requires free { HasFree cells.now }
    requires larger { bits ≤ new_bits }
    requires in_limit { new_bits ≤ MAX_BITS }
{
    has_room(bits, cells);
    rh_grow::grow(alloc, bits, cells, new_bits)
}
