//! Growing a table.

ghost use Rattle.std.specs.Prelude.{◌≡◌, ◌^◌, ◌<◌, ◌≤◌, IfOk};
ghost use Rattle.std.specs.FinSet as set;
ghost use Rattle.rh_layout.specs.declared.limits.TheConstants.{MAX_BITS};
ghost use Rattle.rh_layout.specs.Layout.{IsLayout, Layout, keys_of};

use rh_edit::SeqSet;
use rh_layout::key_in;
use std::alloc::{AllocError, Global};

/// A table of `new_bits` bits with the keys of this one.
pub fn grow(alloc: Global, bits: u32, cells: &[u64], new_bits: u32) -> Result<Vec<u64>, AllocError>
    requires layout { IsLayout bits cells.now }
    requires room { set.len (keys_of cells.now) < 2 ^ bits }
    requires larger { bits ≤ new_bits }
    requires in_limit { new_bits ≤ MAX_BITS }
    ensures { IfOk result (λ new. Layout new.items new_bits (keys_of cells.now)) }
{
    let mut set = SeqSet::new(alloc, new_bits)?;
    for value in cells {
        if let Some(key) = key_in(*value) {
            set.insert(key);
        }
    }
    Ok(set.into_cells())
}
