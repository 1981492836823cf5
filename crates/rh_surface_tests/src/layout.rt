//! Homes, distances and layouts.

ghost use Rattle.rh_layout.specs.Key.{IsBits};
ghost use Rattle.rh_layout.specs.Layout.{HasFree, HasTwoFree, IsLayout, keys_of};
ghost use Rattle.std.specs.FinSet as set;
ghost use Rattle.std.specs.Prelude.{◌+◌, ◌<◌, ◌^◌};

pub fn home(bits: u32, key: u64) -> usize
    requires { IsBits bits }
{
    rh_layout::home(bits, key)
}

pub fn dist(bits: u32, cell: usize, key: u64) -> usize
    requires bits { IsBits bits }
    requires cell { cell < 2 ^ bits }
{
    rh_layout::dist(bits, cell, key)
}

pub fn beats(bits: u32, cell: usize, a: u64, b: u64) -> bool
    requires bits { IsBits bits }
    requires cell { cell < 2 ^ bits }
{
    rh_layout::beats(bits, cell, a, b)
}

pub fn is_layout(bits: u32, cells: &[u64]) -> bool {
    rh_layout::is_layout(bits, cells)
}

pub fn one_layout(bits: u32, first: &[u64], second: &[u64]) {
    rh_layout::one_layout(bits, first, second);
}

pub fn has_free(bits: u32, cells: &[u64]) {
    rh_layout::has_free(bits, cells);
}

/// Of cells that were seen to be empty: how many keys a layout with them has at most, as the calls
/// that need a free cell ask for it.
pub fn has_room(bits: u32, cells: &[u64])
    requires { IsLayout bits cells.now }
    ensures one { HasFree cells.now → set.len (keys_of cells.now) < 2 ^ bits }
    ensures two { HasTwoFree cells.now → set.len (keys_of cells.now) + 1 < 2 ^ bits }
{
    rh_layout::has_free(bits, cells);
}
