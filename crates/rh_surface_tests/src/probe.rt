//! Scans.

ghost use Rattle.rh_layout.specs.Key.{IsBits, IsKey};
ghost use Rattle.rh_layout.specs.Layout.{HasFree, IsLayout};
ghost use Rattle.std.specs.Prelude.{◌<◌, ◌^◌};

use crate::layout::has_room;
use rh_probe::Look;

pub fn look(bits: u32, key: u64, seen: &[u64]) -> Look
    requires bits { IsBits bits }
    requires key { IsKey key }
{
    rh_probe::look(bits, key, seen)
}

pub fn free_after(seen: &[u64], i: usize) -> Option<usize> {
    rh_probe::free_after(seen, i)
}

pub fn stop_after(bits: u32, cell: usize, seen: &[u64], i: usize) -> Option<usize>
    requires bits { IsBits bits }
    requires cell { cell < 2 ^ bits }
{
    rh_probe::stop_after(bits, cell, seen, i)
}

pub fn find(bits: u32, cells: &[u64], key: u64) -> Option<usize>
    requires layout { IsLayout bits cells.now }
    requires key { IsKey key }
    requires free { HasFree cells.now }
{
    has_room(bits, cells);
    rh_probe::find(bits, cells, key)
}

pub fn variants(look: Look) {
    match look {
        Look::Here(offset) => {
            let _: usize = offset;
        }
        Look::Goes(offset) => {
            let _: usize = offset;
        }
        Look::More => {}
    }
}
