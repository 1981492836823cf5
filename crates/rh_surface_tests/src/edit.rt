//! Edits, and the set of one worker.

ghost use Rattle.rh_layout.specs.Key.{IsBits, IsKey};
ghost use Rattle.rh_layout.specs.Layout.{HasFree, HasTwoFree, IsLayout};
ghost use Rattle.std.specs.FinSet as set;
ghost use Rattle.std.specs.Prelude.{length, ◌+◌, ◌<◌, ◌^◌, ◌≡◌};

use crate::layout::has_room;
use rh_edit::SeqSet;
use std::alloc::{AllocError, Global};

pub fn insert_news(key: u64, seen: &[u64], at: usize, news: &mut [u64])
    requires key { IsKey key }
    requires lengths { length news.old ≡ length seen.now }
    requires at { at < length seen.now }
{
    rh_edit::insert_news(key, seen, at, news);
}

pub fn remove_news(seen: &[u64], at: usize, news: &mut [u64])
    requires lengths { length news.old ≡ length seen.now }
    requires at { at + 1 < length seen.now }
{
    rh_edit::remove_news(seen, at, news);
}

pub fn value_with(value: u64, seen: &[u64], at: usize, i: usize) -> u64
    requires at { at < length seen.now }
    requires i { i < length seen.now }
{
    rh_edit::value_with(value, seen, at, i)
}

pub fn value_without(seen: &[u64], at: usize, i: usize) -> u64
    requires at { at + 1 < length seen.now }
    requires i { i < length seen.now }
{
    rh_edit::value_without(seen, at, i)
}

pub fn insert(bits: u32, cells: &mut [u64], key: u64) -> bool
    requires layout { IsLayout bits cells.old }
    requires key { IsKey key }
    requires free { HasTwoFree cells.old }
{
    has_room(bits, cells);
    rh_edit::insert(bits, cells, key)
}

pub fn remove(bits: u32, cells: &mut [u64], key: u64) -> bool
    requires layout { IsLayout bits cells.old }
    requires key { IsKey key }
    requires free { HasFree cells.old }
{
    has_room(bits, cells);
    rh_edit::remove(bits, cells, key)
}

pub fn seq_set_new(alloc: Global, bits: u32) -> Result<SeqSet, AllocError>
    requires { IsBits bits }
{
    SeqSet::new(alloc, bits)
}

pub fn seq_set_insert(seq_set: &mut SeqSet, key: u64) -> bool
    requires key { IsKey key }
    requires room { set.len seq_set.old.keys + 1 < 2 ^ seq_set.old.bits }
{
    seq_set.insert(key)
}

pub fn seq_set_remove(seq_set: &mut SeqSet, key: u64) -> bool
    requires { IsKey key }
{
    seq_set.remove(key)
}

pub fn seq_set_has(seq_set: &SeqSet, key: u64) -> bool
    requires { IsKey key }
{
    seq_set.has(key)
}

pub fn seq_set_len(seq_set: &SeqSet) -> usize {
    seq_set.len()
}

pub fn seq_set_bits(seq_set: &SeqSet) -> u32 {
    seq_set.bits()
}

pub fn seq_set_cells(seq_set: &SeqSet) -> &[u64] {
    seq_set.cells()
}
