//! The calls on a set that C keeps.

ghost use Rattle.std.specs.Prelude.{◌≡◌, None};
ghost use Rattle.std.specs.FinSet as set;
ghost use Rattle.rh_handle.specs.Calls.{held_in};
ghost use Rattle.rh_c.specs.Sets.{AnswersInsert, AnswersList, AnswersRestore, AnswersSnapshot};

use crate::answer::{Detail, tell_insert, tell_put, tell_restore};
use rh_handle::Handle;
use std::alloc::Global;

/// Adds a key.
#[unsafe(no_mangle)]
pub extern "C" fn rhset_set_insert(
    alloc: Global,
    handle: &mut Handle,
    number: u64,
    detail: &mut Detail,
) -> u32
    ensures { AnswersInsert (held_in handle.old) (held_in handle.new) number result detail.new }
{
    tell_insert(handle.insert(alloc, number), detail)
}

/// Takes a number out, and answers whether it was there.
#[unsafe(no_mangle)]
pub extern "C" fn rhset_set_remove(alloc: Global, handle: &mut Handle, number: u64) -> bool
    ensures bits { (held_in handle.new).bits ≡ (held_in handle.old).bits }
    ensures keys { (held_in handle.new).keys ≡ set.remove (held_in handle.old).keys number }
    ensures removed { result ≡ set.contains (held_in handle.old).keys number }
{
    handle.remove(alloc, number)
}

/// Whether the number is there.
#[unsafe(no_mangle)]
pub extern "C" fn rhset_set_contains(alloc: Global, handle: &mut Handle, number: u64) -> bool
    ensures there { result ≡ set.contains (held_in handle.old).keys number }
    ensures unchanged { held_in handle.new ≡ held_in handle.old }
{
    handle.contains(alloc, number)
}

/// How many keys there are.
#[unsafe(no_mangle)]
pub extern "C" fn rhset_set_length(alloc: Global, handle: &mut Handle) -> usize
    ensures count { result ≡ set.len (held_in handle.old).keys }
    ensures unchanged { held_in handle.new ≡ held_in handle.old }
{
    handle.len(alloc)
}

/// The keys, in rising order.
#[unsafe(no_mangle)]
pub extern "C" fn rhset_set_list(
    alloc: Global,
    handle: &mut Handle,
    into: &mut [u64],
    detail: &mut Detail,
) -> u32
    ensures answers { AnswersList (held_in handle.old) into.old into.new result detail.new }
    ensures unchanged { held_in handle.new ≡ held_in handle.old }
{
    tell_put(handle.keys_into(alloc, into), detail)
}

/// A snapshot of the set.
#[unsafe(no_mangle)]
pub extern "C" fn rhset_set_snapshot(
    alloc: Global,
    handle: &mut Handle,
    into: &mut [u8],
    detail: &mut Detail,
) -> u32
    ensures answers { AnswersSnapshot (held_in handle.old) into.old into.new result detail.new }
    ensures unchanged { held_in handle.new ≡ held_in handle.old }
{
    tell_put(handle.snapshot_into(alloc, into), detail)
}

/// The set of a snapshot, in the place of this one.
#[unsafe(no_mangle)]
pub extern "C" fn rhset_set_restore(alloc: Global, handle: &mut Handle, bytes: &[u8]) -> u32
    ensures { AnswersRestore (held_in handle.old) (held_in handle.new) bytes.now result }
{
    tell_restore(handle.restore(alloc, bytes))
}

/// Frees what the set has.
#[unsafe(no_mangle)]
pub extern "C" fn rhset_set_free(alloc: Global, handle: &mut Handle)
    ensures { handle.new.held ≡ None }
{
    handle.clear(alloc);
}
