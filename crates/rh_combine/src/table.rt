//! Lists combined in small tables, none larger than what stands in it asks for: the bytes of all of
//! them grow as the numbers of the lists do.

ghost use Rattle.std.specs.Prelude.{◌≡◌, ◌≤◌, All, IfOk, OnOk, [], ◌∷◌, length, map, min};
ghost use Rattle.std.specs.FinSet as finset;
ghost use Rattle.rh_layout.specs.Key.{IsBits, IsKey};
ghost use Rattle.rh_layout.specs.declared.limits.TheConstants.{MAX_BITS, MIN_BITS};
ghost use Rattle.rh_grow.specs.Growth.{Fits, IsCapacity};
ghost use Rattle.rh_combine.specs.Combine.{answer, meant, with_list};
ghost use Rattle.rh_combine.specs.Table.{HasAtMost, HasRoom, IsSizedAfter, TakesLater, first_count};
ghost use Rattle.rh_combine.specs.declared.how.How.TheVariants.{Intersect, Subtract, Union, Xor};

use crate::how::How;
use rh_edit::SeqSet;
use rh_grow::bits_for;
use rh_layout::MIN_BITS;
use std::alloc::{AllocError, Global};

/// The size of a table for so many keys: the least that takes them.
fn bits_of(many: usize) -> u32
    requires { Fits MAX_BITS many }
    ensures size { IsCapacity MIN_BITS many result }
    ensures bits { IsBits result }
{
    bits_for(MIN_BITS, 0, many as u64).unwrap()
}

/// Adds the keys of a list.
fn add(set: &mut SeqSet, keys: &[u64])
    requires keys { All IsKey keys.now }
    requires room { HasRoom set.old.bits set.old.keys keys.now }
    ensures bits { set.new.bits ≡ set.old.bits }
    ensures keys { set.new.keys ≡ with_list Union set.old.keys keys.now }
{
    for key in keys {
        set.insert(*key);
    }
}

/// Takes the keys of a list out.
fn take_out(set: &mut SeqSet, keys: &[u64])
    requires keys { All IsKey keys.now }
    ensures bits { set.new.bits ≡ set.old.bits }
    ensures keys { set.new.keys ≡ with_list Subtract set.old.keys keys.now }
{
    for key in keys {
        set.remove(*key);
    }
}

/// The keys that a set and a list have both, in a set of their own, whose table is as large as the
/// lesser of the two asks for.
fn both(alloc: Global, set: &SeqSet, keys: &[u64]) -> Result<SeqSet, AllocError>
    requires keys { All IsKey keys.now }
    requires limit { Fits MAX_BITS (finset.len set.now.keys) }
    ensures size { IfOk result (λ s.
        IsCapacity MIN_BITS (min (finset.len set.now.keys) (length keys.now)) s.bits) }
    ensures keys { IfOk result (λ s. s.keys ≡ with_list Intersect set.now.keys keys.now) }
{
    let bits = bits_of(set.len().min(keys.len()));
    let mut found = SeqSet::new(alloc, bits)?;
    for key in keys {
        if set.has(*key) {
            found.insert(*key);
        }
    }
    Ok(found)
}

/// Takes the key out, or adds it where it was not there.
fn flip(set: &mut SeqSet, key: u64)
    requires key { IsKey key }
    requires room { HasRoom set.old.bits set.old.keys (key ∷ []) }
    ensures bits { set.new.bits ≡ set.old.bits }
    ensures keys { set.new.keys ≡ with_list Xor set.old.keys (key ∷ []) }
{
    if !set.remove(key) {
        set.insert(key);
    }
}

/// Takes those keys of a list out that the set has, and adds the others: each once, however often
/// the list has it. `most` bounds how many different keys both have; what was seen of the list
/// stands in a table that is no larger than the list asks for.
fn flip_all(alloc: Global, most: usize, set: &mut SeqSet, keys: &[u64]) -> Result<(), AllocError>
    requires keys { All IsKey keys.now }
    requires limit { Fits MAX_BITS most }
    requires few { HasAtMost most set.old.keys keys.now }
    requires room { HasRoom set.old.bits set.old.keys keys.now }
    ensures bits { set.new.bits ≡ set.old.bits }
    ensures keys { OnOk result (set.new.keys ≡ with_list Xor set.old.keys keys.now) }
{
    let bits = bits_of(most.min(keys.len()));
    let mut seen = SeqSet::new(alloc, bits)?;
    for key in keys {
        if seen.insert(*key) {
            flip(set, *key);
        }
    }
    Ok(())
}

/// For how many keys the table of the first list is made, which has so many, repeats counted. Where
/// no other list adds to it these are twice as many: so a key that it does not have is soon missed.
fn count_at_first(how: How, most: usize, many: usize) -> usize
    ensures { result ≡ first_count how most many }
{
    let twice = many.saturating_mul(2);
    match how {
        How::Intersect => most.min(twice),
        How::Union => most,
        How::Subtract => most.min(twice),
        How::Xor => most,
    }
}

/// The set of the first list.
fn first_set(alloc: Global, how: How, most: usize, keys: &[u64]) -> Result<SeqSet, AllocError>
    requires keys { All IsKey keys.now }
    requires limit { Fits MAX_BITS most }
    requires few { HasAtMost most finset.empty keys.now }
    ensures size { IfOk result (λ s.
        IsCapacity MIN_BITS (first_count how most (length keys.now)) s.bits) }
    ensures keys { IfOk result (λ s. s.keys ≡ finset.from_list keys.now) }
{
    let bits = bits_of(count_at_first(how, most, keys.len()));
    let mut set = SeqSet::new(alloc, bits)?;
    add(&mut set, keys);
    Ok(set)
}

/// The set after one list more.
fn with_list(
    alloc: Global,
    how: How,
    most: usize,
    mut set: SeqSet,
    keys: &[u64],
) -> Result<SeqSet, AllocError>
    requires keys { All IsKey keys.now }
    requires limit { Fits MAX_BITS most }
    requires few { HasAtMost most set.keys keys.now }
    requires room { TakesLater how most set.bits }
    ensures size { IfOk result (λ s. IsSizedAfter how set.bits set.keys keys.now s.bits) }
    ensures keys { IfOk result (λ s. s.keys ≡ with_list how set.keys keys.now) }
{
    match how {
        How::Intersect => both(alloc, &set, keys),
        How::Union => {
            add(&mut set, keys);
            Ok(set)
        }
        How::Subtract => {
            take_out(&mut set, keys);
            Ok(set)
        }
        How::Xor => {
            flip_all(alloc, most, &mut set, keys)?;
            Ok(set)
        }
    }
}

/// What comes of the lists, which have at most so many different keys.
pub(crate) fn by_table(
    alloc: Global,
    how: How,
    most: usize,
    lists: &[&[u64]],
) -> Result<Vec<u64>, AllocError>
    requires keys { All (λ l. All IsKey l.now) lists.now }
    requires limit { Fits MAX_BITS most }
    requires few { finset.len (meant Union (map (λ l. l.now) lists.now)) ≤ most }
    ensures { IfOk result (λ v. v.items ≡ answer how (map (λ l. l.now) lists.now)) }
{
    let mut set = SeqSet::new(alloc, MIN_BITS)?;
    for (i, keys) in lists.iter().enumerate() {
        if i == 0 {
            set = first_set(alloc, how, most, keys)?;
        } else {
            set = with_list(alloc, how, most, set, keys)?;
        }
    }
    set.sorted_keys(alloc)
}
