//! A piece of a list is cut into parts.

ghost use Rattle.std.specs.Prelude.{◌≡◌, ◌+◌, ◌<◌, ◌≤◌, All, IfOk, length};
ghost use Rattle.rh_layout.specs.Key.{IsKey};
ghost use Rattle.rh_cutting.specs.Borders.{AreBorders, AreNumbers, AreParts, StandsIn};
ghost use Rattle.rh_cutting.specs.declared.limits.TheConstants.{MOST_PARTS};

use crate::borders::Borders;
use crate::limits::MOST_PARTS;
use crate::parts::Parts;
use std::alloc::{AllocError, Global};

/// The part in which a key stands, by a search among the borders.
fn part_among(values: &[u64], key: u64) -> usize
    requires are { AreBorders values.now }
    requires in_range { IsKey key }
    ensures { StandsIn values.now result key }
{
    let mut low = 0;
    let mut size = values.len() - 1;
    while size > 1 {
        let half = size / 2;
        if values[low + half] <= key {
            low += half;
        }
        size -= half;
    }
    low
}

/// The part of each key, by a search.
fn numbers_by_search(alloc: Global, values: &[u64], keys: &[u64]) -> Result<Vec<u16>, AllocError>
    requires are { AreBorders values.now }
    requires few { length values.now ≤ MOST_PARTS + 1 }
    requires in_range { All IsKey keys.now }
    ensures { IfOk result (λ v. AreNumbers values.now keys.now v.items) }
{
    let mut numbers = Vec::with_capacity(alloc, keys.len())?;
    for key in keys {
        numbers.push(part_among(values, *key) as u16)?;
    }
    Ok(numbers)
}

/// The part of each key, most of which stand in the part that is hinted at.
fn numbers_by_hints(alloc: Global, borders: &Borders, keys: &[u64]) -> Result<Vec<u16>, AllocError>
    requires { All IsKey keys.now }
    ensures { IfOk result (λ v. AreNumbers borders.now.values.items keys.now v.items) }
{
    let values = borders.values.as_slice();
    let mut numbers = Vec::with_capacity(alloc, keys.len())?;
    for key in keys {
        let part = match borders.hints.part_of(values, *key) {
            Some(part) => part,
            None => part_among(values, *key),
        };
        numbers.push(part as u16)?;
    }
    Ok(numbers)
}

/// The part of each key. Which way is chosen once: where there are no hints, to look for one would
/// only take time.
fn numbers_of(alloc: Global, borders: &Borders, keys: &[u64]) -> Result<Vec<u16>, AllocError>
    requires { All IsKey keys.now }
    ensures { IfOk result (λ v. AreNumbers borders.now.values.items keys.now v.items) }
{
    if borders.hints.parts.is_empty() {
        return numbers_by_search(alloc, &borders.values, keys);
    }
    numbers_by_hints(alloc, borders, keys)
}

/// How many keys each part has. So much room is taken for them at once; no more depends on it.
fn count_in_parts(alloc: Global, numbers: &[u16], parts: usize) -> Result<Vec<usize>, AllocError>
    requires { All (λ n. n < parts) numbers.now }
    ensures { IfOk result (λ v. length v.items ≡ parts) }
{
    let mut counts = vec![in alloc; 0usize; parts]?;
    for number in numbers {
        let part = usize::from(*number);
        counts[part] = counts[part].wrapping_add(1);
    }
    Ok(counts)
}

/// The keys of a piece part by part, each part in the order of the piece.
pub(crate) fn cut_piece(alloc: Global, borders: &Borders, keys: &[u64]) -> Result<Parts, AllocError>
    requires { All IsKey keys.now }
    ensures { IfOk result (λ parts. AreParts borders.now.values.items keys.now parts) }
{
    let numbers = numbers_of(alloc, borders, keys)?;
    let counts = count_in_parts(alloc, &numbers, borders.values.len() - 1)?;
    let mut parts = Parts::with_room(alloc, &counts)?;
    for (i, number) in numbers.iter().enumerate() {
        parts.put(usize::from(*number), keys[i])?;
    }
    Ok(parts)
}
