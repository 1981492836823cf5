//! The borders between parts.

ghost use Rattle.std.specs.Prelude.{◌≤◌, ◌<◌, ◌+◌, length};
ghost use Rattle.rh_cutting.specs.Borders.{AreBorders, NameParts};
ghost use Rattle.rh_cutting.specs.declared.limits.TheConstants.{MOST_PARTS};

use crate::hints::{Hints, hints_for};
use crate::limits::MOST_PARTS;
use crate::list::KeyList;
use rh_layout::MAX_KEY;
use std::alloc::{AllocError, Global};

/// About how many keys a part shall have, repeats counted.
const IN_A_PART: usize = 12_288;

/// About how many a piece of a list shall give to a part, at the least.
const IN_A_PIECE: usize = 64;

/// So many keys for each part are looked at.
const SAMPLE: usize = 16;

/// Borders between parts: one more than there are parts.
#[derive(Drop)]
pub struct Borders {
    pub values: Vec<u64>,
    pub(crate) hints: Hints,
    ghost are: { AreBorders values.items },
    ghost few: { length values.items ≤ MOST_PARTS + 1 },
    ghost hinted: { NameParts values.items hints.parts.items },
}

/// How many keys the lists have, repeats counted.
pub(crate) fn count_keys(lists: &[KeyList]) -> usize {
    let mut sum = 0usize;
    for list in lists {
        for keys in list.pieces() {
            sum = sum.saturating_add(keys.len());
        }
    }
    sum
}

/// How many pieces the lists have.
fn count_pieces(lists: &[KeyList]) -> usize {
    let mut sum = 0usize;
    for list in lists {
        sum = sum.saturating_add(list.pieces().len());
    }
    sum
}

/// In how many parts so many keys are cut.
fn parts_for(keys: usize, pieces: usize) -> usize
    ensures some { 0 < result }
    ensures few { result ≤ MOST_PARTS }
{
    let by_pieces = keys / pieces.max(1) / IN_A_PIECE;
    (keys / IN_A_PART).min(by_pieces).clamp(1, MOST_PARTS)
}

/// Each key of the lists in so many steps.
fn some_keys(alloc: Global, lists: &[KeyList], step: usize) -> Result<Vec<u64>, AllocError>
    requires { 0 < step }
{
    let mut sample = Vec::new(alloc);
    for list in lists {
        for keys in list.pieces() {
            for key in keys.iter().step_by(step) {
                sample.push(*key)?;
            }
        }
    }
    Ok(sample)
}

/// The key of the sample at this place, or the border before it, if that is greater; no more than
/// `to`.
fn next_border(sample: &[u64], at: usize, last: u64, to: u64) -> u64
    requires { last ≤ to }
    ensures no_less { last ≤ result }
    ensures no_more { result ≤ to }
{
    match sample.get(at) {
        Some(key) => last.max(*key).min(to),
        None => last,
    }
}

/// Borders at places of the sample, which rises.
fn borders_at(alloc: Global, sample: &[u64], parts: usize) -> Result<Borders, AllocError>
    requires some { 0 < parts }
    requires few { parts ≤ MOST_PARTS }
{
    let step = sample.len() / parts;
    let mut values = Vec::with_capacity(alloc, parts + 1)?;
    values.push(0)?;
    let mut last = 0;
    for part in 1..parts {
        last = next_border(sample, step.saturating_mul(part), last, MAX_KEY + 1);
        values.push(last)?;
    }
    values.push(MAX_KEY + 1)?;
    let hints = hints_for(alloc, &values, sample)?;
    Ok(Borders { values, hints })
}

/// Borders for the keys of the lists, of which there are so many, by a sample of them: about as
/// many keys stand between two as between two others. Nothing else depends on which they are.
pub(crate) fn borders_for(
    alloc: Global,
    lists: &[KeyList],
    keys: usize,
) -> Result<Borders, AllocError> {
    let parts = parts_for(keys, count_pieces(lists));
    let mut sample = some_keys(alloc, lists, keys / (parts * SAMPLE) + 1)?;
    sample.sort_unstable();
    borders_at(alloc, &sample, parts)
}
