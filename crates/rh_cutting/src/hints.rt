//! Hints in which part a key may stand. Each is tested before it is taken: so they save time, and
//! nothing else depends on them.

ghost use Rattle.std.specs.Prelude.{◌<◌, ◌+◌, ◌≤◌, IfOk, IfSome, length};
ghost use Rattle.rh_cutting.specs.Borders.{NameParts, StandsIn};
ghost use Rattle.rh_cutting.specs.declared.limits.TheConstants.{MOST_PARTS};

use crate::limits::MOST_PARTS;
use std::alloc::{AllocError, Global};

/// There are so many hints, 2 to the power of `SLOT_BITS`.
const SLOTS: u64 = 4_096;

const SLOT_BITS: u32 = 12;

/// Among fewer borders a search is as fast as a hint.
const FEW_BORDERS: usize = 8;

/// The hints, of numbers from `least` on, one for each 2^`shift` of them: the part in which the
/// first of these stands. There may be none.
#[derive(Drop)]
pub(crate) struct Hints {
    least: u64,
    shift: u32,
    pub parts: Vec<u16>,
    ghost shifts: { shift < 64 },
}

impl Hints {
    /// The part that is hinted at, where the key stands in it.
    #[inline(always)]
    pub fn part_of(&self, values: &[u64], key: u64) -> Option<usize>
        requires { NameParts values.now self.now.parts.items }
        ensures { IfSome result (λ part. StandsIn values.now part key) }
    {
        let slot = (key.wrapping_sub(self.least) >> self.shift) as usize;
        if slot >= self.parts.len() {
            return None;
        }
        let part = usize::from(self.parts[slot]);
        if values[part] <= key && key < values[part + 1] {
            return Some(part);
        }
        None
    }

    /// Whether most keys of the sample stand in the parts that are hinted at.
    fn serve(&self, values: &[u64], sample: &[u64]) -> bool
        requires { NameParts values.now self.now.parts.items }
    {
        let mut right = 0;
        for key in sample {
            if self.part_of(values, *key).is_some() {
                right += 1;
            }
        }
        right > sample.len() / 2
    }
}

/// The part in which the number stands, where it is this one or a later one; the last part for one
/// that stands in none.
fn part_from(values: &[u64], from: usize, number: u64) -> usize
    requires { from + 1 < length values.now }
    ensures { result + 1 < length values.now }
{
    let mut part = from;
    while part + 2 < values.len() && values[part + 1] <= number {
        part += 1;
    }
    part
}

/// Hints of numbers about where the borders but the first and the last one lie, and for about a
/// part's width around.
fn hints_around(alloc: Global, values: &[u64]) -> Result<Hints, AllocError>
    requires some { 1 < length values.now }
    requires few { length values.now ≤ MOST_PARTS + 1 }
    ensures { IfOk result (λ hints. NameParts values.now hints.parts.items) }
{
    let first = values[1];
    let range = values[values.len() - 2].saturating_sub(first);
    let around = range / values.len() as u64;
    let least = first.saturating_sub(around);
    let width = range.saturating_add(around).saturating_add(around);
    let shift = (u64::BITS - width.leading_zeros()).saturating_sub(SLOT_BITS);
    let mut parts = Vec::with_capacity(alloc, SLOTS as usize)?;
    let mut part = 0;
    for slot in 0..SLOTS {
        part = part_from(values, part, least.saturating_add(slot << shift));
        parts.push(part as u16)?;
    }
    Ok(Hints {
        least,
        shift,
        parts,
    })
}

/// Hints for these borders. There are none among few borders, nor where most keys of the sample
/// stand elsewhere, as those of numbers in two places far apart do.
pub(crate) fn hints_for(alloc: Global, values: &[u64], sample: &[u64]) -> Result<Hints, AllocError>
    requires some { 1 < length values.now }
    requires few { length values.now ≤ MOST_PARTS + 1 }
    ensures { IfOk result (λ hints. NameParts values.now hints.parts.items) }
{
    if values.len() < FEW_BORDERS {
        return Ok(Hints {
            least: 0,
            shift: 0,
            parts: Vec::new(alloc),
        });
    }
    let mut hints = hints_around(alloc, values)?;
    if !hints.serve(values, sample) {
        hints.parts.clear();
    }
    Ok(hints)
}
