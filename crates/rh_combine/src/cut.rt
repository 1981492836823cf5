//! Lists that are cut in parts, each a range of keys.

ghost use Rattle.std.specs.Prelude.{◌≡◌, ◌≢◌, ℕ, [], ◌∷◌, ◌++◌, ◌<◌, IfOk, IfSome, OnOk, slice_index_or, vec_len, length};
ghost use Rattle.rh_combine.specs.Grid.{IsGrid, edge, in_part, is_at, stands_in};

use std::alloc::{AllocError, Global};

/// A range of keys, `from` up to before `to`, that is cut in parts of 2 to the power of `shift`
/// keys.
#[derive(Clone, Copy)]
pub(crate) struct Grid {
    pub(crate) from: u64,
    pub(crate) to: u64,
    pub(crate) shift: u32,
    pub(crate) parts: usize,
}

impl Grid {
    /// The part in which the key stands, if it is one of the range.
    pub(crate) fn part_of(&self, key: u64) -> Option<usize>
        requires { IsGrid self.now }
        ensures within { IfSome result (λ p. p < self.now.parts) }
        ensures part { (q : ℕ) → stands_in self.now q key ≡ is_at result q }
    {
        if key < self.from || key >= self.to {
            return None;
        }
        Some(((key - self.from) >> self.shift) as usize)
    }

    /// Where a part begins, and the part before it ends.
    pub(crate) fn edge(&self, part: usize) -> u64
        requires { self.now.shift < 64 }
        ensures { result ≡ edge self.now part }
    {
        let start = u128::from(self.from) + ((part as u128) << self.shift);
        start.min(u128::from(self.to)) as u64
    }
}

/// How many keys of a list stand in each part. So much room is taken for them at once; no more
/// depends on it.
fn count_in_parts(alloc: Global, grid: &Grid, keys: &[u64]) -> Result<Vec<usize>, AllocError>
    requires { IsGrid grid.now }
    ensures { IfOk result (λ v. vec_len v ≡ grid.now.parts) }
{
    let mut counts = vec![in alloc; 0usize; grid.parts]?;
    for key in keys {
        if let Some(part) = grid.part_of(*key) {
            counts[part] = counts[part].wrapping_add(1);
        }
    }
    Ok(counts)
}

/// Empty parts, with so much room.
fn empty_parts(alloc: Global, counts: &[usize]) -> Result<Vec<Vec<u64>>, AllocError>
    ensures len { IfOk result (λ v. vec_len v ≡ length counts.now) }
    ensures parts { IfOk result (λ v. (p : ℕ) (d : _) → p < length counts.now →
        (slice_index_or v.items p d).items ≡ []) }
{
    let mut parts = Vec::with_capacity(alloc, counts.len())?;
    for many in counts {
        parts.push(Vec::with_capacity(alloc, *many)?)?;
    }
    Ok(parts)
}

/// Puts the key behind those of a part.
fn put(parts: &mut Vec<Vec<u64>>, part: usize, key: u64) -> Result<(), AllocError>
    requires { part < vec_len parts.old }
    ensures len { vec_len parts.new ≡ vec_len parts.old }
    ensures there { OnOk result ((d : _) → (slice_index_or parts.new.items part d).items
        ≡ (slice_index_or parts.old.items part d).items ++ key ∷ []) }
    ensures others { (q : ℕ) (d : _) → q ≢ part →
        (slice_index_or parts.new.items q d).items ≡ (slice_index_or parts.old.items q d).items }
{
    let there = &mut parts[part];
    there.push(key)?;
    Ok(())
}

/// The keys of a list that stand in each part of the range, in the list's order.
pub(crate) fn cut(alloc: Global, grid: &Grid, keys: &[u64]) -> Result<Vec<Vec<u64>>, AllocError>
    requires { IsGrid grid.now }
    ensures len { IfOk result (λ v. vec_len v ≡ grid.now.parts) }
    ensures parts { IfOk result (λ v. (p : ℕ) (d : _) → p < grid.now.parts →
        (slice_index_or v.items p d).items ≡ in_part grid.now p keys.now) }
{
    let counts = count_in_parts(alloc, grid, keys)?;
    let mut parts = empty_parts(alloc, &counts)?;
    for key in keys {
        if let Some(part) = grid.part_of(*key) {
            put(&mut parts, part, *key)?;
        }
    }
    Ok(parts)
}
