//! A range of keys is cut in parts until each fits a small table.

ghost use Rattle.std.specs.Prelude.{◌≡◌, ℕ, ◌+◌, ◌-◌, ◌^◌, ◌<◌, ◌≤◌, All, IfOk, IsTrue, length, map, sum_by, slice_index_or, vec_len};
ghost use Rattle.rh_layout.specs.Key.{IsKey};
ghost use Rattle.rh_layout.specs.declared.limits.TheConstants.{MAX_KEY};
ghost use Rattle.rh_combine.specs.Combine.{AllWithin, answer};
ghost use Rattle.rh_combine.specs.Grid.{IsGrid, in_part};
ghost use Rattle.rh_combine.specs.declared.ranges.TheConstants.{IN_A_TABLE};

use crate::crowds::is_crowded;
use crate::cut::{Grid, cut};
use crate::how::How;
use crate::table::by_table;
use rh_layout::MAX_KEY;
use std::alloc::{AllocError, Global};

/// The most keys of all lists together in one table: repeats are counted, or else all keys of the
/// range.
const IN_A_TABLE: usize = 24_576;

/// So few keys are searched through soon, whatever their homes are.
const FEW: usize = 256;

/// About how many keys a part shall have.
const IN_A_PART: usize = 16_384;

/// The same where so many keys crowd about few homes: a part has no more than `FEW` then, nearly
/// always.
const IN_A_CROWDED_PART: usize = 128;

/// The most parts that a range is cut in at a time.
const MOST_PARTS: u64 = 512;

/// How many keys there are in all lists, where they are no more than a table takes; else any number
/// above.
fn total(lists: &[&[u64]]) -> usize
    ensures { result ≤ IN_A_TABLE → sum_by (λ l. length l.now) lists.now ≡ result }
{
    let mut sum = 0usize;
    for keys in lists {
        sum = sum.saturating_add(keys.len());
    }
    sum
}

/// Whether one table takes the keys of all lists, which are so many, and finds each soon.
fn suits_a_table(lists: &[&[u64]], many: usize) -> bool
    ensures { IsTrue result → many ≤ IN_A_TABLE }
{
    many <= FEW || (many <= IN_A_TABLE && !is_crowded(lists, many))
}

/// The least key of a list, and the number after the greatest one, or these where they go further.
fn widen(keys: &[u64], least: u64, past: u64, from: u64, to: u64) -> (u64, u64)
    requires all { All (λ k. (from ≤ k) × (k < to)) keys.now }
    requires from { from ≤ least }
    requires to { past ≤ to }
    ensures all { All (λ k. (result.0 ≤ k) × (k < result.1)) keys.now }
    ensures least { result.0 ≤ least }
    ensures past { past ≤ result.1 }
    ensures from { from ≤ result.0 }
    ensures to { result.1 ≤ to }
{
    let _ = (from, to);
    let mut low = least;
    let mut high = past;
    for key in keys {
        low = low.min(*key);
        high = high.max(*key + 1);
    }
    (low, high)
}

/// The least key of all lists, and the number after the greatest one.
fn extent(lists: &[&[u64]], from: u64, to: u64) -> (u64, u64)
    requires all { AllWithin from to (map (λ l. l.now) lists.now) }
    requires order { from ≤ to }
    ensures all { AllWithin result.0 result.1 (map (λ l. l.now) lists.now) }
    ensures from { from ≤ result.0 }
    ensures to { result.1 ≤ to }
{
    let mut least = to;
    let mut past = from;
    for keys in lists {
        (least, past) = widen(keys, least, past, from, to);
    }
    (least, past)
}

/// A grid for so many keys. Where a table would take them they are cut as they crowd.
fn grid_of(from: u64, to: u64, many: usize) -> Grid
    requires { from + 2 ≤ to }
    ensures from { result.from ≡ from }
    ensures to { result.to ≡ to }
    ensures grid { IsGrid result }
    ensures narrower { 2 ^ result.shift < to - from }
{
    let in_a_part = if many > IN_A_TABLE {
        IN_A_PART
    } else {
        IN_A_CROWDED_PART
    };
    let want = ((many / in_a_part) as u64).clamp(2, MOST_PARTS);
    let last = to - from - 1;
    let shift = shift_for(last, want);
    Grid {
        from,
        to,
        shift,
        parts: (last >> shift) as usize + 1,
    }
}

/// The least shift after which the number is below `want`.
fn shift_for(last: u64, want: u64) -> u32
    requires some { 0 < last }
    requires want { 1 < want }
    ensures in_word { result < 64 }
    ensures no_more { 2 ^ result ≤ last }
{
    for shift in 0..63u32 {
        if last >> shift < want {
            return shift;
        }
    }
    0
}

/// Each list cut in the parts of the grid.
fn cut_all(alloc: Global, grid: &Grid, lists: &[&[u64]]) -> Result<Vec<Vec<Vec<u64>>>, AllocError>
    requires { IsGrid grid.now }
    ensures long { IfOk result (λ v. All (λ c. vec_len c ≡ grid.now.parts) v.items) }
    ensures parts { IfOk result (λ v. (p : ℕ) (d : _) → p < grid.now.parts →
        map (λ c. (slice_index_or c.items p d).items) v.items
        ≡ map (in_part grid.now p) (map (λ l. l.now) lists.now)) }
{
    let mut cuts = Vec::with_capacity(alloc, lists.len())?;
    for keys in lists {
        cuts.push(cut(alloc, grid, keys)?)?;
    }
    Ok(cuts)
}

/// The keys of each list that stand in a part.
fn of_part(alloc: Global, cuts: &[Vec<Vec<u64>>], part: usize) -> Result<Vec<&[u64]>, AllocError>
    requires { All (λ c. part < vec_len c) cuts.now }
    ensures { IfOk result (λ v. (d : _) → map (λ l. l.now) v.items
        ≡ map (λ c. (slice_index_or c.items part d).items) cuts.now) }
{
    let mut found = Vec::with_capacity(alloc, cuts.len())?;
    for parts in cuts {
        let there = piece(parts, part);
        found.push(there)?;
    }
    Ok(found)
}

fn piece(parts: &[Vec<u64>], part: usize) -> &[u64]
    requires { part < length parts.now }
    ensures { (d : _) → result.now ≡ (slice_index_or parts.now part d).items }
{
    parts[part].as_slice()
}

/// What comes of the lists, whose keys are all `from` or more and less than `to`.
fn of_lists(
    alloc: Global,
    how: How,
    lists: &[&[u64]],
    from: u64,
    to: u64,
) -> Result<Vec<u64>, AllocError>
    requires order { from ≤ to }
    requires limit { to ≤ MAX_KEY + 1 }
    requires range { AllWithin from to (map (λ l. l.now) lists.now) }
    ensures { IfOk result (λ v. v.items ≡ answer how (map (λ l. l.now) lists.now)) }
{
    let many = total(lists);
    if suits_a_table(lists, many) {
        return by_table(alloc, how, many, lists);
    }
    let (least, past) = extent(lists, from, to);
    let width = past.saturating_sub(least);
    if width <= IN_A_TABLE as u64 {
        return by_table(alloc, how, width as usize, lists);
    }
    let grid = grid_of(least, past, many);
    let cuts = cut_all(alloc, &grid, lists)?;
    let mut out = Vec::new(alloc);
    for part in 0..grid.parts {
        let there = of_part(alloc, &cuts, part)?;
        let mut more = of_lists(alloc, how, &there, grid.edge(part), grid.edge(part + 1))?;
        out.append(&mut more)?;
    }
    Ok(out)
}

/// The numbers that come of the lists, each once, in rising order. The lists may be of any length,
/// with repeats, in any order. `AllocError` comes only for want of memory: beside the answer it
/// takes some 8 bytes a key for parts of the lists, at each of a few levels.
pub fn combine(alloc: Global, how: How, lists: &[&[u64]]) -> Result<Vec<u64>, AllocError>
    requires { All (λ l. All IsKey l.now) lists.now }
    ensures { IfOk result (λ v. v.items ≡ answer how (map (λ l. l.now) lists.now)) }
{
    of_lists(alloc, how, lists, 0, MAX_KEY + 1)
}
