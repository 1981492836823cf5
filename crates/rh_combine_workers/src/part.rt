//! The keys of one part, and what is answered of them by one worker.

ghost use Rattle.std.specs.Prelude.{◌≡◌, ℕ, List, ◌+◌, ◌<◌, All, IfOk, length, map};
ghost use Rattle.rh_layout.specs.Key.{IsKey};
ghost use Rattle.rh_cutting.specs.Borders.{between, part_of};
ghost use Rattle.rh_cutting.specs.Cut.{AreLists};

use crate::question::Question;
use rh_cutting::{CutLists, Parts};
use std::alloc::{AllocError, Global};

/// How many keys of a list stand in a part. So much room is taken for them at once; no more depends
/// on it.
fn count(pieces: &[Parts], part: usize) -> usize
    requires { All (λ parts. part < length parts) pieces.now }
{
    let mut many = 0usize;
    for parts in pieces {
        many = many.saturating_add(parts.part(part).len());
    }
    many
}

/// The keys of a list that stand in a part.
fn gather(alloc: Global, pieces: &[Parts], part: usize) -> Result<Vec<u64>, AllocError>
    requires { All (λ parts. part < length parts) pieces.now }
    ensures { IfOk result (λ v. v.items ≡ part_of pieces.now part) }
{
    let mut keys = Vec::with_capacity(alloc, count(pieces, part))?;
    for parts in pieces {
        keys.extend_from_slice(parts.part(part))?;
    }
    Ok(keys)
}

/// The same of each list.
fn all_gathered(
    alloc: Global,
    lists: &[Vec<Parts>],
    part: usize,
) -> Result<Vec<Vec<u64>>, AllocError>
    requires { All (λ l. All (λ parts. part < length parts) l.items) lists.now }
    ensures { IfOk result (λ v. map (λ k. k.items) v.items
        ≡ map (λ l. part_of l.items part) lists.now) }
{
    let mut all = Vec::with_capacity(alloc, lists.len())?;
    for pieces in lists {
        all.push(gather(alloc, pieces, part)?)?;
    }
    Ok(all)
}

/// The keys of each list that stand in a part.
pub fn lists_of_part(
    alloc: Global,
    cut: &CutLists,
    part: usize,
) -> Result<Vec<Vec<u64>>, AllocError>
    requires part { part + 1 < length cut.now.borders.values.items }
    ensures many { IfOk result (λ v. length v.items ≡ length cut.now.lists.items) }
    ensures keys { IfOk result (λ v. All (λ l. All IsKey l.items) v.items) }
    ensures each { (lists : List (List ℕ)) → AreLists cut.now lists →
        IfOk result (λ v. map (λ l. l.items) v.items
        ≡ map (between cut.now.borders.values.items part (part + 1)) lists) }
{
    all_gathered(alloc, &cut.lists, part)
}

/// Lists of keys, to be read where they stand.
pub fn slices_of(alloc: Global, lists: &[Vec<u64>]) -> Result<Vec<&[u64]>, AllocError>
    requires { All (λ l. All IsKey l.items) lists.now }
    ensures many { IfOk result (λ v. length v.items ≡ length lists.now) }
    ensures keys { IfOk result (λ v. All (λ l. All IsKey l.now) v.items) }
    ensures same { IfOk result (λ v.
        map (λ k. k.now) v.items ≡ map (λ k. k.items) lists.now) }
{
    let mut slices = Vec::with_capacity(alloc, lists.len())?;
    for keys in lists {
        slices.push(keys.as_slice())?;
    }
    Ok(slices)
}

/// What is answered of the keys of a part.
pub(crate) fn of_part<Q: Question>(
    alloc: Global,
    question: &Q,
    cut: &CutLists,
    part: usize,
) -> Result<Vec<u64>, AllocError>
    requires takes { Q.takes question.now (length cut.now.lists.items) }
    requires part { part + 1 < length cut.now.borders.values.items }
    ensures { (lists : List (List ℕ)) → AreLists cut.now lists →
        IfOk result (λ v. v.items
        ≡ between cut.now.borders.values.items part (part + 1) (Q.answer question.now lists)) }
{
    let mine = lists_of_part(alloc, cut, part)?;
    let slices = slices_of(alloc, &mine)?;
    let found = question.ask(alloc, &slices)?;
    Ok(found)
}
