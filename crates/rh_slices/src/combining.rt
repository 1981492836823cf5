//! What comes of lists, put into a slice.

ghost use Rattle.std.specs.Prelude.{◌≡◌, ℕ, All, IfErr, IfOk, MatchOption, MatchResult, OnErr};
ghost use Rattle.std.specs.Prelude.{length, map};
ghost use Rattle.rh_combine.specs.declared.how.How.{How as Made};
ghost use Rattle.rh_layout.specs.Key.{IsKey};
ghost use Rattle.rh_slices.specs.Slices.{AreKeys, IsFirstBad, IsPut, IsWhy};

use crate::refused::Refused;
use rh_combine::{How, combine};
use rh_layout::MAX_KEY;
use std::alloc::Global;

/// The place of the first number that is no key, if there is one.
fn first_bad(numbers: &[u64]) -> Option<usize>
    ensures { MatchOption result (All IsKey numbers.now) (IsFirstBad numbers.now) }
{
    numbers.iter().position(|number| *number > MAX_KEY)
}

/// Tests that all numbers are keys, in the order of the lists.
fn test_keys(lists: &[&[u64]]) -> Result<(), Refused>
    ensures { MatchResult result (λ _. AreKeys (map (λ l. l.now) lists.now))
        (λ why. (room : ℕ) (how : Made) → IsWhy how (map (λ l. l.now) lists.now) room why) }
{
    for (list, numbers) in lists.iter().enumerate() {
        if let Some(at) = first_bad(numbers) {
            return Err(Refused::NotAKey { list, at });
        }
    }
    Ok(())
}

/// Puts the numbers that come of the lists at the front of the slice, each once, in rising order,
/// and answers how many they are. The lists may be of any length, with repeats, in any order. It
/// takes time in the sum of their lengths, and beside the answer some 8 bytes of memory for each
/// number, at a few levels.
pub fn combine_into(
    alloc: Global,
    how: How,
    lists: &[&[u64]],
    into: &mut [u64],
) -> Result<usize, Refused>
    ensures put { IfOk result (IsPut how (map (λ l. l.now) lists.now) into.old into.new) }
    ensures why { IfErr result (IsWhy how (map (λ l. l.now) lists.now) (length into.old)) }
    ensures unchanged { OnErr result (into.new ≡ into.old) }
{
    test_keys(lists)?;
    let Ok(numbers) = combine(alloc, how, lists) else {
        return Err(Refused::Memory);
    };
    let count = numbers.len();
    if into.len() < count {
        return Err(Refused::NoRoom { count });
    }
    into[..count].copy_from_slice(&numbers);
    Ok(count)
}
