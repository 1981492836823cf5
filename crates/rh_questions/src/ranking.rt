//! The combinations of lists that occur, the most first.

ghost use Rattle.std.specs.Prelude.{◌≡◌, IfOk};
ghost use Rattle.rh_questions.specs.Rankings.{IsRanking, occurring, rank};

use std::alloc::{AllocError, Global};

/// A combination of lists, and how many numbers stand in just these: bit i of the word says that
/// list i is one of them.
#[derive(Clone, Copy, Debug, PartialEq, Eq)]
pub struct Combination {
    pub lists: u64,
    pub count: u64,
}

/// The combinations that occur, place by place.
fn occurring(alloc: Global, counts: &[u64]) -> Result<Vec<Combination>, AllocError>
    ensures { IfOk result (λ v. v.items ≡ occurring 0 counts.now) }
{
    let mut found = Vec::new(alloc);
    for place in 0..counts.len() {
        if counts[place] > 0 {
            found.push(Combination {
                lists: place as u64,
                count: counts[place],
            })?;
        }
    }
    Ok(found)
}

/// The less this is, the earlier comes the combination: by its count, the greatest first, and then
/// by its lists.
fn rank(combination: &Combination) -> u128
    ensures { result ≡ rank combination.now }
{
    u128::from(u64::MAX - combination.count) * (1 << 64) + u128::from(combination.lists)
}

/// The combinations that occur by these counts, place by place: the most first, and of those that
/// are as many the one of the lower place.
pub fn ranked(alloc: Global, counts: &[u64]) -> Result<Vec<Combination>, AllocError>
    ensures { IfOk result (λ v. IsRanking counts.now v.items) }
{
    let mut found = occurring(alloc, counts)?;
    found.sort_unstable_by_key(|combination| rank(combination));
    Ok(found)
}
