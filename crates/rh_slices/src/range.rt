//! The numbers of a list that lie in a range.

ghost use Rattle.std.specs.Prelude.{◌≡◌, IfErr, IfOk, OnErr, length};
ghost use Rattle.rh_layout.specs.Range.{stands, within};
ghost use Rattle.rh_slices.specs.Slices.{AreTooMany, IsCut};

use crate::refused::Refused;

/// Puts the numbers of a list that are `from` or more and less than `to` at the front of the slice,
/// in the list's order, with repeats, and answers how many they are.
///
/// What comes of such parts of lists are the numbers of that range that come of the lists
/// (`range_of_lists` of `rh_combine`), and those of ranges that follow one another make up the
/// whole (`ranges_join`, `all_in_range`). So whoever has threads gives each of them a range.
pub fn cut_to(numbers: &[u64], from: u64, to: u64, into: &mut [u64]) -> Result<usize, Refused>
    ensures cut { IfOk result (IsCut from to numbers.now into.old into.new) }
    ensures why { IfErr result (AreTooMany from to numbers.now (length into.old)) }
    ensures unchanged { OnErr result (into.new ≡ into.old) }
{
    let count = count_within(numbers, from, to);
    if into.len() < count {
        return Err(Refused::NoRoom { count });
    }
    let mut at = 0;
    for number in numbers {
        if is_within(*number, from, to) {
            into[at] = *number;
            at += 1;
        }
    }
    Ok(count)
}

/// How many numbers of a list lie in the range.
fn count_within(numbers: &[u64], from: u64, to: u64) -> usize
    ensures { result ≡ length (within from to numbers.now) }
{
    let mut count = 0;
    for number in numbers {
        if is_within(*number, from, to) {
            count += 1;
        }
    }
    count
}

fn is_within(number: u64, from: u64, to: u64) -> bool
    ensures { result ≡ stands from to number }
{
    from <= number && number < to
}
