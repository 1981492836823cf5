//! The calls.

ghost use Rattle.std.specs.Prelude.{◌≡◌, [], ◌∷◌};
ghost use Rattle.rh_combine.specs.declared.how.How.TheVariants.{Intersect, Subtract, Union, Xor};
ghost use Rattle.rh_c.specs.Answers.{Answers, AnswersWithin};
ghost use Rattle.rh_c.specs.declared.answer.TheConstants.{VERSION as the_version};

use crate::answer::{Detail, VERSION, tell};
use rh_combine::How;
use rh_slices::{combine_into, cut_to};
use std::alloc::Global;

/// The numbers that stand in both lists.
#[unsafe(no_mangle)]
pub extern "C" fn rhset_intersect(
    alloc: Global,
    first: &[u64],
    second: &[u64],
    into: &mut [u64],
    detail: &mut Detail,
) -> u32
    ensures { Answers Intersect (first.now ∷ second.now ∷ []) into.old into.new result detail.new }
{
    tell(
        combine_into(alloc, How::Intersect, &[first, second], into),
        detail,
    )
}

/// The numbers that stand in one list or in both.
#[unsafe(no_mangle)]
pub extern "C" fn rhset_union(
    alloc: Global,
    first: &[u64],
    second: &[u64],
    into: &mut [u64],
    detail: &mut Detail,
) -> u32
    ensures { Answers Union (first.now ∷ second.now ∷ []) into.old into.new result detail.new }
{
    tell(
        combine_into(alloc, How::Union, &[first, second], into),
        detail,
    )
}

/// The numbers that stand in the first list alone.
#[unsafe(no_mangle)]
pub extern "C" fn rhset_subtract(
    alloc: Global,
    first: &[u64],
    second: &[u64],
    into: &mut [u64],
    detail: &mut Detail,
) -> u32
    ensures { Answers Subtract (first.now ∷ second.now ∷ []) into.old into.new result detail.new }
{
    tell(
        combine_into(alloc, How::Subtract, &[first, second], into),
        detail,
    )
}

/// The numbers that stand in one of the lists alone.
#[unsafe(no_mangle)]
pub extern "C" fn rhset_xor(
    alloc: Global,
    first: &[u64],
    second: &[u64],
    into: &mut [u64],
    detail: &mut Detail,
) -> u32
    ensures { Answers Xor (first.now ∷ second.now ∷ []) into.old into.new result detail.new }
{
    tell(
        combine_into(alloc, How::Xor, &[first, second], into),
        detail,
    )
}

/// The numbers of a list that are `from` or more and less than `to`, in the list's order.
#[unsafe(no_mangle)]
pub extern "C" fn rhset_within(
    numbers: &[u64],
    from: u64,
    to: u64,
    into: &mut [u64],
    detail: &mut Detail,
) -> u32
    ensures { AnswersWithin from to numbers.now into.old into.new result detail.new }
{
    tell(cut_to(numbers, from, to, into), detail)
}

/// The version of the library.
#[unsafe(no_mangle)]
pub extern "C" fn rhset_version() -> u32
    ensures { result ≡ the_version }
{
    VERSION
}
