//! Lists that no table takes.

ghost use Rattle.std.specs.Prelude.{◌≤◌, All, IfOk};
ghost use Rattle.rh_layout.specs.Key.{IsKey};

use rh_combine::*;
use std::alloc::{AllocError, Global};
use std::test::Fail;

// How many numbers a list has.
const MANY: u64 = 100_000;

// The least multiples of a number, the greater ones first.
fn multiples(alloc: Global, of: u64) -> Result<Vec<u64>, AllocError>
    requires { of ≤ 1000 }
    ensures { IfOk result (λ v. All IsKey v.items) }
{
    let mut list = Vec::new(alloc);
    for i in 0..MANY {
        list.push((MANY - 1 - i) * of)?;
    }
    Ok(list)
}

#[test]
fn multiples_of_two_and_of_three(rt: HostRuntime) -> Result<(), Fail> {
    let (two, three) = (multiples(rt.alloc(), 2)?, multiples(rt.alloc(), 3)?);
    // Of those of 2 a third is also of 3, which have the others as well.
    for (how, many) in [
        (How::Intersect, 33_334),
        (How::Union, 166_666),
        (How::Subtract, 66_666),
        (How::Xor, 133_332),
    ] {
        let found = combine(rt.alloc(), how, &[&two, &three])?;
        assert_eq!(rt; found.len(), many, "{how:?}");
    }
    let both = combine(rt.alloc(), How::Intersect, &[&two, &three])?;
    for (i, number) in both.iter().enumerate() {
        assert_eq!(rt; *number, 6 * i as u64);
    }
    Ok(())
}

// What the multiplier of homes is multiplied by to give 1, modulo 2^64.
const INVERSE: u64 = 17428512612931826493;

// Numbers whose product with the multiplier of homes has the same upper 18 bits.
fn of_one_home(alloc: Global) -> Result<Vec<u64>, AllocError>
    ensures { IfOk result (λ v. All IsKey v.items) }
{
    let mut list = Vec::new(alloc);
    for i in 0..MANY {
        let number = ((5 << 46) + i).wrapping_mul(INVERSE);
        if number <= 4_611_686_018_427_387_902 {
            list.push(number)?;
        }
    }
    Ok(list)
}

#[test]
fn numbers_of_one_home(rt: HostRuntime) -> Result<(), Fail> {
    let list = of_one_home(rt.alloc())?;
    assert!(rt; list.len() > 20_000, "a table would take them");
    for how in [How::Intersect, How::Union] {
        let found = combine(rt.alloc(), how, &[&list, &list])?;
        assert_eq!(rt; found.len(), list.len(), "{how:?}");
    }
    for how in [How::Subtract, How::Xor] {
        let found = combine(rt.alloc(), how, &[&list, &list])?;
        assert_eq!(rt; found.len(), 0, "{how:?}");
    }
    Ok(())
}
