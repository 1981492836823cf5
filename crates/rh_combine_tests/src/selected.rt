//! Numbers that are wanted by the lists in which they stand.

ghost use Rattle.std.specs.Prelude.{◌≡◌, All, IfOk, length};
ghost use Rattle.rh_layout.specs.Key.{IsKey};

use crate::written::{NONE_TOLD, list};
use rh_bytes::Counted;
use rh_combine_workers::*;
use rh_expressions::*;
use rh_forks::{Team, Workers};
use rh_questions::*;
use std::alloc::{AllocError, Global};
use std::test::*;

// The numbers of the lists are below this.
const RANGE: u64 = 60;

// Forty numbers, of which many stand there twice.
fn some(alloc: Global, seed: u64) -> Result<Vec<u64>, AllocError>
    ensures { IfOk result (λ v. All IsKey v.items) }
{
    let mut state = seed;
    let mut numbers = Vec::new(alloc);
    for i in 0..40u64 {
        state = state
            .wrapping_mul(6_364_136_223_846_793_005)
            .wrapping_add(i);
        numbers.push((state >> 33) % RANGE)?;
    }
    Ok(numbers)
}

// The same list so many times.
fn times(alloc: Global, list: &[u64], many: usize) -> Result<Vec<&[u64]>, AllocError>
    requires { All IsKey list.now }
    ensures len { IfOk result (λ v. length v.items ≡ many) }
    ensures keys { IfOk result (λ v. All (λ l. All IsKey l.now) v.items) }
{
    let mut lists = Vec::new(alloc);
    for i in 0..many {
        let _ = i;
        lists.push(list)?;
    }
    Ok(lists)
}

// The expression of both.
fn joined(
    alloc: Global,
    how: How,
    first: Expression,
    second: Expression,
) -> Result<Expression, AllocError> {
    let first = Box::new(alloc, first)?;
    let second = Box::new(alloc, second)?;
    Ok(Expression::Joined(how, first, second))
}

#[test]
fn numbers_of_at_least_so_many_lists(rt: HostRuntime) -> Result<(), Fail> {
    for seed in 0..20u64 {
        let (a, b) = (some(rt.alloc(), seed)?, some(rt.alloc(), seed + 100)?);
        let c = some(rt.alloc(), seed + 200)?;
        for least in 0..5usize {
            let found = Selection::AtLeast(least).ask(rt.alloc(), &[&a, &b, &c])?;
            let mut expected = Vec::new(rt.alloc());
            for number in 0..RANGE {
                let lists = usize::from(a.contains(&number))
                    + usize::from(b.contains(&number))
                    + usize::from(c.contains(&number));
                if lists >= least.max(1) {
                    expected.push(number)?;
                }
            }
            assert_eq!(rt; found, expected, "{seed} {least}");
        }
    }
    Ok(())
}

#[test]
fn numbers_of_which_an_expression_is_true(rt: HostRuntime) -> Result<(), Fail> {
    let alloc = rt.alloc();
    for seed in 0..20u64 {
        let (a, b) = (some(alloc, seed)?, some(alloc, seed + 100)?);
        let c = some(alloc, seed + 200)?;
        // (a - b) ^ (c | list 9, which is not there)
        let first = joined(
            alloc,
            How::Subtract,
            Expression::List(0),
            Expression::List(1),
        )?;
        let second = joined(alloc, How::Union, Expression::List(2), Expression::List(9))?;
        let wanted = Selection::Where(joined(alloc, How::Xor, first, second)?);
        let found = wanted.ask(alloc, &[&a, &b, &c])?;
        let mut expected = Vec::new(alloc);
        for number in 0..RANGE {
            let only_first = a.contains(&number) && !b.contains(&number);
            if only_first != c.contains(&number) {
                expected.push(number)?;
            }
        }
        assert_eq!(rt; found, expected, "{seed}");
    }
    Ok(())
}

#[test]
fn numbers_of_64_lists_and_of_none(rt: HostRuntime) -> Result<(), Fail> {
    let a = some(rt.alloc(), 7)?;
    let once = Selection::AtLeast(1).ask(rt.alloc(), &[&a])?;
    let many = times(rt.alloc(), &a, 64)?;
    let all = Selection::AtLeast(64).ask(rt.alloc(), &many)?;
    assert_eq!(rt; all, once);
    let last = Selection::Where(Expression::List(63)).ask(rt.alloc(), &many)?;
    assert_eq!(rt; last, once);
    let more = Selection::AtLeast(65).ask(rt.alloc(), &many)?;
    assert!(rt; more.is_empty());
    let none = Selection::AtLeast(0).ask(rt.alloc(), &[])?;
    assert!(rt; none.is_empty());
    Ok(())
}

#[test]
fn the_same_is_written_by_any_number_of_workers(rt: HostRuntime) -> Result<(), Fail> {
    for workers in [1usize, 3, 4] {
        let team = Team {
            rt: &rt,
            alloc: rt.alloc(),
            workers: Workers { count: workers },
        };
        let lists = vec![in rt.alloc();
            list(rt.alloc(), 2)?,
            list(rt.alloc(), 3)?,
            list(rt.alloc(), 5)?,
        ]?;
        let mut writer = Counted::new(Vec::new(rt.alloc()));
        let mut told = NONE_TOLD;
        let two = Selection::AtLeast(2);
        let count = write_answer(&team, &two, Form::Lines, lists, &mut writer, &mut told);
        // Of 2 and 3 the multiples below 200,000 of 6, of 2 and 5 those of 10, of 3 and 5 those
        // below 300,000 of 15; those of 30 below 200,000 are counted thrice.
        assert_eq!(rt; count, Ok(33_334 + 20_000 + 20_000 - 2 * 6_667));
        let text = writer.into_inner();
        assert!(rt; text.starts_with(b"0\n6\n10\n12\n15\n"));
    }
    Ok(())
}
