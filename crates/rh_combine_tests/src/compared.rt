//! How many numbers stand in each combination of lists.

use crate::written::{NONE_TOLD, list};
use rh_forks::{Team, Workers};
use rh_questions::*;
use std::test::Fail;

// Of the first 100,000 multiples of 2, of 3 and of 5 each: those of none, of 2 alone, of 3 alone,
// of 2 and 3, of 5 alone, of 2 and 5, of 3 and 5, and of all.
const COUNTS: &[u64] = &[0, 53_333, 53_333, 26_667, 66_667, 13_333, 13_333, 6_667];

const RANKED: &[u64] = &[4, 1, 2, 3, 5, 6, 7];

#[test]
fn combinations_are_counted_by_any_number_of_workers(rt: HostRuntime) -> Result<(), Fail> {
    for workers in [1usize, 3, 4] {
        let team = Team {
            rt: &rt,
            alloc: rt.alloc(),
            workers: Workers { count: workers },
        };
        let lists = vec![in rt.alloc();
            list(rt.alloc(), 2)?,
            list(rt.alloc(), 3)?,
            list(rt.alloc(), 5)?,
        ]?;
        let mut told = NONE_TOLD;
        let counts = compare_lists(&team, lists, &mut told)?;
        assert_eq!(rt; counts.as_slice(), COUNTS, "{workers}");
        let found = ranked(rt.alloc(), &counts)?;
        assert_eq!(rt; found.len(), RANKED.len(), "{workers}");
        for (combination, lists) in found.iter().zip(RANKED) {
            assert_eq!(rt; combination.lists, *lists, "{workers}");
        }
        assert_eq!(rt; found[0].count, 66_667, "{workers}");
    }
    Ok(())
}

#[test]
fn combinations_of_lists_in_memory(rt: HostRuntime) -> Result<(), Fail> {
    let alloc = rt.alloc();
    let counts = compare(alloc, &[&[1, 9, 1], &[9, 4, 9]])?;
    assert_eq!(rt; counts.as_slice(), [0, 1, 1, 1].as_slice());
    let none = compare(alloc, &[])?;
    assert_eq!(rt; none.as_slice(), [0].as_slice());
    let found = ranked(alloc, &none)?;
    assert!(rt; found.is_empty());
    Ok(())
}
