use crate::tables::*;
use rh_kcas::{Outcome, change};
use std::test::*;

// A word is four times the value. One worker looks at what the other one swaps.
#[test]
fn a_cell_before_and_after_a_swap(rt: HostRuntime) -> Result<(), Fail> {
    let (table, mut first, mut second) = two_workers(
        &rt,
        rt.alloc(),
        rooms(2, 8),
        &[0, 0, 0, 0, 2, 0, 0, 0],
    )?;
    assert_eq!(rt; peek(&rt, &table, &mut second, 4), 8);
    let done = swap(&rt, &table, &mut first, &[change(4, 2, 10)]);
    assert_eq!(rt; done, Outcome::Done);
    assert_eq!(rt; peek(&rt, &table, &mut second, 4), 40);
    Ok(())
}
