use crate::tables::*;
use rh_kcas::{Outcome, change};
use std::test::*;

#[test]
fn two_workers_on_one_thread(rt: HostRuntime) -> Result<(), Fail> {
    let (table, mut first, mut second) = two_workers(&rt, rt.alloc(), rooms(2, 8), &[0; 8])?;
    let done = swap(&rt, &table, &mut first, &[change(1, 0, 4)]);
    assert_eq!(rt; done, Outcome::Done);
    let both = [change(3, 0, 6), change(6, 0, 8)];
    assert_eq!(rt; swap(&rt, &table, &mut second, &both), Outcome::Done);
    // the cell of the first worker's swap
    let same = [change(0, 0, 12), change(1, 0, 10)];
    let late = swap(&rt, &table, &mut second, &same);
    assert_eq!(rt; late, Outcome::Failed { entry: 1 });
    let left = close_two(table, first, second);
    assert_eq!(rt; left, [0, 4, 0, 6, 0, 0, 8, 0]);
    Ok(())
}
