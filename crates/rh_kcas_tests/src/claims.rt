use crate::tables::*;
use std::test::*;

#[test]
fn the_places_of_a_list_of_two(rt: HostRuntime) -> Result<(), Fail> {
    let (table, mut seat) = one_worker(&rt, rt.alloc(), rooms(2, 8), 2, &[0; 8])?;
    assert_eq!(rt; next_place(&table, &mut seat).expect(&rt, "the first"), 0);
    assert_eq!(rt; next_place(&table, &mut seat).expect(&rt, "the second"), 1);
    assert_eq!(rt; next_place(&table, &mut seat), None);
    Ok(())
}
