use rh_edit::SeqSet;
use rh_grow::*;
use std::test::Fail;

#[test]
fn capacities(rt: HostRuntime) {
    assert_eq!(rt; bits_for(3, 0, 6), Some(3));
    assert_eq!(rt; bits_for(3, 0, 7), Some(4));
    assert_eq!(rt; bits_for(3, 6, 1), Some(4));
    assert_eq!(rt; bits_for(4, 0, 0), Some(4));
    assert_eq!(rt; bits_for(16, 0, 49_153), Some(17));
    assert_eq!(rt; bits_for(3, 0, 196_608), Some(18));
    assert_eq!(rt; bits_for(18, 0, 196_609), None);
    assert_eq!(rt; bits_for(3, u64::MAX, u64::MAX), None);
}

// At 4 bits 9 and 17 have home 8, and 1 has home 9: 17 is 1 step from its home in cell 9, where 1
// would be none.
#[test]
fn a_table_grows(rt: HostRuntime) -> Result<(), Fail> {
    let set = SeqSet::from_keys(rt.alloc(), 3, &[17, 1, 9])?;
    assert!(rt; set.bits() == 3 && set.len() < 8);
    let grown = grow(rt.alloc(), 3, set.cells(), 4)?;
    let mut expected = [0; 16];
    expected[8] = 10;
    expected[9] = 18;
    expected[10] = 2;
    assert_eq!(rt; grown.as_slice(), expected.as_slice());
    Ok(())
}

#[test]
fn the_load_is_this(rt: HostRuntime) {
    assert_eq!(rt; LOAD_NUMERATOR, 3);
    assert_eq!(rt; LOAD_DENOMINATOR, 4);
}
