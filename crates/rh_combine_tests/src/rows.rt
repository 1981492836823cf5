use rh_combine::*;
use std::test::Fail;

// What comes of [1, 9], [9, 9, 4] and [4, 17].
const ROWS: [(How, &[u64]); 4] = [
    (How::Intersect, &[]),
    (How::Union, &[1, 4, 9, 17]),
    (How::Subtract, &[1]),
    (How::Xor, &[1, 17]),
];

#[test]
fn three_lists(rt: HostRuntime) -> Result<(), Fail> {
    for (how, wanted) in ROWS {
        let found = combine(rt.alloc(), how, &[&[1, 9], &[9, 9, 4], &[4, 17]])?;
        assert_eq!(rt; found.as_slice(), wanted, "{how:?}");
    }
    Ok(())
}

#[test]
fn one_list_and_none(rt: HostRuntime) -> Result<(), Fail> {
    for (how, _) in ROWS {
        assert_eq!(rt;
            combine(rt.alloc(), how, &[&[9, 1, 9]])?.as_slice(),
            [1, 9].as_slice()
        );
        assert_eq!(rt; combine(rt.alloc(), how, &[])?.as_slice(), [].as_slice());
    }
    Ok(())
}
