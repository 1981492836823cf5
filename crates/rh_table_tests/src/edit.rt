use rh_edit::*;
use std::test::Fail;

// Tables of 3 bits: the keys that are added, the one that is then removed, and the cells after it.
// A cell holds its key plus 1.
const REMOVALS: &[(&[u64], u64, [u64; 8])] = &[
    (&[8, 16, 5, 21], 8, [22, 6, 0, 0, 0, 0, 0, 17]),
    (&[1, 9, 17, 6, 14, 3], 9, [4, 0, 0, 0, 2, 18, 7, 15]),
    (&[1, 9, 17], 2, [0, 0, 0, 0, 2, 10, 18, 0]),
];

#[test]
fn a_removal_shifts_back(rt: HostRuntime) -> Result<(), Fail> {
    for &(keys, removed, cells) in REMOVALS {
        let mut set = SeqSet::new(rt.alloc(), 3)?;
        for key in keys {
            assert!(rt; set.bits() == 3 && set.len() < 7 && *key < 100);
            assert!(rt; set.insert(*key), "{key} is new");
        }
        assert!(rt; removed < 100);
        assert_eq!(rt; set.remove(removed), keys.contains(&removed));
        assert!(rt; !set.has(removed));
        assert_eq!(rt; set.cells(), cells.as_slice(), "without {removed}");
    }
    Ok(())
}

#[test]
fn a_key_again_changes_nothing(rt: HostRuntime) -> Result<(), Fail> {
    let mut set = SeqSet::new(rt.alloc(), 3)?;
    for is_new in [true, false] {
        assert!(rt; set.bits() == 3 && set.len() < 7);
        assert_eq!(rt; set.insert(0), is_new);
    }
    assert!(rt; set.has(0));
    assert_eq!(rt; set.len(), 1);
    assert_eq!(rt; set.cells(), [1, 0, 0, 0, 0, 0, 0, 0].as_slice());
    Ok(())
}

// Three keys of one home, 4 at 3 bits: 9 goes between 1 and 17, and comes out again.
#[test]
fn news_of_a_segment(rt: HostRuntime) {
    let mut news = [0; 3];
    insert_news(9, &[2, 18, 0], 1, &mut news);
    assert_eq!(rt; news, [2, 10, 18]);
    let mut back = [0; 4];
    remove_news(&[2, 10, 18, 0], 1, &mut back);
    assert_eq!(rt; back, [2, 18, 0, 0]);
    assert_eq!(rt; value_with(10, &[2, 18, 0], 1, 2), 18);
    assert_eq!(rt; value_without(&[2, 10, 18, 0], 1, 2), 0);
}

// The keys 1, 9 and 17, whose home is cell 4.
const THREE_CELLS: [u64; 8] = [0, 0, 0, 0, 2, 10, 18, 0];

#[test]
fn keys_in_rising_order(rt: HostRuntime) -> Result<(), Fail> {
    for (keys, sorted) in [
        ([9, 1, 17].as_slice(), [1, 9, 17].as_slice()),
        // The table has 22 in its first cell, 6 in the next, and 17 in the last.
        (&[16, 5, 21], &[5, 16, 21]),
        (&[], &[]),
    ] {
        assert!(rt; keys.len() < 8 && keys.iter().all(|key| *key < 100));
        let set = SeqSet::from_keys(rt.alloc(), 3, keys)?;
        assert_eq!(rt; set.sorted_keys(rt.alloc())?.as_slice(), sorted);
    }
    Ok(())
}

#[test]
fn cells_become_a_set_again(rt: HostRuntime) -> Result<(), Fail> {
    let other = SeqSet::from_keys(rt.alloc(), 3, &[9, 1, 17])?;
    let set = SeqSet::from_cells(3, other.into_cells());
    assert_eq!(rt; set.bits(), 3);
    assert_eq!(rt; set.len(), 3);
    assert_eq!(rt; set.cells(), THREE_CELLS.as_slice());
    Ok(())
}
