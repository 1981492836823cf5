use rh_acts::*;
use rh_layout::Entry;

const NOTHING: Entry = Entry {
    cell: 0,
    old: 0,
    new: 0,
};

// At 3 bits 1, 9, 17 and 22 have home 4, and 8, 16 and 21 home 7. A cell holds its key plus 1. Of
// each case: the key, what is seen from its home on, and of each entry the cell, the old and the
// new value.
const INSERTIONS: &[(u64, &[u64], &[(usize, u64, u64)])] = &[
    (9, &[2, 0, 0], &[(4, 2, 2), (5, 0, 10)]),
    (9, &[2, 18, 0], &[(4, 2, 2), (5, 18, 10), (6, 0, 18)]),
    (16, &[9, 22, 0], &[(0, 22, 17), (1, 0, 22), (7, 9, 9)]),
];

// 8, 16, 21 and 5, whose home is 0, stand in the cells 7, 0, 1 and 2.
const REMOVALS: &[(u64, &[u64], &[(usize, u64, u64)])] = &[
    (
        9,
        &[2, 10, 18, 0],
        &[(4, 2, 2), (5, 10, 18), (6, 18, 0), (7, 0, 0)],
    ),
    (
        8,
        &[9, 17, 22, 6, 0],
        &[(0, 17, 22), (1, 22, 6), (2, 6, 0), (3, 0, 0), (7, 9, 17)],
    ),
];

const ABSENCES: &[(u64, &[u64], &[(usize, u64, u64)])] = &[
    (
        22,
        &[2, 10, 18, 0],
        &[(4, 2, 2), (5, 10, 10), (6, 18, 18), (7, 0, 0)],
    ),
    (21, &[17, 0, 0], &[(0, 0, 0), (7, 17, 17)]),
];

fn are(entries: &[Entry], expected: &[(usize, u64, u64)]) -> bool {
    expected.len() <= entries.len()
        && (0..expected.len()).all(|i| {
            let (cell, old, new) = expected[i];
            entries[i] == Entry { cell, old, new }
        })
}

#[test]
fn entries_put_a_key_in(rt: HostRuntime) {
    for &(key, seen, expected) in INSERTIONS {
        let mut entries = [NOTHING; 8];
        assert!(rt; key < 100 && seen.len() < 8);
        let asked = insert_entries(3, key, seen, &mut entries);
        assert_eq!(rt; asked, Insertion::PutsIn(expected.len()));
        assert!(rt; are(&entries, expected), "of {key}");
    }
}

#[test]
fn entries_take_a_key_out(rt: HostRuntime) {
    for &(key, seen, expected) in REMOVALS {
        let mut entries = [NOTHING; 8];
        assert!(rt; key < 100 && seen.len() < 8);
        let asked = remove_entries(3, key, seen, &mut entries);
        assert_eq!(rt; asked, Removal::TakesOut(expected.len()));
        assert!(rt; are(&entries, expected), "of {key}");
    }
}

#[test]
fn entries_show_that_a_key_is_absent(rt: HostRuntime) {
    for &(key, seen, expected) in ABSENCES {
        let mut entries = [NOTHING; 8];
        assert!(rt; key < 100 && seen.len() < 8);
        let asked = remove_entries(3, key, seen, &mut entries);
        assert_eq!(rt; asked, Removal::ShowsAbsent(expected.len()));
        assert!(rt; are(&entries, expected), "of {key}");
    }
}

// 17 gives way to 9, but no empty cell is seen; and 17, away from its home behind 9, is no stop.
#[test]
fn no_act_is_asked_for(rt: HostRuntime) {
    let mut entries = [NOTHING; 2];
    assert_eq!(rt;
        insert_entries(3, 9, &[2, 10], &mut entries),
        Insertion::Held
    );
    assert_eq!(rt; insert_entries(3, 9, &[2], &mut entries), Insertion::More);
    assert_eq!(rt; insert_entries(3, 9, &[18], &mut entries), Insertion::More);
    assert_eq!(rt; remove_entries(3, 9, &[2], &mut entries), Removal::More);
    assert_eq!(rt;
        remove_entries(3, 9, &[10, 18], &mut entries),
        Removal::More
    );
}
