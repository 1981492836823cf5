use rh_ledger::*;

const NONE: Tally = Tally {
    read: 0,
    added: 0,
    removed: 0,
    found: 0,
};

#[test]
fn tallies_are_joined(rt: HostRuntime) {
    let one = Tally {
        read: 1,
        added: 2,
        removed: 3,
        found: 4,
    };
    let full = Tally {
        read: u64::MAX,
        added: 5,
        removed: 6,
        found: 7,
    };
    let sums = Tally {
        read: u64::MAX,
        added: 7,
        removed: 9,
        found: 11,
    };
    assert_eq!(rt; joined(full, one), None);
    assert_eq!(rt;
        joined(
            full,
            Tally {
                read: 0,
                added: 2,
                removed: 3,
                found: 4
            }
        ),
        Some(sums)
    );
    assert_eq!(rt; joined(NONE, one), Some(one));
}
