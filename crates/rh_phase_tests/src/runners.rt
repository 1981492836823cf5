//! Several workers as the runner of a script's phases, beside one.

use rh_edit::SeqSet;
use rh_layout::is_layout;
use rh_ledger::Kind;
use rh_phase::Threads;
use rh_runner::{Runner, Single};
use std::test::Fail;

// What a table of 3 bits holds, and the keys of a phase on it.
const HELD: [u64; 3] = [1, 9, 17];

const KEYS: [u64; 4] = [9, 3, 0, 9];

#[test]
fn several_workers_change_as_one_does(rt: HostRuntime) -> Result<(), Fail> {
    for kind in [Kind::Insert, Kind::Remove] {
        for workers in [1, 2, 5, 16] {
            assert!(rt; 0 < workers && workers <= 16 && kind != Kind::Ask);
            let set = SeqSet::from_keys(rt.alloc(), 3, &HELD)?;
            assert!(rt; set.len() < 4);
            let mut cells = set.into_cells();
            assert!(rt; is_layout(3, &cells));
            let mut others = cells.clone()?;
            let mut threads = Threads::new(workers);
            let told = threads.change(&rt, rt.alloc(), kind, 3, &mut cells, &KEYS)?;
            let alone = Single.change(&rt, rt.alloc(), kind, 3, &mut others, &KEYS)?;
            assert_eq!(rt; told, alone);
            assert_eq!(rt; cells.as_slice(), others.as_slice());
        }
    }
    Ok(())
}

#[test]
fn several_workers_look_up_as_one_does(rt: HostRuntime) -> Result<(), Fail> {
    for workers in [1, 2, 5, 16] {
        assert!(rt; 0 < workers && workers <= 16);
        let set = SeqSet::from_keys(rt.alloc(), 3, &HELD)?;
        assert!(rt; set.bits() == 3);
        let mut threads = Threads::new(workers);
        let found = threads.ask(&rt, rt.alloc(), 3, set.cells(), &KEYS)?;
        let alone = Single.ask(&rt, rt.alloc(), 3, set.cells(), &KEYS)?;
        assert_eq!(rt; found.as_slice(), alone.as_slice());
        assert_eq!(rt; alone.as_slice(), [true, false, false, true].as_slice());
    }
    Ok(())
}
