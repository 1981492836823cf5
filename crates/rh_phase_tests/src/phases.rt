use rh_edit::SeqSet;
use rh_layout::is_layout;
use rh_ledger::{Kind, Tally};
use rh_phase::{OpenGate, ask, change};
use std::test::Fail;

const NOTHING: Tally = Tally {
    read: 0,
    added: 0,
    removed: 0,
    found: 0,
};

const WORKERS: [usize; 5] = [1, 2, 5, 8, 16];

// The kind of a phase on the keys 1, 9 and 17 at 3 bits, its keys, its tally, and the cells after
// it.
const PHASES: &[(Kind, &[u64], Tally, [u64; 8])] = &[
    (
        Kind::Insert,
        &[9, 3, 3],
        Tally {
            read: 3,
            added: 1,
            ..NOTHING
        },
        [0, 0, 0, 0, 2, 10, 18, 4],
    ),
    (
        Kind::Insert,
        &[6, 14, 3],
        Tally {
            read: 3,
            added: 3,
            ..NOTHING
        },
        [15, 4, 0, 0, 2, 10, 18, 7],
    ),
    (
        Kind::Remove,
        &[9, 2, 9],
        Tally {
            read: 3,
            removed: 1,
            ..NOTHING
        },
        [0, 0, 0, 0, 2, 18, 0, 0],
    ),
    (Kind::Insert, &[], NOTHING, [0, 0, 0, 0, 2, 10, 18, 0]),
];

#[test]
fn phases_of_several_workers(rt: HostRuntime) -> Result<(), Fail> {
    for workers in WORKERS {
        for &(kind, keys, tally, after) in PHASES {
            assert!(rt; 0 < workers && workers <= 16);
            assert!(rt; keys.iter().all(|key| *key < 100) && keys.len() < 4 && kind != Kind::Ask);
            let set = SeqSet::from_keys(rt.alloc(), 3, &[1, 9, 17])?;
            assert!(rt; set.len() < 4);
            let mut cells = set.into_cells();
            assert!(rt; is_layout(3, &cells));
            let told = change(
                &rt,
                rt.alloc(),
                workers,
                kind,
                3,
                &mut cells,
                keys,
                &OpenGate,
            )?;
            assert_eq!(rt; told, tally);
            assert_eq!(rt; cells.as_slice(), after.as_slice());
        }
    }
    Ok(())
}

#[test]
fn two_workers_add_one_key(rt: HostRuntime) -> Result<(), Fail> {
    for _again in 0..100 {
        let set = SeqSet::new(rt.alloc(), 3)?;
        assert!(rt; set.len() == 0);
        let mut cells = set.into_cells();
        assert!(rt; is_layout(3, &cells));
        let told = change(
            &rt,
            rt.alloc(),
            2,
            Kind::Insert,
            3,
            &mut cells,
            &[9, 9],
            &OpenGate,
        )?;
        assert_eq!(rt;
            told,
            Tally {
                read: 2,
                added: 1,
                ..NOTHING
            }
        );
        assert_eq!(rt; cells.as_slice(), [0, 0, 0, 0, 10, 0, 0, 0].as_slice());
    }
    Ok(())
}

#[test]
fn look_ups_of_several_workers(rt: HostRuntime) -> Result<(), Fail> {
    for workers in WORKERS {
        assert!(rt; 0 < workers && workers <= 16);
        let set = SeqSet::from_keys(rt.alloc(), 3, &[1, 9, 17])?;
        assert!(rt; set.bits() == 3);
        let found = ask(
            &rt,
            rt.alloc(),
            workers,
            3,
            set.cells(),
            &[1, 2, 9],
            &OpenGate,
        )?;
        assert_eq!(rt; found.as_slice(), [true, false, true].as_slice());
        assert!(rt; ask(&rt, rt.alloc(), workers, 3, set.cells(), &[], &OpenGate)?.is_empty());
    }
    Ok(())
}
