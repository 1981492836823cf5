use rh_edit::SeqSet;
use rh_ledger::{Kind, Tally};
use rh_runner::*;
use std::process::Abort;
use std::sync::Wait;
use std::test::*;
use std::thread::Threads;

const NOTHING: Tally = Tally {
    read: 0,
    added: 0,
    removed: 0,
    found: 0,
};

// The kind of a phase on the keys 1, 9 and 17 at 3 bits, its keys, its tally, and the cells after
// it.
const PHASES: &[(Kind, &[u64], Tally, [u64; 8])] = &[
    (
        Kind::Insert,
        &[9, 3, 3],
        Tally {
            read: 3,
            added: 1,
            ..NOTHING
        },
        [0, 0, 0, 0, 2, 10, 18, 4],
    ),
    (
        Kind::Remove,
        &[9, 2, 9],
        Tally {
            read: 3,
            removed: 1,
            ..NOTHING
        },
        [0, 0, 0, 0, 2, 18, 0, 0],
    ),
    (Kind::Insert, &[], NOTHING, [0, 0, 0, 0, 2, 10, 18, 0]),
];

// What a phase told, and the cells after it.
fn phase(
    rt: &(impl Threads + Wait + Sync + Abort + AllocGlobal),
    kind: Kind,
    keys: &[u64],
) -> Result<(Tally, Vec<u64>), Fail> {
    assert!(rt; keys.iter().all(|key| *key < 100) && keys.len() < 4 && kind != Kind::Ask);
    let set = SeqSet::from_keys(rt.alloc(), 3, &[1, 9, 17])?;
    assert!(rt; set.bits() == 3 && set.len() < 4);
    let mut cells = set.into_cells();
    let told = Single.change(rt, rt.alloc(), kind, 3, &mut cells, keys)?;
    Ok((told, cells))
}

#[test]
fn phases_of_one_worker(rt: HostRuntime) -> Result<(), Fail> {
    for &(kind, keys, tally, after) in PHASES {
        let (told, cells) = phase(&rt, kind, keys)?;
        assert_eq!(rt; told, tally);
        assert_eq!(rt; cells.as_slice(), after.as_slice());
    }
    Ok(())
}

#[test]
fn look_ups_of_one_worker(rt: HostRuntime) -> Result<(), Fail> {
    let set = SeqSet::from_keys(rt.alloc(), 3, &[1, 9, 17])?;
    let (bits, cells) = (set.bits(), set.cells());
    let found = Single.ask(&rt, rt.alloc(), bits, cells, &[1, 2, 9])?;
    assert_eq!(rt; found.as_slice(), [true, false, true].as_slice());
    assert!(rt; Single.ask(&rt, rt.alloc(), bits, cells, &[])?.is_empty());
    Ok(())
}
