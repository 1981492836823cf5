use rh_edit::SeqSet;
use rh_key_files::{HeldKeys, KeySource};
use rh_ledger::{Kind, Tally};
use rh_runner::*;
use std::alloc::Global;
use std::process::Abort;
use std::sync::Wait;
use std::test::*;
use std::thread::Threads;

mod batches;

// The bits of a table that takes a long list.
const BITS: u32 = 18;

const NOTHING: Tally = Tally {
    read: 0,
    added: 0,
    removed: 0,
    found: 0,
};

// The keys from 1 to 200,000: more than one phase has.
fn many_keys(alloc: Global) -> Result<Vec<u64>, Fail> {
    let mut keys = vec![in alloc; 0; 200_000]?;
    for (i, key) in keys.iter_mut().enumerate() {
        *key = i as u64 + 1;
    }
    Ok(keys)
}

fn list_of<'a>(rt: &impl Abort, keys: &'a [u64]) -> HeldKeys<'a> {
    assert!(rt; keys.iter().all(|key| *key <= 200_000));
    HeldKeys::new(keys)
}

fn table_of(rt: &(impl Abort + AllocGlobal), keys: &[u64]) -> Result<SeqSet, Fail> {
    assert!(rt; keys.len() <= 200_000 && keys.iter().all(|key| *key <= 200_000));
    Ok(SeqSet::from_keys(rt.alloc(), BITS, keys)?)
}

// A small table of 1, 9 and 17.
fn three_keys(alloc: Global) -> Result<SeqSet, Fail> {
    Ok(SeqSet::from_keys(alloc, 3, &[1, 9, 17])?)
}

// What a change of the table of these keys told, and the cells after it.
type Changed = (Result<Tally, ListFault>, Vec<u64>);

fn change(
    rt: &(impl Threads + Wait + Sync + Abort + AllocGlobal),
    runner: &mut impl Runner,
    kind: Kind,
    held: &[u64],
    list: &mut impl KeySource,
) -> Result<Changed, Fail> {
    let set = table_of(rt, held)?;
    assert!(rt; set.bits() == BITS && set.len() < 10 && list.keys_left() <= 200_000);
    assert!(rt; kind != Kind::Ask);
    let cells = set.into_cells();
    let mut scratch = Scratch { bits: BITS, cells };
    let alloc = rt.alloc();
    let told = change_all(&Host { rt, alloc }, runner, kind, &mut scratch, list);
    Ok((told, scratch.cells))
}

// Which keys of a list are in the table of 1, 9 and 17.
fn look_up(
    rt: &(impl Threads + Wait + Sync + Abort + AllocGlobal),
    runner: &mut impl Runner,
    list: &mut impl KeySource,
) -> Result<Result<Vec<bool>, ListFault>, Fail> {
    let set = three_keys(rt.alloc())?;
    let (alloc, bits, cells) = (rt.alloc(), set.bits(), set.cells());
    Ok(ask_all(&Host { rt, alloc }, runner, bits, cells, list))
}

// The cells are those of the table of these keys.
fn assert_holds(rt: &(impl Abort + AllocGlobal), cells: &[u64], keys: &[u64]) -> Result<(), Fail> {
    assert!(rt; cells == table_of(rt, keys)?.cells());
    Ok(())
}

#[test]
fn a_long_list_changes_a_table(rt: HostRuntime) -> Result<(), Fail> {
    let keys = many_keys(rt.alloc())?;
    let mut list = list_of(&rt, &keys);
    let (told, cells) = change(&rt, &mut Single, Kind::Insert, &[], &mut list)?;
    let tally = Tally {
        read: 200_000,
        added: 200_000,
        ..NOTHING
    };
    assert_eq!(rt; told, Ok(tally));
    assert_holds(&rt, &cells, &keys)
}

#[test]
fn a_long_list_is_looked_up(rt: HostRuntime) -> Result<(), Fail> {
    let keys = many_keys(rt.alloc())?;
    let found = look_up(&rt, &mut Single, &mut list_of(&rt, &keys))??;
    assert_eq!(rt; found.len(), 200_000);
    assert!(rt;
        found
            .iter()
            .zip(1..)
            .all(|(there, key)| *there == [1, 9, 17].contains(&key))
    );
    Ok(())
}

#[test]
fn a_long_list_is_read_through(rt: HostRuntime) -> Result<(), Fail> {
    let keys = many_keys(rt.alloc())?;
    assert_eq!(rt; read_through(&mut list_of(&rt, &keys)), Ok(()));
    Ok(())
}

#[test]
fn a_list_is_taken_whole(rt: HostRuntime) -> Result<(), Fail> {
    let many = many_keys(rt.alloc())?;
    for keys in [many.as_slice(), &[9, 3, 3, 17], &[]] {
        let mut list = list_of(&rt, keys);
        let mut taken = vec![in rt.alloc(); 0; list.keys_left() as usize]?;
        assert_eq!(rt; take_all(&mut list, &mut taken), Ok(()));
        assert!(rt; taken.as_slice() == keys);
    }
    Ok(())
}

// Which keys of 9, 3, 3 and 17 are chosen by what was found of each, at the front of the list.
const CHOSEN: &[(Chosen, [bool; 4], &[u64])] = &[
    (Chosen::Present, [true, false, false, true], &[9, 17]),
    (Chosen::Absent, [true, false, false, true], &[3, 3]),
    (Chosen::Present, [false; 4], &[]),
    (Chosen::Absent, [false; 4], &[9, 3, 3, 17]),
];

#[test]
fn keys_of_a_list_are_chosen(rt: HostRuntime) {
    for (which, found, chosen) in CHOSEN {
        let mut keys = [9, 3, 3, 17];
        let many = choose(*which, found, &mut keys);
        assert_eq!(rt; &keys[..many], *chosen);
    }
}

// It is refused memory for each change, and the start of a thread for each look-up.
#[derive(Drop)]
struct Refusing {
    refused: u64,
}

impl Runner for Refusing {
    ghost refused_starts = { λ r. r.refused };

    ghost workers = { λ _. 2 };

    fn change<R: Threads + Wait + Sync>(
        &mut self,
        _rt: &R,
        _alloc: Global,
        _kind: Kind,
        _bits: u32,
        _cells: &mut Vec<u64>,
        _keys: &[u64],
    ) -> Result<Tally, PhaseFault> {
        Err(PhaseFault::Memory)
    }

    fn ask<R: Threads + Wait + Sync>(
        &mut self,
        _rt: &R,
        _alloc: Global,
        _bits: u32,
        _cells: &[u64],
        _keys: &[u64],
    ) -> Result<Vec<bool>, PhaseFault> {
        self.refused = self.refused.saturating_add(1);
        Err(PhaseFault::NoThread)
    }
}

#[test]
fn faults_of_the_runner_are_told(rt: HostRuntime) -> Result<(), Fail> {
    let mut refusing = Refusing { refused: 0 };
    let list = list_of(&rt, &[9, 3]);
    let no_thread = ListFault::Phase(PhaseFault::NoThread);
    let asked = look_up(&rt, &mut refusing, &mut { list })?;
    assert_eq!(rt; asked.err(), Some(no_thread));
    let (told, _) = change(&rt, &mut refusing, Kind::Remove, &[9], &mut { list })?;
    assert_eq!(rt; told.err(), Some(ListFault::Phase(PhaseFault::Memory)));
    Ok(())
}

#[test]
fn batches_and_phases_are_so_long(rt: HostRuntime) {
    assert_eq!(rt; BATCH, 4_096);
    assert_eq!(rt; PHASE, 196_608);
    assert_eq!(rt; LOOK_UPS, 1_000_000);
}

#[test]
fn faults_of_a_phase_can_be_printed(rt: HostRuntime) -> Result<(), Fail> {
    for (fault, text) in [
        (PhaseFault::Memory, "out of memory"),
        (PhaseFault::NoThread, "cannot start a worker"),
    ] {
        assert_eq!(rt; format!(in rt.alloc(); "{fault}")?.as_str(), text);
    }
    Ok(())
}
