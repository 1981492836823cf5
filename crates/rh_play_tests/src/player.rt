use rh_interleaving::*;
use rh_ledger::{Kind, Tally};
use rh_tagword::Word;
use rh_turns::Turn;
use rh_words::{Rooms, StepKind};
use std::test::*;

const NO_KEYS: [u64; 8] = [0; 8];

/// The layout of 5, 8, 16 and 21. A cell holds its key plus 1.
const FOUR_KEYS: [u64; 8] = [17, 22, 6, 0, 0, 0, 0, 9];

/// That of 1 and 9.
const TWO_KEYS: [u64; 8] = [0, 0, 0, 0, 2, 10, 0, 0];

const A_KEY_TOO_LARGE: u64 = (1 << 62) - 1;

const DID_READ: Turn = Turn::Did(StepKind::Read);

fn pieces(rt: &HostRuntime, keys: &[&[u64]]) -> Result<Vec<Vec<u64>>, Fail> {
    let mut pieces = Vec::new(rt.alloc());
    for piece in keys {
        pieces.push(piece.to_vec(rt.alloc())?)?;
    }
    Ok(pieces)
}

fn player(rt: &HostRuntime, cells: &[u64], kind: Kind, keys: &[&[u64]]) -> Result<Player, Fail> {
    let pieces = pieces(rt, keys)?;
    Ok(Player::new(rt.alloc(), 3, cells, kind, &pieces)?)
}

/// What the cells stand for, in a table of 3 bits.
fn shown(player: &Player) -> [u64; 8] {
    let mut cells = [0; 8];
    if player.bits() == 3 {
        player.logical(&mut cells);
    }
    cells
}

/// The word of a cell, in a table of 3 bits.
fn raw(player: &Player, cell: usize) -> Word {
    if player.bits() == 3 && cell < 8 {
        player.raw(cell)
    } else {
        Word::Empty
    }
}

/// So many turns of a worker, or fewer where one makes no step; how many made a step.
fn turns(player: &mut Player, worker: usize, most: u64) -> u64 {
    for made in 0..most {
        match player.turn(worker) {
            Turn::Did(_) => {}
            _ => return made,
        }
    }
    most
}

fn why_not(rt: &HostRuntime, cells: &[u64], keys: &[&[u64]]) -> Result<Option<PlayFault>, Fail> {
    let pieces = pieces(rt, keys)?;
    Ok(
        match Player::new(rt.alloc(), 3, cells, Kind::Insert, &pieces) {
            Ok(_) => None,
            Err(fault) => Some(fault),
        },
    )
}

// Cells, the keys of each worker, and why no play starts with them.
const STARTS: &[(&[u64], &[&[u64]], Option<PlayFault>)] = &[
    (
        &[22, 17, 6, 0, 0, 0, 0, 9],
        &[],
        Some(PlayFault::NotALayout),
    ),
    (&[0; 7], &[&[1]], Some(PlayFault::NotALayout)),
    (
        &NO_KEYS,
        &[&[1, 2, 3, 4, 5, 6, 7, 8]],
        Some(PlayFault::NoRoom),
    ),
    (&NO_KEYS, &[&[1, 2, 3, 4, 5, 6, 7]], None),
    (
        &FOUR_KEYS,
        &[&[A_KEY_TOO_LARGE], &[1, 2, 3]],
        Some(PlayFault::NoRoom),
    ),
    (&NO_KEYS, &[], Some(PlayFault::BadWorkers)),
    (&NO_KEYS, &[&[A_KEY_TOO_LARGE]], Some(PlayFault::BadKey)),
    (&NO_KEYS, &[&[0, A_KEY_TOO_LARGE - 1], &[]], None),
];

#[test]
fn a_start_is_refused_by_its_first_fault(rt: HostRuntime) -> Result<(), Fail> {
    for &(cells, keys, fault) in STARTS {
        assert_eq!(rt; why_not(&rt, cells, keys)?, fault);
    }
    Ok(())
}

#[test]
fn a_shared_start_is_refused_by_its_first_fault(rt: HostRuntime) -> Result<(), Fail> {
    for (workers, fault) in [
        (0, PlayFault::BadWorkers),
        (17, PlayFault::BadWorkers),
        (16, PlayFault::BadKey),
    ] {
        let list = &[A_KEY_TOO_LARGE];
        let shared = Player::share(rt.alloc(), 3, &NO_KEYS, Kind::Ask, workers, list);
        assert_eq!(rt; shared.err(), Some(fault), "{workers}");
    }
    Ok(())
}

const FAULT_TEXTS: &[(PlayFault, &str)] = &[
    (PlayFault::NotALayout, "cells are not a layout"),
    (PlayFault::NoRoom, "no room"),
    (PlayFault::BadWorkers, "bad number of workers"),
    (PlayFault::BadKey, "key out of range"),
    (PlayFault::Memory, "out of memory"),
];

#[test]
fn faults_have_their_texts(rt: HostRuntime) -> Result<(), Fail> {
    for &(fault, text) in FAULT_TEXTS {
        let told = format!(in rt.alloc(); "{fault}")?;
        assert_eq!(rt; told.as_str(), text);
    }
    Ok(())
}

#[test]
fn one_worker_adds_a_key_in_seventeen_turns(rt: HostRuntime) -> Result<(), Fail> {
    let mut player = player(&rt, &NO_KEYS, Kind::Insert, &[&[9, 9]])?;
    let first = player.turn(0);
    let next = turns(&mut player, 0, 15);
    let before = player.tally();
    let last = player.turn(0);
    let after = player.tally();
    let ends = [player.turn(0), player.turn(0), player.turn(1)];
    assert_eq!(rt;
        (first, next, last),
        (DID_READ, 15, Turn::Did(StepKind::Release))
    );
    assert_eq!(rt; (before.read, after.added), (0, 1));
    assert_eq!(rt; ends, [DID_READ, Turn::Finished, Turn::NoSuchWorker]);
    let tally = Tally {
        read: 2,
        added: 1,
        removed: 0,
        found: 0,
    };
    assert_eq!(rt; player.tally(), tally);
    assert!(rt; player.all_finished());
    assert_eq!(rt;
        (raw(&player, 4), raw(&player, 5)),
        (Word::Key(9), Word::Empty)
    );
    assert_eq!(rt; shown(&player), [0, 0, 0, 0, 10, 0, 0, 0]);
    Ok(())
}

#[test]
fn a_mark_and_a_descriptor_stand_for_the_old_value(rt: HostRuntime) -> Result<(), Fail> {
    let mut player = player(&rt, &NO_KEYS, Kind::Insert, &[&[9], &[1]])?;
    for _ in 0..100 {
        if raw(&player, 4) != Word::Empty {
            break;
        }
        player.turn(0);
    }
    let (worker, number) = (0, 0);
    let placed = (raw(&player, 4), shown(&player));
    let settled = turns(&mut player, 0, 2);
    let promoted = (raw(&player, 4), shown(&player));
    let helped = turns(&mut player, 1, 1000);
    assert_eq!(rt; placed, (Word::Mark { worker, number }, NO_KEYS));
    assert_eq!(rt; promoted, (Word::Desc { worker, number }, NO_KEYS));
    assert_eq!(rt; (settled, helped), (2, 47));
    assert_eq!(rt; shown(&player), TWO_KEYS);
    assert!(rt; !player.all_finished());
    Ok(())
}

#[test]
fn two_workers_add_their_keys_in_any_interleaving(rt: HostRuntime) -> Result<(), Fail> {
    for lead in 0..20u64 {
        for turn in 1..8u64 {
            let mut player = player(&rt, &NO_KEYS, Kind::Insert, &[&[9], &[1]])?;
            turns(&mut player, 0, lead);
            for _ in 0..200u64 {
                turns(&mut player, 1, turn);
                turns(&mut player, 0, 1);
            }
            assert!(rt; player.all_finished(), "{lead} {turn}");
            assert_eq!(rt; player.tally().added, 2);
            assert_eq!(rt; shown(&player), TWO_KEYS);
        }
    }
    Ok(())
}

#[test]
fn one_of_two_workers_adds_a_key(rt: HostRuntime) -> Result<(), Fail> {
    for lead in 0..20u64 {
        for turn in 1..8u64 {
            let mut player = player(&rt, &NO_KEYS, Kind::Insert, &[&[9], &[9]])?;
            turns(&mut player, 0, lead);
            for _ in 0..200u64 {
                turns(&mut player, 1, turn);
                turns(&mut player, 0, 1);
            }
            assert!(rt; player.all_finished(), "{lead} {turn}");
            assert_eq!(rt; player.tally().added, 1);
            assert_eq!(rt; player.tally().read, 2);
        }
    }
    Ok(())
}

#[test]
fn a_round_begins_where_no_step_is_left(rt: HostRuntime) -> Result<(), Fail> {
    let rooms = Rooms {
        descriptors: 2,
        marks: 2,
    };
    let pieces = pieces(&rt, &[&[1, 2]])?;
    let cells = [0, 0, 0, 0, 10, 0, 0, 0];
    let mut player = Player::with_rooms(rt.alloc(), 3, &cells, Kind::Insert, &pieces, rooms)?;
    assert!(rt; !player.next_round());
    turns(&mut player, 0, 1000);
    assert_eq!(rt; player.turn(0), Turn::Spent);
    assert!(rt; !player.all_finished());
    assert_eq!(rt; player.tally().added, 1);
    assert!(rt; player.next_round());
    turns(&mut player, 0, 1000);
    assert!(rt; player.all_finished());
    assert!(rt; player.next_round());
    assert_eq!(rt; shown(&player), [0, 3, 0, 0, 2, 10, 0, 0]);
    Ok(())
}

// The answers to the first two keys of each of two workers, and to the first of no worker.
fn answers(player: &Player) -> [Option<bool>; 5] {
    [(0, 0), (0, 1), (1, 0), (1, 1), (2, 0)].map(|(worker, place)| player.answer(worker, place))
}

#[test]
fn what_is_asked_for_is_answered_at_its_place(rt: HostRuntime) -> Result<(), Fail> {
    let mut player = player(&rt, &FOUR_KEYS, Kind::Ask, &[&[21, 9], &[8]])?;
    let (yes, no) = (Some(true), Some(false));
    assert_eq!(rt; answers(&player), [None; 5]);
    turns(&mut player, 0, 1000);
    assert_eq!(rt; answers(&player), [yes, no, None, None, None]);
    turns(&mut player, 1, 1000);
    assert_eq!(rt; answers(&player), [yes, no, yes, None, None]);
    assert_eq!(rt; (player.answer(0, 2), player.answer_at(0)), (None, None));
    assert_eq!(rt; player.tally().found, 2);
    Ok(())
}

fn shared_answers(player: &Player) -> [Option<bool>; 4] {
    [0, 1, 2, 3].map(|place| player.answer_at(place))
}

#[test]
fn a_shared_list_is_claimed_key_by_key(rt: HostRuntime) -> Result<(), Fail> {
    let mut player = Player::share(rt.alloc(), 3, &FOUR_KEYS, Kind::Ask, 2, &[21, 9, 8])?;
    let (yes, no) = (Some(true), Some(false));
    let claim = player.turn(1);
    turns(&mut player, 0, 1000);
    let end = player.turn(0);
    assert_eq!(rt; [claim, end], [Turn::Did(StepKind::Claim), Turn::Finished]);
    assert_eq!(rt; shared_answers(&player), [None, no, yes, None]);
    assert!(rt; !player.all_finished());
    turns(&mut player, 1, 1000);
    assert_eq!(rt; shared_answers(&player), [yes, no, yes, None]);
    assert!(rt; player.all_finished());
    assert_eq!(rt; player.answer(0, 0), None);
    Ok(())
}

#[test]
fn removals_leave_no_gap(rt: HostRuntime) -> Result<(), Fail> {
    for lead in 0..20u64 {
        let mut player = player(&rt, &FOUR_KEYS, Kind::Remove, &[&[8, 2], &[21]])?;
        turns(&mut player, 0, lead);
        turns(&mut player, 1, 1000);
        turns(&mut player, 0, 1000);
        assert!(rt; player.all_finished());
        assert_eq!(rt; player.tally().removed, 2);
        assert_eq!(rt; player.tally().read, 3);
        assert_eq!(rt; shown(&player), [6, 0, 0, 0, 0, 0, 0, 17]);
    }
    Ok(())
}
