ghost use Rattle.std.specs.Prelude.{◌<◌, IfSome, length};
ghost use Rattle.rh_words.specs.Steps.{AreEntries};
ghost use Rattle.rh_shared.specs.Rests.{SeatRests};
ghost use Rattle.rh_kcas_tests.specs.ReadsBack.{ReadsBack};
ghost use Rattle.rh_shared.specs.Seats.{view_of};

use crate::tables::*;
use rh_kcas::{Outcome, Seat, Table, are_entries, change, kcas, own_changes_are_read, read};
use rh_layout::Entry;
use rh_tagword::plain_value;
use std::process::Abort;
use std::sync::Wait;
use std::test::*;

// Also a swap that failed had a descriptor.
#[test]
fn two_entries_the_same_again_and_a_third(rt: HostRuntime) -> Result<(), Fail> {
    let cells = [0, 0, 0, 0, 2, 0, 0, 0];
    let (table, mut seat) = one_worker(&rt, rt.alloc(), rooms(2, 8), 0, &cells)?;
    let both = [change(4, 2, 10), change(5, 0, 2)];
    assert_eq!(rt; swap(&rt, &table, &mut seat, &both), Outcome::Done);
    assert_eq!(rt; value(&rt, &table, &mut seat, 4), Some(10));
    assert_eq!(rt; value(&rt, &table, &mut seat, 5), Some(2));
    let again = swap(&rt, &table, &mut seat, &both);
    assert_eq!(rt; again, Outcome::Failed { entry: 0 });
    let five = [
        change(0, 0, 2),
        change(1, 0, 2),
        change(2, 0, 2),
        change(3, 0, 2),
        change(6, 0, 2),
    ];
    assert_eq!(rt; swap(&rt, &table, &mut seat, &five), Outcome::Spent);
    assert_eq!(rt; close_one(table, seat), [0, 0, 0, 0, 10, 2, 0, 0]);
    Ok(())
}

// Five of the eight marks are used by the first swap, so that the second one, of four entries, is
// given up on its way.
#[test]
fn a_swap_for_which_the_marks_do_not_last(rt: HostRuntime) -> Result<(), Fail> {
    let (table, mut seat) = one_worker(&rt, rt.alloc(), rooms(3, 8), 0, &[0; 8])?;
    let five = [
        change(0, 0, 2),
        change(1, 0, 4),
        change(2, 0, 6),
        change(3, 0, 8),
        change(7, 0, 10),
    ];
    assert_eq!(rt; swap(&rt, &table, &mut seat, &five), Outcome::Done);
    let four = [
        change(0, 2, 0),
        change(1, 4, 0),
        change(5, 0, 2),
        change(6, 0, 4),
    ];
    assert_eq!(rt; swap(&rt, &table, &mut seat, &four), Outcome::Spent);
    assert_eq!(rt; value(&rt, &table, &mut seat, 0), Some(2));
    let one = swap(&rt, &table, &mut seat, &[change(4, 0, 2)]);
    assert_eq!(rt; one, Outcome::Spent);
    assert_eq!(rt; close_one(table, seat), [2, 4, 6, 8, 0, 0, 0, 10]);
    Ok(())
}

#[test]
fn a_wipe_gives_descriptors_and_marks_back(rt: HostRuntime) -> Result<(), Fail> {
    let (table, mut seat) = one_worker(&rt, rt.alloc(), rooms(2, 8), 0, &[0; 8])?;
    let four = [
        change(0, 0, 2),
        change(1, 0, 4),
        change(2, 0, 6),
        change(3, 0, 8),
    ];
    assert_eq!(rt; swap(&rt, &table, &mut seat, &four), Outcome::Done);
    let back = [
        change(0, 2, 0),
        change(1, 4, 0),
        change(5, 0, 2),
        change(6, 0, 4),
    ];
    assert_eq!(rt; swap(&rt, &table, &mut seat, &back), Outcome::Done);
    let five = [
        change(2, 6, 0),
        change(3, 8, 0),
        change(4, 0, 2),
        change(5, 2, 4),
        change(7, 0, 6),
    ];
    assert_eq!(rt; swap(&rt, &table, &mut seat, &five), Outcome::Spent);
    wipe_one(&table, &mut seat);
    assert_eq!(rt; value(&rt, &table, &mut seat, 2), Some(6));
    assert_eq!(rt; swap(&rt, &table, &mut seat, &five), Outcome::Done);
    assert_eq!(rt; close_one(table, seat), [0, 0, 0, 0, 2, 4, 4, 6]);
    Ok(())
}

/// The cell of the entry at which a swap failed, if it did.
fn failed_cell<R: Wait + Abort>(
    rt: &R,
    table: &Table,
    seat: &mut Seat,
    entries: &[Entry],
) -> Option<usize>
    requires rests { SeatRests table.now seat.old }
    ensures rests { SeatRests table.now seat.new }
{
    assert!(rt; are_entries(&table.shape, entries));
    match kcas(rt, table, seat, entries) {
        Outcome::Failed { entry } => Some(entries[entry].cell),
        Outcome::Done | Outcome::Spent => None,
    }
}

#[test]
fn a_swap_that_failed_names_one_of_its_entries(rt: HostRuntime) -> Result<(), Fail> {
    let cells = [0, 0, 0, 0, 2, 0, 0, 0];
    let (table, mut seat) = one_worker(&rt, rt.alloc(), rooms(2, 8), 0, &cells)?;
    let both = [change(4, 2, 10), change(5, 4, 2)];
    assert_eq!(rt; failed_cell(&rt, &table, &mut seat, &both), Some(5));
    assert_eq!(rt; failed_cell(&rt, &table, &mut seat, &both[..1]), None);
    assert_eq!(rt; close_one(table, seat), [0, 0, 0, 0, 10, 0, 0, 0]);
    Ok(())
}

/// Swaps, and reads the cell of an entry, if the swap is done: a worker reads its own change back.
fn swapped_and_read<R: Wait>(
    rt: &R,
    table: &Table,
    seat: &mut Seat,
    entries: &[Entry],
    entry: usize,
) -> Option<u64>
    requires rests { SeatRests table.now seat.old }
    requires entries { AreEntries table.now.shape entries.now }
    requires entry { entry < length entries.now }
    ensures rests { SeatRests table.now seat.new }
    ensures reads_back { IfSome result
        (ReadsBack table.now.shape entries.now entry (view_of seat.old) (view_of seat.new)) }
{
    own_changes_are_read();
    match kcas(rt, table, seat, entries) {
        Outcome::Done => read(rt, table, seat, entries[entry].cell),
        Outcome::Failed { .. } | Outcome::Spent => None,
    }
}

#[test]
fn an_own_change_is_read_back(rt: HostRuntime) -> Result<(), Fail> {
    let (table, mut seat) = one_worker(&rt, rt.alloc(), rooms(2, 8), 0, &[0; 8])?;
    let both = [change(4, 0, 10), change(5, 0, 3)];
    assert!(rt; are_entries(&table.shape, &both));
    let word = swapped_and_read(&rt, &table, &mut seat, &both, 1);
    let word = word.expect(&rt, "the swap is done");
    assert_eq!(rt; plain_value(word), Some(3));
    assert_eq!(rt; swapped_and_read(&rt, &table, &mut seat, &both, 0), None);
    Ok(())
}
