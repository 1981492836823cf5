//! Marks that a worker places and settles by single calls, for a descriptor whose own worker has
//! stopped.

ghost use Rattle.std.specs.Prelude.{IfOk, IsTrue};
ghost use Rattle.rh_shared.specs.Rests.{SeatRests};
ghost use Rattle.rh_kcas_tests.specs.Halfway.{IsIdle, IsHalfway};
ghost use Rattle.rh_kcas_tests.specs.Marks.{HasFound, HasPlaced, IsSettled, MayMark, MayTry};

use crate::halfway::{go_on, open_one};
use crate::tables::*;
use rh_helping::{CellContent, Ended, named_desc, what_stands};
use rh_kcas::{Seat, Table, are_entries, change, make, split};
use rh_layout::Entry;
use rh_rdcss::{Placed, count_entries, peek_cell, place, settle, status};
use rh_tagword::{State, plain_value};
use rh_words::Ref;
use std::alloc::{AllocError, Global};
use std::process::Abort;
use std::test::*;

/// A table of four workers, which holds these values: the first opens descriptors, the second
/// places marks, the third meets them, and the fourth looks on.
fn four_workers<R: Abort>(
    rt: &R,
    alloc: Global,
    cells: &[u64; 8],
) -> Result<(Table, Seat, Seat, Seat, Seat), AllocError>
    ensures first { IfOk result (λ r. SeatRests r.0 r.1) }
    ensures second { IfOk result (λ r. SeatRests r.0 r.2) }
    ensures third { IfOk result (λ r. SeatRests r.0 r.3) }
    ensures fourth { IfOk result (λ r. SeatRests r.0 r.4) }
{
    assert!(rt; are_values(cells));
    let (table, mut first) = make(alloc, shape(4, rooms(2, 8), 0), cells)?;
    let mut second = split(&table, &mut first, 1);
    let mut third = split(&table, &mut second, 2);
    let fourth = split(&table, &mut third, 3);
    Ok((table, first, second, third, fourth))
}

/// Opens a descriptor of the entries. Answers its number.
fn opened<R: Abort>(rt: &R, table: &Table, seat: &mut Seat, entries: &[Entry]) -> u64
    requires { IsIdle table.now seat.old }
    ensures { IsHalfway table.now seat.new entries.now result }
{
    assert!(rt; are_entries(&table.shape, entries));
    assert!(rt; seat.side.next_number < table.shape.rooms.descriptors);
    open_one(table, seat, entries)
}

/// Places a mark for the second entry of a descriptor that the worker has not met.
fn place_second<R: Abort>(rt: &R, table: &Table, seat: &mut Seat, desc: Ref)
    requires { IsSettled table.now seat.old }
    ensures { HasPlaced table.now seat.new desc 1 }
{
    assert!(rt; is_undecided(rt, table, seat, desc));
    assert!(rt; has_entry(table, seat, desc, 1));
    let Placed::Mine = place(table, seat, desc, 1) else {
        panic!(rt; "another word stands in the cell")
    };
}

fn is_undecided<R: Abort>(rt: &R, table: &Table, seat: &mut Seat, desc: Ref) -> bool
    requires { IsSettled table.now seat.old }
    ensures settled { IsSettled table.now seat.new }
    ensures may { IsTrue result → MayTry table.now seat.new desc }
{
    assert!(rt; desc.worker < table.shape.workers && desc.number < table.shape.rooms.descriptors);
    let Some(State::Undecided) = status(table, seat, desc) else {
        return false;
    };
    true
}

/// Whether the descriptor has this entry, by the length that is read.
fn has_entry(table: &Table, seat: &mut Seat, desc: Ref, entry: usize) -> bool
    requires { MayTry table.now seat.old desc }
    ensures { IsTrue result → MayMark table.now seat.new desc entry }
{
    match count_entries(table, seat, desc) {
        Some(size) => entry < size,
        None => false,
    }
}

/// Such a table, on which the first worker has opened a descriptor of the entries, and the second
/// has placed a mark for its second entry.
fn marked<R: Abort>(
    rt: &R,
    alloc: Global,
    cells: &[u64; 8],
    entries: &[Entry],
) -> Result<(Table, Seat, Seat, Seat, Seat, Ref), AllocError>
    ensures opened { IfOk result (λ r. IsHalfway r.0 r.1 entries.now r.5.number) }
    ensures placed { IfOk result (λ r. HasPlaced r.0 r.2 r.5 1) }
    ensures third { IfOk result (λ r. SeatRests r.0 r.3) }
    ensures fourth { IfOk result (λ r. SeatRests r.0 r.4) }
{
    let (table, mut first, mut second, third, fourth) = four_workers(rt, alloc, cells)?;
    let number = opened(rt, &table, &mut first, entries);
    let desc = Ref { worker: 0, number };
    place_second(rt, &table, &mut second, desc);
    Ok((table, first, second, third, fourth, desc))
}

/// How the first worker's descriptor of this number is.
fn status_of<R: Abort>(rt: &R, table: &Table, seat: &mut Seat, number: u64) -> Option<State>
    requires { IsSettled table.now seat.old }
    ensures { IsSettled table.now seat.new }
{
    assert!(rt; number < table.shape.rooms.descriptors);
    status(table, seat, Ref { worker: 0, number })
}

/// Settles the own mark.
fn settle_mine(table: &Table, seat: &mut Seat, desc: Ref, entry: usize) -> Option<u64>
    requires { HasPlaced table.now seat.old desc entry }
    ensures { IsSettled table.now seat.new }
{
    let own = seat.placed.unwrap();
    settle(table, seat, own.piece.cell, own.mark)
}

/// Looks at the cell and at the control before it settles the own mark.
fn settle_after_looks<R: Abort>(
    rt: &R,
    table: &Table,
    seat: &mut Seat,
    desc: Ref,
    entry: usize,
) -> Option<u64>
    requires { HasPlaced table.now seat.old desc entry }
{
    assert!(rt; desc.worker < table.shape.workers && desc.number < table.shape.rooms.descriptors);
    let own = seat.placed.unwrap();
    assert!(rt; own.piece.cell < table.shape.cells());
    peek_cell(table, seat, own.piece.cell);
    status(table, seat, desc);
    settle(table, seat, own.piece.cell, own.mark)
}

/// Meets the mark of another worker in a cell.
fn meet<R: Abort>(rt: &R, table: &Table, seat: &mut Seat, cell: usize) -> Ref
    requires { IsSettled table.now seat.old }
    ensures { HasFound table.now seat.new result cell }
{
    assert!(rt; cell < table.shape.cells());
    let CellContent::Mark(mark) = what_stands(peek_cell(table, seat, cell)) else {
        panic!(rt; "no mark stands in the cell")
    };
    assert!(rt; mark.worker != seat.side.worker);
    mark
}

/// Settles it.
fn settle_met(table: &Table, seat: &mut Seat, cell: usize, mark: Ref) -> Option<u64>
    requires { HasFound table.now seat.old mark cell }
{
    settle(table, seat, cell, mark)
}

const BOTH: [Entry; 2] = [
    Entry {
        cell: 4,
        old: 0,
        new: 36,
    },
    Entry {
        cell: 5,
        old: 0,
        new: 12,
    },
];

#[test]
fn an_own_mark_is_settled_to_its_descriptor(rt: HostRuntime) -> Result<(), Fail> {
    let (table, mut first, mut second, _third, mut fourth, desc) = marked(
        &rt,
        rt.alloc(),
        &[0; 8],
        &BOTH,
    )?;
    let mark = peek(&rt, &table, &mut fourth, 5);
    let settled = settle_after_looks(&rt, &table, &mut second, desc, 1);
    assert_eq!(rt; settled, Some(mark));
    assert_eq!(rt; named_desc(peek(&rt, &table, &mut fourth, 5)), Some(desc));
    assert_eq!(rt;
        go_on(&rt, &table, &mut first, &BOTH, desc.number),
        Ended::Succeeded
    );
    assert_eq!(rt; plain_value(peek(&rt, &table, &mut fourth, 4)), Some(9));
    assert_eq!(rt; plain_value(peek(&rt, &table, &mut fourth, 5)), Some(3));
    Ok(())
}

// Who reads a cell settles the mark in it and helps its descriptor: the two workers that stopped
// hold it up no longer than its own steps take.
#[test]
fn a_read_meets_a_mark_and_its_descriptor(rt: HostRuntime) -> Result<(), Fail> {
    let (table, mut first, mut second, mut third, _fourth, desc) = marked(
        &rt,
        rt.alloc(),
        &[0; 8],
        &BOTH,
    )?;
    assert_eq!(rt; value(&rt, &table, &mut third, 5), Some(3));
    assert_eq!(rt; value(&rt, &table, &mut third, 4), Some(9));
    assert_eq!(rt; settle_mine(&table, &mut second, desc, 1), Some(12));
    assert_eq!(rt;
        go_on(&rt, &table, &mut first, &BOTH, desc.number),
        Ended::Succeeded
    );
    assert_eq!(rt; value(&rt, &table, &mut third, 5), Some(3));
    Ok(())
}

// Its own worker then finds the descriptor where its mark stood.
#[test]
fn a_foreign_mark_is_settled_to_its_descriptor(rt: HostRuntime) -> Result<(), Fail> {
    let (table, mut first, mut second, mut third, mut fourth, desc) = marked(
        &rt,
        rt.alloc(),
        &[0; 8],
        &BOTH,
    )?;
    let word = peek(&rt, &table, &mut fourth, 5);
    let mark = meet(&rt, &table, &mut third, 5);
    assert_eq!(rt; settle_met(&table, &mut third, 5, mark), Some(word));
    let settled = peek(&rt, &table, &mut fourth, 5);
    assert_eq!(rt; named_desc(settled), Some(desc));
    assert_eq!(rt; settle_mine(&table, &mut second, desc, 1), Some(settled));
    assert_eq!(rt;
        go_on(&rt, &table, &mut first, &BOTH, desc.number),
        Ended::Succeeded
    );
    assert_eq!(rt; plain_value(peek(&rt, &table, &mut fourth, 5)), Some(3));
    Ok(())
}

// The descriptor fails at its first entry while the mark for its second one stands, and its worker
// opens the next one. Only who placed the mark knows still which value it hides.
#[test]
fn a_mark_whose_descriptor_is_stale_is_settled_by_its_own_worker(
    rt: HostRuntime,
) -> Result<(), Fail> {
    let entries = [change(4, 7, 9), change(5, 6, 3)];
    let (table, mut first, mut second, mut third, mut fourth, desc) = marked(
        &rt,
        rt.alloc(),
        &[0, 0, 0, 0, 1, 6, 0, 0],
        &entries,
    )?;
    let mark = meet(&rt, &table, &mut third, 5);
    assert_eq!(rt;
        go_on(&rt, &table, &mut first, &entries, desc.number),
        Ended::Failed { entry: 0 }
    );
    opened(&rt, &table, &mut first, &[change(6, 0, 1)]);
    let word = peek(&rt, &table, &mut fourth, 5);
    assert_eq!(rt; settle_met(&table, &mut third, 5, mark), None);
    assert_eq!(rt; peek(&rt, &table, &mut fourth, 5), word);
    assert_eq!(rt; settle_mine(&table, &mut second, desc, 1), Some(word));
    assert_eq!(rt; plain_value(peek(&rt, &table, &mut fourth, 5)), Some(6));
    Ok(())
}

// Its worker has settled it, and its row is of a later one.
#[test]
fn a_stale_foreign_mark_is_left(rt: HostRuntime) -> Result<(), Fail> {
    let (table, _first, mut second, mut third, mut fourth, desc) = marked(
        &rt,
        rt.alloc(),
        &[0; 8],
        &BOTH,
    )?;
    let mark = meet(&rt, &table, &mut third, 5);
    settle_mine(&table, &mut second, desc, 1);
    assert!(rt; is_undecided(&rt, &table, &mut second, desc));
    assert!(rt; has_entry(&table, &mut second, desc, 0));
    assert_eq!(rt; place(&table, &mut second, desc, 0), Placed::Mine);
    let settled = peek(&rt, &table, &mut fourth, 5);
    assert_eq!(rt; settle_met(&table, &mut third, 5, mark), None);
    assert_eq!(rt; peek(&rt, &table, &mut fourth, 5), settled);
    Ok(())
}

#[test]
fn the_entries_of_a_descriptor_are_counted(rt: HostRuntime) -> Result<(), Fail> {
    let (table, mut first, mut second, _third, _fourth) = four_workers(&rt, rt.alloc(), &[0; 8])?;
    let desc = Ref {
        worker: 0,
        number: 0,
    };
    assert!(rt; !is_undecided(&rt, &table, &mut second, desc));
    opened(&rt, &table, &mut first, &BOTH);
    assert!(rt; is_undecided(&rt, &table, &mut second, desc));
    assert_eq!(rt; count_entries(&table, &mut second, desc), Some(2));
    Ok(())
}

// Also by the control of the worker, where that has none yet or is of an earlier descriptor.
#[test]
fn a_descriptor_that_is_not_opened_is_known_as_such(rt: HostRuntime) -> Result<(), Fail> {
    let (table, mut first, mut second, _third, _fourth) = four_workers(&rt, rt.alloc(), &[0; 8])?;
    assert_eq!(rt; status_of(&rt, &table, &mut second, 0), Some(State::Unused));
    let number = opened(&rt, &table, &mut first, &BOTH);
    assert_eq!(rt;
        status_of(&rt, &table, &mut second, 0),
        Some(State::Undecided)
    );
    assert_eq!(rt; status_of(&rt, &table, &mut second, 1), Some(State::Unused));
    assert_eq!(rt;
        go_on(&rt, &table, &mut first, &BOTH, number),
        Ended::Succeeded
    );
    assert_eq!(rt;
        status_of(&rt, &table, &mut second, 0),
        Some(State::Succeeded)
    );
    opened(&rt, &table, &mut first, &[change(6, 0, 1)]);
    assert_eq!(rt; status_of(&rt, &table, &mut second, 0), None);
    Ok(())
}
