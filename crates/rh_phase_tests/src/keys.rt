//! One key after the other at a table of one worker.

ghost use Rattle.std.specs.Prelude.{◌≡◌, ◌<◌, ℕ, IsTrue, length, slice_index};
ghost use Rattle.rh_shared.specs.Rests.{SeatRests};
ghost use Rattle.rh_tagword.specs.Word.{IsValue};

use rh_kcas::{Seat, Table, make};
use rh_layout::{Entry, MAX_KEY};
use rh_ledger::Kind;
use rh_phase::do_key;
use rh_words::{Rooms, Shape};
use std::sync::Wait;
use std::test::Fail;

const NO_ENTRY: Entry = Entry {
    cell: 0,
    old: 0,
    new: 0,
};

/// Whether a cell may hold each of these.
fn are_values(cells: &[u64]) -> bool
    ensures { IsTrue result → (c : ℕ) → c < length cells.now → IsValue (slice_index cells.now c) }
{
    for cell in 0..cells.len() {
        if cells[cell] > MAX_KEY + 1 {
            return false;
        }
    }
    true
}

/// What `do_key` answers of key 2.
fn done<R: Wait>(rt: &R, table: &Table, seat: &mut Seat, kind: Kind) -> Option<bool>
    requires rests { SeatRests table.now seat.old }
    requires bits { table.now.shape.bits ≡ 3 }
    ensures { SeatRests table.now seat.new }
{
    let mut seen = [0; 8];
    let mut news = [0; 8];
    let mut entries = [NO_ENTRY; 8];
    do_key(
        rt,
        table,
        seat,
        3,
        kind,
        2,
        &mut seen,
        &mut news,
        &mut entries,
    )
}

#[test]
fn a_key_is_added_and_removed_once(rt: HostRuntime) -> Result<(), Fail> {
    let shape = Shape {
        bits: 3,
        workers: 1,
        keys: 0,
        rooms: Rooms {
            descriptors: 8,
            marks: 8,
        },
    };
    // The keys 1, 9 and 17, of one home.
    let cells = [0, 0, 0, 0, 2, 10, 18, 0];
    assert!(rt; are_values(&cells));
    let (table, mut seat) = make(rt.alloc(), shape, &cells)?;
    assert_eq!(rt; done(&rt, &table, &mut seat, Kind::Ask), Some(false));
    assert_eq!(rt; done(&rt, &table, &mut seat, Kind::Insert), Some(true));
    assert_eq!(rt; done(&rt, &table, &mut seat, Kind::Insert), Some(false));
    assert_eq!(rt; done(&rt, &table, &mut seat, Kind::Ask), Some(true));
    assert_eq!(rt; done(&rt, &table, &mut seat, Kind::Remove), Some(true));
    assert_eq!(rt; done(&rt, &table, &mut seat, Kind::Remove), Some(false));
    assert_eq!(rt; done(&rt, &table, &mut seat, Kind::Ask), Some(false));
    Ok(())
}

#[test]
fn a_key_without_room_has_no_answer(rt: HostRuntime) -> Result<(), Fail> {
    let shape = Shape {
        bits: 3,
        workers: 1,
        keys: 0,
        rooms: Rooms {
            descriptors: 1,
            marks: 8,
        },
    };
    let cells = [0; 8];
    assert!(rt; are_values(&cells));
    let (table, mut seat) = make(rt.alloc(), shape, &cells)?;
    assert_eq!(rt; done(&rt, &table, &mut seat, Kind::Insert), Some(true));
    assert_eq!(rt; done(&rt, &table, &mut seat, Kind::Insert), Some(false));
    // It would take a second descriptor.
    assert_eq!(rt; done(&rt, &table, &mut seat, Kind::Remove), None);
    assert_eq!(rt; done(&rt, &table, &mut seat, Kind::Ask), Some(true));
    Ok(())
}
