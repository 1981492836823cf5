//! How a table is made, and what it leaves.

ghost use Rattle.std.specs.Prelude.{◌≡◌, ◌<◌, IfOk, ℕ, List, None, length, map, slice_index};
ghost use Rattle.rh_words.specs.Parts.{cell_count};
ghost use Rattle.rh_shared.specs.Crews.{HasAll, IsFresh, IsQuiet, UsedNoRow, views_of};
ghost use Rattle.rh_shared.specs.Ends.{Leaves};
ghost use Rattle.rh_shared.specs.Rests.{SeatRests};
ghost use Rattle.rh_rule.specs.Seats.{InView, first_view};
ghost use Rattle.rh_tagword.specs.Word.{IsValue, plain_number};

use crate::seat::Seat;
use crate::table::Table;
use rh_rule::TableKey;
use rh_tagword::{plain_value, plain_words};
use rh_words::{Shape, Side};
use std::alloc::{AllocError, Global};
use std::snapshot::Snapshot;

/// A table whose cells hold these values, and the seat of all its workers.
/// It takes values, as `close` hands them out; `kcas` and `read` speak of words, as entries do. The
/// cells are kept for contracts alone, so that one vector is filled.
pub fn make(alloc: Global, shape: Shape, cells: &[u64]) -> Result<(Table, Seat), AllocError>
    requires sized { length cells.now ≡ cell_count shape }
    requires values { (c : ℕ) → c < length cells.now → IsValue (slice_index cells.now c) }
    ensures shape { IfOk result (λ r. r.0.shape ≡ shape) }
    ensures all { IfOk result (λ r. HasAll r.0 r.1) }
    ensures views { IfOk result
        (λ r. views_of r.1 ≡ first_view shape (map plain_number cells.now)) }
    ensures unmarked { IfOk result (λ r. r.1.placed ≡ None) }
    ensures fresh { IfOk result (λ r. InView IsFresh (views_of r.1)) }
    ensures rows { IfOk result (λ r. InView (UsedNoRow r.0.shape) (views_of r.1)) }
    ensures rests { IfOk result (λ r. r.1.count ≡ 1 → SeatRests r.0 r.1) }
{
    let room = shape.words();
    let mut words = plain_words(alloc, room, cells)?;
    let opening = TableKey {
        shape,
        cells: Snapshot::of(&words),
    };
    let side = Side::new(0, &words);
    words.resize(room, 0)?;
    let (inner, seat) = atomic_table::Table::of_words(alloc, &words, &opening)?;
    Ok((
        Table { inner, shape },
        Seat {
            inner: seat,
            side,
            count: shape.workers,
            placed: None,
        },
    ))
}

/// Hands out the values of the cells, and frees the table. All workers are at rest: no mark and no
/// descriptor is left in a cell.
pub fn close(table: Table, seat: Seat, cells: &mut [u64])
    requires all { HasAll table seat }
    requires rest { InView IsQuiet (views_of seat) }
    requires sized { length cells.old ≡ cell_count table.shape }
    ensures { Leaves table.shape (views_of seat) cells.new }
{
    let Table { inner, shape: _ } = table;
    let Seat {
        inner: seat,
        side: _,
        count: _,
        placed: _,
    } = seat;
    let closed = inner.close_with(seat);
    for cell in 0..cells.len() {
        // (at rest each cell is plain)
        let value = plain_value(closed.word(cell)).unwrap();
        cells[cell] = value;
    }
    closed.free();
}

/// Frees the table, where nobody needs its cells. All workers are at rest, as for `close`: so the
/// cells have values.
pub fn discard(table: Table, seat: Seat)
    requires all { HasAll table seat }
    requires rest { InView IsQuiet (views_of seat) }
    ensures { (values : List ℕ) × Leaves table.shape (views_of seat) values }
{
    let Table { inner, shape: _ } = table;
    let Seat {
        inner: seat,
        side: _,
        count: _,
        placed: _,
    } = seat;
    inner.close_with(seat).free();
}
