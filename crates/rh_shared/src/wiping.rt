//! A wipe by the seat of all workers: their rows are unused again, and the cells as they were.

ghost use Rattle.std.specs.Prelude.{◌≡◌, ◌+◌, ◌<◌, [], ℕ, List, None};
ghost use Rattle.atomic_table.specs.Table.{Allows};
ghost use Rattle.rh_words.specs.Parts.{word_count};
ghost use Rattle.rh_shared.specs.Crews.{HasAll, IsFresh, IsQuiet, IsWholeSeat, UsedNoRow, views_of};
ghost use Rattle.rh_shared.specs.Ends.{IsWiped, renewed, with_cleared};
ghost use Rattle.rh_shared.specs.Rests.{SeatRests};
ghost use Rattle.rh_rule.specs.Seats.{Begun, RuleHolds, InView, IsWiping, NoSlot, all_views};
ghost use Rattle.rh_rule.specs.Wipes.{row_total};

use crate::seat::Seat;
use crate::seats::first_side;
use crate::table::{Inner, Table};
use atomic_table::Play;
use rh_rule::Sitter;
use std::collections::LinkedList;
use std::marker::{Brand, PhantomData};

/// What a step of a wipe leaves of the seat. Each call of a program picks it.
trait Tells {
    ghost use Rattle.std.specs.Prelude.{List};
    ghost use Rattle.atomic_table.specs.Table.{Me};
    ghost use Rattle.rh_rule.specs.declared.rule.Sitter.{Sitter};
    ghost use Rattle.rh_rule.specs.Seats.{NoSlot};

    ghost tells: { Me NoSlot (List Sitter) → Type 0 };
}

impl Tells for Brand {
    ghost tells = { λ me. Unit {0} };
}

struct Telling<B> {
    of: PhantomData<B>,
}

impl<B: Tells> Play<(), LinkedList<Sitter>> for Telling<B> {
    ghost then = { λ _ _ word me. B.tells me };
}

/// Makes all rows unused again. All workers are at rest: the cells are those that their acts made.
pub fn wipe(table: &Table, seat: &mut Seat)
    requires all { HasAll table.now seat.old }
    requires rest { InView IsQuiet (views_of seat.old) }
    ensures all { HasAll table.now seat.new }
    ensures wiped { IsWiped table.now.shape (views_of seat.old) (views_of seat.new) }
    ensures unmarked { seat.new.placed ≡ None }
    ensures fresh { InView IsFresh (views_of seat.new) }
    ensures rows { InView (UsedNoRow table.now.shape) (views_of seat.new) }
    ensures rests { seat.new.count ≡ 1 → SeatRests table.now seat.new }
{
    wipe_rows(table, &mut seat.inner);
    seat.side = first_side(0, &seat.inner);
    seat.placed = None;
}

fn wipe_rows(table: &Table, seat: &mut Inner)
    requires whole { IsWholeSeat table.now seat.old }
    requires rest { InView IsQuiet seat.old.me.0 }
    ensures own { seat.new.table_id ≡ seat.old.table_id }
    ensures empty { seat.new.me.1 ≡ [] }
    ensures wiped { IsWiped table.now.shape seat.old.me.0 seat.new.me.0 }
{
    begin(table, seat);
    for row in 0..table.shape.words() - table.shape.cells() - 1 {
        clear(table, seat, row);
    }
    finish(table, seat);
}

/// The cells are kept from here on. What a table keeps of a seat changes by an access alone: so a
/// word is loaded, for the proof and nothing else.
fn begin(table: &Table, seat: &mut Inner)
    requires whole { IsWholeSeat table.now seat.old }
    requires rest { InView IsQuiet seat.old.me.0 }
    ensures own { seat.new.table_id ≡ seat.old.table_id }
    ensures begun { Begun table.now.shape seat.old.me.0 seat.new.me }
{
    load::<Brand>(table, seat);
}

/// Clears the next word of the rows.
fn clear(table: &Table, seat: &mut Inner, row: usize)
    requires whole { IsWholeSeat table.now seat.old }
    requires row { row < row_total table.now.shape }
    requires wiping { (cells : List ℕ) × InView (IsWiping cells row) seat.old.me.0 }
    ensures own { seat.new.table_id ≡ seat.old.table_id }
    ensures view { seat.new.me ≡ (all_views (with_cleared (row + 1)) seat.old.me.0, []) }
{
    store::<Brand>(table, seat, table.shape.cells() + row, row);
}

/// A round begins. This load is for the proof, too.
fn finish(table: &Table, seat: &mut Inner)
    requires whole { IsWholeSeat table.now seat.old }
    requires wiping { (cells : List ℕ)
        × InView (IsWiping cells (row_total table.now.shape)) seat.old.me.0 }
    ensures own { seat.new.table_id ≡ seat.old.table_id }
    ensures view { seat.new.me ≡ (all_views renewed seat.old.me.0, []) }
{
    load::<Brand>(table, seat);
}

fn load<B: Tells>(table: &Table, seat: &mut Inner)
    requires own { seat.old.table_id ≡ table.now.inner.shared.table_id }
    requires allowed { Allows {S = NoSlot}
        (RuleHolds table.now.shape) table.now.inner.shared.table_id.slots
        seat.old.id seat.old.me 0 (λ n. n) (λ word me. B.tells me) }
    ensures own { seat.new.table_id ≡ seat.old.table_id }
    ensures tells { B.tells seat.new.me }
{
    table.inner.shared.load::<Telling<B>>(seat, 0);
}

fn store<B: Tells>(table: &Table, seat: &mut Inner, word: usize, _row: usize)
    requires own { seat.old.table_id ≡ table.now.inner.shared.table_id }
    requires word { word < word_count table.now.shape }
    requires allowed { Allows {S = NoSlot}
        (RuleHolds table.now.shape) table.now.inner.shared.table_id.slots
        seat.old.id seat.old.me word (λ n. 0) (λ word me. B.tells me) }
    ensures own { seat.new.table_id ≡ seat.old.table_id }
    ensures tells { B.tells seat.new.me }
{
    table.inner.shared.store::<Telling<B>>(seat, word, 0);
}
