//! What a cell stands for.

ghost use Rattle.std.specs.Prelude.{◌≡◌, ◌<◌, ◌≤◌, ℕ, Some, length};
ghost use Rattle.rh_words.specs.Parts.{cell_count, word_count};
ghost use Rattle.rh_words.specs.Words.{ref_of};
ghost use Rattle.rh_words.specs.Steps.{IsDesc};
ghost use Rattle.rh_rule.specs.Represents.{word_at};
ghost use Rattle.rh_order.specs.Words.{DescLeads, IsLogicalWord, MarkIsFor, MarkStandsFor, WordStandsFor, entry_for};
ghost use Rattle.rh_turns.specs.Readable.{AreWorkers, HasHolder, HasNoted, IsReadable, IsValueOf, views_of};
ghost use Rattle.rh_words.specs.declared.shape.Part.TheVariants as part;
ghost use Rattle.rh_world.specs.World.Cell.{desc as is_desc};
ghost use Rattle.rh_world.specs.World.{Ref as Reference};

use crate::hand::Hand;
use rh_helping::{CellContent, what_stands};
use rh_tagword::{State, pack_control, plain_value};
use rh_words::{Part, Ref, Shape};

/// What the cell stands for, as a value: what it holds itself, the old value of a mark's entry, or
/// the value of a descriptor's entry that counts (Harris, Fraser and Pratt 2002). Where the
/// descriptor is stale it is the old value, known to the worker by whose doing it stands there.
pub fn logical_value(shape: &Shape, words: &[u64], hands: &[Hand], cell: usize) -> u64
    requires sized { length words.now ≡ word_count shape.now }
    requires workers { AreWorkers hands.now }
    requires count { length hands.now ≡ shape.now.workers }
    requires cell { cell < cell_count shape.now }
    requires readable { IsReadable shape.now words.now (views_of hands.now) cell }
    ensures { IsValueOf shape.now words.now (views_of hands.now) cell result }
{
    plain_value(logical_word(shape, words, hands, cell)).unwrap()
}

fn logical_word(shape: &Shape, words: &[u64], hands: &[Hand], cell: usize) -> u64
    requires sized { length words.now ≡ word_count shape.now }
    requires workers { AreWorkers hands.now }
    requires count { length hands.now ≡ shape.now.workers }
    requires cell { cell < cell_count shape.now }
    requires readable { IsReadable shape.now words.now (views_of hands.now) cell }
    ensures { IsLogicalWord shape.now words.now (views_of hands.now) cell result }
{
    let word = words[cell];
    match what_stands(word) {
        CellContent::Value => word,
        CellContent::Mark(mark) => marked_word(hands, mark),
        CellContent::Desc(desc) => described_word(shape, words, hands, desc, cell),
    }
}

/// The old value of the entry that a mark is for, which its worker has not settled yet.
fn marked_word(hands: &[Hand], mark: Ref) -> u64
    requires workers { AreWorkers hands.now }
    requires within { mark.worker < length hands.now }
    requires unsettled { (views_of hands.now mark.worker).side.unsettled ≡ Some mark.number }
    ensures { (c : ℕ) → (d : Reference) →
        MarkIsFor (views_of hands.now mark.worker).side (ref_of mark) d c →
        MarkStandsFor (views_of hands.now) c (ref_of mark) result }
{
    match hands[mark.worker].worker.owed_cell() {
        Some(owed) => owed.old,
        None => unreachable!(),
    }
}

/// The value of the entry of a descriptor that is for this cell.
fn described_word(shape: &Shape, words: &[u64], hands: &[Hand], desc: Ref, cell: usize) -> u64
    requires sized { length words.now ≡ word_count shape.now }
    requires workers { AreWorkers hands.now }
    requires count { length hands.now ≡ shape.now.workers }
    requires leads { DescLeads shape.now words.now (views_of hands.now) cell (ref_of desc) }
    ensures { WordStandsFor shape.now words.now (views_of hands.now) cell
        (is_desc (ref_of desc)) result }
{
    let worker = desc.worker;
    if words[shape.index(Part::Serial { worker })] == desc.number {
        word_in_row(shape, words, desc, cell)
    } else {
        word_held(hands, desc, cell)
    }
}

/// By its row: of the entry's two values the new one if it succeeded.
fn word_in_row(shape: &Shape, words: &[u64], desc: Ref, cell: usize) -> u64
    requires sized { length words.now ≡ word_count shape.now }
    requires desc { IsDesc shape.now (ref_of desc) }
    requires entries { word_at shape.now words.now
        (part.Length desc.worker) ≤ cell_count shape.now }
    ensures { entry_for shape.now words.now (ref_of desc) cell
        (word_at shape.now words.now (part.Length desc.worker)) ≡ result }
{
    let worker = desc.worker;
    let size = words[shape.index(Part::Length { worker })] as usize;
    let control = words[shape.index(Part::Control { worker })];
    let succeeded = control == pack_control(desc.number, State::Succeeded);
    let mut value = 0;
    for entry in 0..size {
        if words[shape.index(Part::EntryCell { worker, entry })] == cell as u64 {
            let counts = if succeeded {
                Part::EntryNew { worker, entry }
            } else {
                Part::EntryOld { worker, entry }
            };
            value = words[shape.index(counts)];
        }
    }
    value
}

/// As the worker knows it that holds it in this cell: a descriptor that succeeded stands in no cell
/// once it is stale.
fn word_held(hands: &[Hand], desc: Ref, cell: usize) -> u64
    requires workers { AreWorkers hands.now }
    requires held { HasHolder (length hands.now) (views_of hands.now) (ref_of desc) cell }
    ensures { HasNoted (length hands.now) (views_of hands.now) (ref_of desc) cell result }
{
    for hand in hands {
        if let Some(owed) = hand.worker.owed_cell() {
            if owed.piece.desc == desc && owed.piece.cell == cell {
                return owed.old;
            }
        }
    }
    unreachable!()
}
