//! What the own rows of a worker say of its descriptors, which it looks up without a step. Rows are
//! looked at apart, and seldom: what looks there is lent a copy of the shape, so that the shape
//! itself may be kept in registers.

ghost use Rattle.std.specs.Prelude.{◌≡◌, ◌<◌, ◌+◌, suc, Some, IfSome};
ghost use Rattle.rh_words.specs.Parts.{cell_count, entry_row};
ghost use Rattle.rh_words.specs.Words.{ref_of};
ghost use Rattle.rh_helping.specs.Goal.{KnowsGoal, KnowsTask, opened_by};
ghost use Rattle.rh_carrier.specs.Relies.{Trusts};
ghost use Rattle.rh_helping.specs.Stepping.{IsBetween};
ghost use Rattle.rh_words.specs.Steps.{IsKnown, row_word};
ghost use Rattle.rh_world.specs.World.{In};
ghost use Rattle.rh_world.specs.Facts.Fact.{size_is};

use crate::goal::{OpenDesc, Task};
use rh_carrier::Steps;
use rh_layout::Entry;
use rh_words::{Part, Ref, Shape, Side};

/// The entries of the own descriptor of this number, where it is the open one.
#[inline(always)]
fn own_copy<'a>(opens: Option<OpenDesc<'a>>, number: u64) -> Option<&'a [Entry]>
    ensures { IfSome result (λ entries. opened_by opens.entry ≡
        Some (record { number = number; entries = entries.now })) }
{
    match opens {
        Some(open) if open.number == number => Some(open.entries),
        _ => None,
    }
}

/// How many entries the newest own descriptor has. Once it is closed it is looked up in its row,
/// which is its own until the next one is written. An older one is left at its control, as a stale
/// one is.
#[inline(always)]
pub(crate) fn own_size<T: Steps>(
    shape: &Shape,
    table: &mut T,
    side: &Side,
    opens: Option<OpenDesc<'_>>,
    desc: Ref,
) -> usize
    requires between { IsBetween T.shows shape.now (opened_by opens) table.old side.now.known.view }
    requires worker { desc.worker ≡ side.now.worker }
    requires last { suc desc.number ≡ side.now.next_number }
    requires known { IsKnown side.now.known.view.side.facts (ref_of desc) }
    ensures same { table.new ≡ table.old }
    ensures size { In (size_is (ref_of desc) result) side.now.known.view.side.facts }
{
    match own_copy(opens, desc.number) {
        Some(entries) => entries.len(),
        None => {
            let apart = *shape;
            row_size(&apart, table, side)
        }
    }
}

/// How many entries the own descriptor has that the own row is of.
#[cold]
#[inline(never)]
fn row_size<T: Steps>(shape: &Shape, table: &mut T, side: &Side) -> usize
    requires trusts { Trusts T.shows shape.now table.old side.now.known.view }
    ensures same { table.new ≡ table.old }
    ensures size { result ≡ row_word side.now.known.view.written 2 }
{
    let part = Part::Length {
        worker: side.worker,
    };
    table.own_word(shape, side, part) as usize
}

/// The next entry of the newest own descriptor, looked up where its size is.
#[inline(always)]
pub(crate) fn own_entry<T: Steps>(
    shape: &Shape,
    table: &mut T,
    side: &Side,
    opens: Option<OpenDesc<'_>>,
    task: Task,
) -> Entry
    requires between { IsBetween T.shows shape.now (opened_by opens) table.old side.now.known.view }
    requires task { KnowsTask side.now.known.view task }
    requires entry { task.entry < task.size }
    requires worker { task.desc.worker ≡ side.now.worker }
    ensures same { table.new ≡ table.old }
    ensures goal { KnowsGoal side.now.known.view
        (record { task = task; cell = result.cell; old = result.old; new = result.new }) }
{
    match own_copy(opens, task.desc.number) {
        Some(entries) => {
            // (word by word: a compiler keeps single words in registers)
            let entry = &entries[task.entry];
            Entry {
                cell: entry.cell,
                old: entry.old,
                new: entry.new,
            }
        }
        None => {
            let apart = *shape;
            row_entry(&apart, table, side, task)
        }
    }
}

/// The next entry of an own descriptor, as its row says.
#[cold]
#[inline(never)]
fn row_entry<T: Steps>(shape: &Shape, table: &mut T, side: &Side, task: Task) -> Entry
    requires trusts { Trusts T.shows shape.now table.old side.now.known.view }
    requires worker { task.desc.worker ≡ side.now.worker }
    requires entry { task.entry < cell_count shape.now }
    ensures same { table.new ≡ table.old }
    ensures cell { result.cell ≡ row_word side.now.known.view.written (entry_row task.entry 0) }
    ensures old { result.old ≡ row_word side.now.known.view.written (entry_row task.entry 1) }
    ensures new { result.new ≡ row_word side.now.known.view.written (entry_row task.entry 2) }
{
    let worker = task.desc.worker;
    let entry = task.entry;
    let cell = table.own_word(shape, side, Part::EntryCell { worker, entry }) as usize;
    let old = table.own_word(shape, side, Part::EntryOld { worker, entry });
    let new = table.own_word(shape, side, Part::EntryNew { worker, entry });
    Entry { cell, old, new }
}
