//! The hands of all workers: as a phase begins, and what they say at its end.

ghost use Rattle.std.specs.Prelude.{◌≡◌, ◌-◌, ◌^◌, false, min, IfOk, slice_index_or};
ghost use Rattle.rh_threads.specs.Made.{AreNew, IsNew};
ghost use Rattle.rh_threads.specs.Rounds.{AddsMarks, all_changed, is_marked};

use crate::buffer::Buffer;
use crate::hand::Hand;
use rh_ledger::Kind;
use rh_words::Shape;
use std::alloc::{AllocError, Global};
use std::collections::LinkedList;

/// A hand for each worker of the table, which marks so many positions.
pub(crate) fn new_hands(
    alloc: Global,
    shape: &Shape,
    kind: Kind,
    positions: usize,
) -> Result<LinkedList<Hand>, AllocError>
    ensures { IfOk result (AreNew shape.now kind positions) }
{
    let mut hands = LinkedList::new(alloc);
    while hands.len() < shape.workers {
        let hand = new_hand(alloc, shape, kind, positions)?;
        hands.push_back(hand)?;
    }
    Ok(hands)
}

fn new_hand(alloc: Global, shape: &Shape, kind: Kind, positions: usize) -> Result<Hand, AllocError>
    ensures { IfOk result (IsNew shape.now kind positions) }
{
    Ok(Hand {
        kind,
        buffer: Buffer::new(alloc, shape.bits)?,
        position: 0,
        has_key: false,
        ended: false,
        done: 0,
        changed: 0,
        found: vec![in alloc; false; positions]?,
    })
}

/// How many keys the workers added, removed or found, up to the greatest number.
pub(crate) fn all_changed(hands: LinkedList<Hand>) -> u64
    ensures { result ≡ min (all_changed hands) (2 ^ 64 - 1) }
{
    let mut hands = hands;
    let mut changed: u64 = 0;
    while let Some(hand) = hands.pop_front() {
        changed = changed.saturating_add(hand.changed);
    }
    changed
}

/// Marks each position that one of the hands has marked.
pub(crate) fn mark_all(hands: LinkedList<Hand>, found: &mut [bool])
    ensures { AddsMarks (is_marked hands) found.old found.new }
{
    let mut hands = hands;
    while let Some(hand) = hands.pop_front() {
        mark(&hand.found, found);
    }
}

fn mark(marks: &[bool], found: &mut [bool])
    ensures { AddsMarks (λ p. slice_index_or marks.now p false) found.old found.new }
{
    let both = marks.len().min(found.len());
    for position in 0..both {
        if marks[position] {
            found[position] = true;
        }
    }
}
