//! One key, done by one worker at a table that others change too.

ghost use Rattle.std.specs.Prelude.{◌≡◌, ◌↔◌, ◌^◌, ◌<◌, false};
ghost use Rattle.rh_layout.specs.Key.{IsBits, IsKey};
ghost use Rattle.rh_threads.specs.Scanning.{IsPassed};

use crate::buffer::Buffer;
use rh_layout::{Entry, beats, home, key_in};
use rh_ledger::Kind;
use rh_probe::{cell_after, is_movable};
use rh_shared::{Seat, Table};
use rh_swaps::{Outcome, kcas, read};
use rh_tagword::plain_value;
use rh_worker::{Decision, Plan, decide};
use std::sync::Wait;

/// A key that a worker is to do, and the table at which it has its seat.
#[derive(Drop)]
pub struct KeyTask<'a, R> {
    pub rt: &'a R,
    pub table: &'a Table,
    pub kind: Kind,
    pub key: u64,
    ghost is_key: { IsKey key },
}

/// What came of a try.
#[derive(Clone, Copy)]
pub enum Tried {
    /// The key is done, with this answer.
    Done(bool),
    /// Another worker changed a cell between the scan and the swap.
    Again,
    /// More cells than there is room for have to be seen.
    Longer,
    /// Too little room is left in this round.
    Spent,
}

/// What a scan leads to.
#[derive(Clone, Copy)]
enum Scanned {
    /// The key is done, with this answer.
    Done(bool),
    /// These of the entries are to be swapped.
    Acts(Plan),
    /// As many cells as there is room for do not decide.
    Longer,
    /// No mark is left for what stands in a cell.
    Spent,
}

impl<R: Wait> KeyTask<'_, R> {
    ghost use Rattle.std.specs.Prelude.{length};
    ghost use Rattle.rh_shared.specs.Rests.{SeatRests, StaysAtRest};
    ghost use Rattle.rh_threads.specs.Buffer.{HasBufferRoom, IsRoom};
    ghost use Rattle.rh_threads.specs.Keys.{IsEndedSo, IsScannedSo, IsTriedSo};

    /// Tries until the key is done, and answers whether it was added, removed or found; none where
    /// the worker has too little room left for it. More of the buffer is put to use where a scan
    /// needs it.
    pub(crate) fn do_in_buffer(&self, seat: &mut Seat, buffer: &mut Buffer) -> Option<bool>
        requires rests { SeatRests self.now.table.now seat.old }
        requires room { HasBufferRoom self.now.table.now.shape.bits buffer.old }
        ensures stays { StaysAtRest self.now.table.now seat.old seat.new }
        ensures room { HasBufferRoom self.now.table.now.shape.bits buffer.new }
        ensures ends { IsEndedSo self.now seat.old seat.new result }
    {
        for _ in self.rt.forever() {
            match self.try_in_buffer(seat, buffer) {
                Tried::Done(answer) => return Some(answer),
                Tried::Spent => return None,
                Tried::Again => {}
                Tried::Longer => buffer.use_more(self.table.shape.bits),
            }
        }
        unreachable!()
    }

    /// A try, in as much of the buffer as is in use.
    fn try_in_buffer(&self, seat: &mut Seat, buffer: &mut Buffer) -> Tried
        requires rests { SeatRests self.now.table.now seat.old }
        requires room { HasBufferRoom self.now.table.now.shape.bits buffer.old }
        ensures stays { StaysAtRest self.now.table.now seat.old seat.new }
        ensures room { HasBufferRoom self.now.table.now.shape.bits buffer.new }
        ensures tries { IsTriedSo self.now (length buffer.old.seen.items) seat.old seat.new result }
    {
        let seen = buffer.seen.as_mut_slice();
        self.try_key(seat, seen, buffer.entries.as_mut_slice())
    }

    /// Scans from the key's home on, and swaps what the scan asks for.
    pub fn try_key(&self, seat: &mut Seat, seen: &mut [u64], entries: &mut [Entry]) -> Tried
        requires rests { SeatRests self.now.table.now seat.old }
        requires room { IsRoom self.now.table.now.shape.bits seen.old entries.old }
        ensures stays { StaysAtRest self.now.table.now seat.old seat.new }
        ensures tries { IsTriedSo self.now (length seen.old) seat.old seat.new result }
    {
        match self.scan(seat, seen, entries) {
            Scanned::Done(answer) => Tried::Done(answer),
            Scanned::Acts(plan) => match kcas(self.rt, self.table, seat, &entries[..plan.entries]) {
                Outcome::Done => Tried::Done(plan.changes),
                Outcome::Failed { .. } => Tried::Again,
                Outcome::Spent => Tried::Spent,
            },
            Scanned::Longer => Tried::Longer,
            Scanned::Spent => Tried::Spent,
        }
    }

    /// Reads the cells from the key's home on, until they decide.
    #[inline(always)]
    fn scan(&self, seat: &mut Seat, seen: &mut [u64], entries: &mut [Entry]) -> Scanned
        requires rests { SeatRests self.now.table.now seat.old }
        requires room { IsRoom self.now.table.now.shape.bits seen.old entries.old }
        ensures stays { StaysAtRest self.now.table.now seat.old seat.new }
        ensures scans { IsScannedSo self.now (length seen.old) seat.old seat.new entries.new
            result }
    {
        let KeyTask {
            rt,
            table,
            kind,
            key,
        } = *self;
        let bits = table.shape.bits;
        let cells = table.shape.cells();
        let first = home(bits, key);
        let mut is_placed = false;
        for count in 0..seen.len() {
            let cell = cell_after(cells, first, count);
            let Some(word) = read(rt, table, seat, cell) else {
                return Scanned::Spent;
            };
            // (a read ends with a plain word)
            let value = plain_value(word).unwrap();
            seen[count] = value;
            if may_decide(kind, bits, key, cell, value, is_placed) {
                match decide(kind, bits, key, &seen[..count + 1], entries) {
                    Decision::Done(answer) => return Scanned::Done(answer),
                    Decision::Acts(plan) => return Scanned::Acts(plan),
                    Decision::More => is_placed = true,
                }
            }
        }
        Scanned::Longer
    }
}

/// Whether the cells from the key's home to this one, which holds this, may decide where those
/// before it do not: they show the key's place, or, where that is seen, the end of what has to
/// move. So a scan looks at each cell once, and at all of them together once or twice.
fn may_decide(kind: Kind, bits: u32, key: u64, cell: usize, value: u64, is_placed: bool) -> bool
    requires bits { IsBits bits }
    requires cell { cell < 2 ^ bits }
    ensures { result ≡ false ↔ IsPassed is_placed kind bits key cell value }
{
    if !is_placed {
        return match key_in(value) {
            Some(found) => found == key || !beats(bits, cell, found, key),
            None => true,
        };
    }
    match kind {
        Kind::Insert => value == 0,
        Kind::Remove => !is_movable(bits, cell, value),
        Kind::Ask => true,
    }
}
