//! Settling a mark, by the stages of `Settling`, in which a machine settles one that it meets.

ghost use Rattle.std.specs.Prelude.{◌≡◌, None};
ghost use Rattle.rh_world.specs.World.{In};
ghost use Rattle.rh_world.specs.Facts.Fact.{found};
ghost use Rattle.rh_words.specs.Words.{ref_of};
ghost use Rattle.rh_rule.specs.Sound.{IsControlWord};
ghost use Rattle.rh_helping.specs.CellContent.{state_said};
ghost use Rattle.rh_helping.specs.Machine.{settling_of};
ghost use Rattle.rh_helping.specs.Next.{Settles};
ghost use Rattle.rh_shared.specs.Rests.{SeatKnows, StaysKnown};
ghost use Rattle.rh_shared.specs.Seats.{sitter_of, view_of};
ghost use Rattle.rh_rdcss.specs.Placing.{NotesMark};
ghost use Rattle.rh_rdcss.specs.Settling.{IsOwnUnsettled, RunsSettling, SettlesOwn, own_target};

use crate::making::make;
use rh_helping::{Settling, SettlingAt, state_by};
use rh_shared::{OwnMark, Seat, Table};
use rh_tagword::State;
use rh_words::{Piece, Ref, StepKind};

/// Settles a mark that was found in this cell.
pub(crate) fn settle_met(table: &Table, seat: &mut Seat, cell: usize, mark: Ref) -> Option<u64>
    requires knows { SeatKnows table.now seat.old }
    requires found { In (found (ref_of mark) cell) (view_of seat.old).side.facts }
    ensures stays { StaysKnown table.now seat.old seat.new }
    ensures settles { RunsSettling table.now.shape (Settles.Desc mark cell) (sitter_of seat.old)
        result (sitter_of seat.new) }
{
    let mut settling = Settling::met(mark, cell);
    loop {
        let request = settling.request();
        let found = make(table, seat, request);
        if let StepKind::Settle = settling.kind() {
            return Some(found);
        }
        if !settling.after(found) {
            return None;
        }
    }
}

/// Settles the own mark in this cell, which the worker placed for this: from its control on.
#[inline(always)]
pub(crate) fn settle_own(table: &Table, seat: &mut Seat, cell: usize, own: OwnMark) -> u64
    requires knows { SeatKnows table.now seat.old }
    requires found { In (found (ref_of own.mark) cell) (view_of seat.old).side.facts }
    requires facts { NotesMark (view_of seat.old) own }
    ensures stays { StaysKnown table.now seat.old seat.new }
    ensures settles { SettlesOwn table.now.shape cell own (sitter_of seat.old) result
        (sitter_of seat.new) }
    ensures settled { IsOwnUnsettled (view_of seat.old) own.mark →
        (view_of seat.new).side.unsettled ≡ None }
{
    let mut settling = Settling {
        at: SettlingAt::Control,
        mark: own.mark,
        named: 0,
        piece: Piece { cell, ..own.piece },
        value: own.old,
    };
    let control = settling.request();
    let word = make(table, seat, control);
    go_on_own(&mut settling, word);
    let swap = settling.request();
    make(table, seat, swap)
}

/// Goes on with the own mark from the control of its descriptor. Another worker would read the old
/// value, or leave the mark where that is stale: here it is kept, and the mark is settled to it.
#[inline(always)]
fn go_on_own(settling: &mut Settling, word: u64)
    requires { IsControlWord word }
    ensures { settling_of settling.new ≡ Settles.Settle settling.old.mark settling.old.piece
        (own_target settling.old.value (state_said settling.old.piece.desc.number word)) }
{
    settling.at = match state_by(settling.piece.desc, word) {
        Some(State::Undecided) => SettlingAt::Promote,
        _ => SettlingAt::Demote,
    };
}
