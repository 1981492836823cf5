//! Helping a descriptor to its end.

ghost use Rattle.std.specs.Prelude.{◌≡◌};
ghost use Rattle.rh_words.specs.Steps.{IsKnown};
ghost use Rattle.rh_words.specs.Words.{ref_of};
ghost use Rattle.rh_carrier.specs.Own.{IsClear};
ghost use Rattle.rh_shared.specs.Rests.{SeatRests, StaysAtRest};
ghost use Rattle.rh_swaps.specs.Swaps.{HasNoted};
ghost use Rattle.rh_kcas.specs.Helps.{HasHelped, StandsOrIsOver, MayHelp, is_over};
ghost use Rattle.rh_shared.specs.Seats.{view_of};
ghost use Rattle.rh_shared.specs.Sits.{StaysTrusted};
ghost use Rattle.rh_rule.specs.Rest.{made};

use rh_carrier::Steps;
use rh_helping::{Machine, Progress, state_by};
use rh_shared::{OnTable, Seat, Table};
use rh_tagword::State;
use rh_words::{Reading, Ref, Request, Shape, Side};
use std::sync::Wait;

/// Goes about a descriptor until it is decided, or no mark is left; a stale one was decided.
/// The seat owes nothing for it then.
pub fn help<R: Wait>(rt: &R, table: &Table, seat: &mut Seat, desc: Ref)
    requires rests { SeatRests table.now seat.old }
    requires known { IsKnown (view_of seat.old).side.facts (ref_of desc) }
    ensures stays { StaysAtRest table.now seat.old seat.new }
    ensures acts { made (view_of seat.new) ≡ made (view_of seat.old) }
    ensures helps { HasHelped table.now.shape (ref_of desc) (view_of seat.old) (view_of seat.new) }
{
    let mut here = OnTable {
        table,
        seat: &mut seat.inner,
    };
    go_about(rt, &table.shape, &mut here, &mut seat.side, desc);
}

fn go_about<R: Wait>(rt: &R, shape: &Shape, here: &mut OnTable, side: &mut Side, desc: Ref)
    requires { MayHelp shape.now (ref_of desc) here.old side.old.known.view }
    ensures stays { StaysTrusted shape.now here.old here.new side.new.known.view }
    ensures clear { IsClear side.new.known.view }
    ensures helps { HasHelped shape.now (ref_of desc) side.old.known.view side.new.known.view }
{
    let mut machine = Machine::about(desc);
    for _ in rt.forever() {
        match machine.step(shape, here, side, None) {
            Progress::On => {}
            Progress::Spent => return,
            // (helping goes from one descriptor to the next that it meets: the last one need not be
            // this)
            Progress::Over => {
                if is_over(state(shape, here, side, desc)) {
                    return;
                }
                machine.go_about(desc);
            }
            // (no own descriptor is open)
            Progress::Closed(_) => unreachable!(),
        }
    }
    unreachable!()
}

/// How the descriptor stands, by one Read. None where it is stale.
fn state(shape: &Shape, here: &mut OnTable, side: &mut Side, desc: Ref) -> Option<State>
    requires { MayHelp shape.now (ref_of desc) here.old side.old.known.view }
    ensures stays { StaysTrusted shape.now here.old here.new side.new.known.view }
    ensures clear { IsClear side.new.known.view }
    ensures stands { StandsOrIsOver side.new.known.view (ref_of desc) result }
    ensures facts { HasNoted side.old.known.view side.new.known.view }
{
    let word = here.make(shape, side, Request::Read(Reading::Control(desc)));
    state_by(desc, word)
}

/// A descriptor that stands so is decided: a stale one was left so.
fn is_over(state: Option<State>) -> bool
    ensures { result ≡ is_over state }
{
    match state {
        Some(state) => state.is_decided(),
        None => true,
    }
}
