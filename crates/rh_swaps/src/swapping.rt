//! An own K-CAS: its descriptor is opened, and carried out.

ghost use Rattle.std.specs.Prelude.{◌≡◌, ◌≢◌, ◌⊎◌, MatchOption, Some};
ghost use Rattle.rh_rule.specs.Rest.{RuleTells};
ghost use Rattle.rh_words.specs.Steps.{AreEntries};
ghost use Rattle.rh_carrier.specs.Own.{KnowsOwn, OwesNothing};
ghost use Rattle.rh_helping.specs.declared.machine.At.TheVariants as stage;
ghost use Rattle.rh_helping.specs.Goal.{opened_by, own_of};
ghost use Rattle.rh_helping.specs.Keeping.{IsKept};
ghost use Rattle.rh_helping.specs.Machine.{work_at, work_of};
ghost use Rattle.rh_helping.specs.Opening.{MayOpen, next_own};
ghost use Rattle.rh_helping.specs.Stepping.{MayGoOn};
ghost use Rattle.rh_shared.specs.Rests.{SeatRests, StaysAtRest};
ghost use Rattle.rh_swaps.specs.Swaps.{GoesOn, HasCarriedOut, HasNoRoom, HasOpened, Swaps};
ghost use Rattle.rh_swaps.specs.declared.swapping.Outcome.TheVariants.{Spent};
ghost use Rattle.rh_shared.specs.Seats.{view_of};
ghost use Rattle.rh_shared.specs.Sits.{Sits, StaysTrusted};
ghost use Rattle.rh_carrier.specs.Relies.{Trusts};

use rh_helping::{
    At, Ended, Machine, MarkControl, OpenDesc, Opening, Place, Progress, Promote, ReadControl,
    Recheck, Release, Stage, Succeed,
};
use rh_layout::Entry;
use rh_shared::{OnTable, Seat, Table};
use rh_words::{Ref, Shape, Side};
use std::sync::Wait;

/// What became of a K-CAS.
#[derive(Clone, Copy, Debug, PartialEq, Eq)]
pub enum Outcome {
    /// All its entries changed their cells, in one act.
    Done,
    /// No cell was changed: that of this entry held another value.
    Failed { entry: usize },
    /// No cell was changed: no number is left for a descriptor of the worker, or none for a mark.
    Spent,
}

/// Changes the cells of the entries from their old words to their new ones, all in one act, or
/// none. Where no number is left for a descriptor, or no mark, it makes no step: its descriptor
/// would be withdrawn all the same. Later it is `Spent` only where the last mark was used up on the
/// way. Once a step was made, `rule_tells` has what the rule tells of all acts then.
pub fn kcas<R: Wait>(rt: &R, table: &Table, seat: &mut Seat, entries: &[Entry]) -> Outcome
    requires rests { SeatRests table.now seat.old }
    requires entries { AreEntries table.now.shape entries.now }
    ensures stays { StaysAtRest table.now seat.old seat.new }
    ensures full { HasNoRoom table.now.shape (view_of seat.old) (view_of seat.old) →
        (seat.new ≡ seat.old) × (result ≡ Spent) }
    ensures swaps { Swaps table.now.shape entries.now (view_of seat.old) (view_of seat.new) result }
    ensures rule_tells { (seat.new ≡ seat.old) ⊎ RuleTells table.now.shape (view_of seat.new) }
{
    let shape = table.shape;
    if shape.rooms.descriptors <= seat.side.next_number
        || shape.rooms.marks <= seat.side.marks_used
    {
        return Outcome::Spent;
    }
    let number = seat.side.next_number;
    let mut here = OnTable {
        table,
        seat: &mut seat.inner,
    };
    open(&shape, &mut here, &mut seat.side, entries);
    let own = OpenDesc { number, entries };
    match carry_out(rt, &shape, &mut here, &mut seat.side, own) {
        Ended::Succeeded => Outcome::Done,
        Ended::Failed { entry } => Outcome::Failed {
            entry: entry as usize,
        },
        Ended::Withdrawn => Outcome::Spent,
    }
}

/// Opens a descriptor of the entries: the first part of a K-CAS, for who goes on with it later.
#[inline(always)]
pub fn open(shape: &Shape, here: &mut OnTable, side: &mut Side, entries: &[Entry])
    requires trusts { Trusts Sits shape.now here.old side.old.known.view }
    requires may { MayOpen shape.now side.old.known.view entries.now }
    ensures stays { StaysTrusted shape.now here.old here.new side.new.known.view }
    ensures opens { HasOpened side.old.known.view
        (next_own side.old.known.view entries.now) side.new.known.view }
{
    // (each step by its name, and no loop over the machine: so no step is looked up when it runs)
    let _ = Opening::Serial.step(shape, here, side, entries);
    let _ = Opening::Length.step(shape, here, side, entries);
    for at in 0..entries.len() {
        let _ = Opening::Cell(at).step(shape, here, side, entries);
        let _ = Opening::Old(at).step(shape, here, side, entries);
        let _ = Opening::New(at).step(shape, here, side, entries);
    }
    let _ = Opening::Open.step(shape, here, side, entries);
}

/// Goes about the own open descriptor until it is decided and released, and answers how it ended:
/// the second part of a K-CAS.
#[inline(always)]
pub fn carry_out<R: Wait>(
    rt: &R,
    shape: &Shape,
    here: &mut OnTable,
    side: &mut Side,
    own: OpenDesc<'_>,
) -> Ended
    requires trusts { Trusts Sits shape.now here.old side.old.known.view }
    requires own { KnowsOwn side.old.known.view (opened_by (Some own)) }
    requires owes { OwesNothing side.old.known.view }
    ensures { HasCarriedOut shape.now (own_of own.entry) here.old side.old.known.view result
        here.new side.new.known.view }
{
    let mut machine = Machine::about(Ref {
        worker: side.worker,
        number: own.number,
    });
    if !install(shape, here, side, own, &mut machine) {
        return carry_on_copy(rt, shape, here, side, own, &machine);
    }
    match release(shape, here, side, own, &mut machine) {
        Some(ended) => ended,
        None => carry_on_copy(rt, shape, here, side, own, &machine),
    }
}

/// Installs the entries and decides, by the steps of a worker that meets no other, in their order.
/// Answers whether it came to the end: else another step is next.
#[inline(always)]
fn install(
    shape: &Shape,
    here: &mut OnTable,
    side: &mut Side,
    own: OpenDesc<'_>,
    machine: &mut Machine,
) -> bool
    requires { MayGoOn Sits Sits shape.now (opened_by (Some own)) (work_of machine.old) here.old
        side.old.known.view }
    ensures { GoesOn shape.now (own_of own.entry) here.old side.old.known.view
        (work_of machine.new) here.new side.new.known.view }
{
    go::<ReadControl>(At::Control, shape, here, side, own, machine);
    for _ in 0..own.entries.len() {
        if !install_entry(shape, here, side, own, machine) {
            return false;
        }
    }
    go::<Succeed>(At::Succeed, shape, here, side, own, machine)
}

/// The same with the next entry.
#[inline(always)]
fn install_entry(
    shape: &Shape,
    here: &mut OnTable,
    side: &mut Side,
    own: OpenDesc<'_>,
    machine: &mut Machine,
) -> bool
    requires { MayGoOn Sits Sits shape.now (opened_by (Some own)) (work_of machine.old) here.old
        side.old.known.view }
    ensures { GoesOn shape.now (own_of own.entry) here.old side.old.known.view
        (work_of machine.new) here.new side.new.known.view }
{
    go_kept(At::MarkSerial, shape, here, side, own, machine);
    go_kept(At::MarkDesc, shape, here, side, own, machine);
    go_kept(At::MarkEntry, shape, here, side, own, machine);
    go::<Place>(At::Place, shape, here, side, own, machine);
    go::<MarkControl>(At::MarkControl, shape, here, side, own, machine);
    go::<Promote>(At::Promote, shape, here, side, own, machine);
    go::<Recheck>(At::Recheck, shape, here, side, own, machine)
}

/// Makes the step of this stage where it is the next one, and answers whether it was.
#[inline(always)]
fn go<'a, S: Stage<OnTable<'a>>>(
    at: At,
    shape: &Shape,
    here: &mut OnTable<'a>,
    side: &mut Side,
    own: OpenDesc<'_>,
    machine: &mut Machine,
) -> bool
    requires stage { at ≡ S.at }
    requires goes { MayGoOn Sits Sits shape.now (opened_by (Some own)) (work_of machine.old)
        here.old side.old.known.view }
    requires at { at ≢ stage.Release }
    ensures { GoesOn shape.now (own_of own.entry) here.old side.old.known.view
        (work_of machine.new) here.new side.new.known.view }
{
    match machine.step_at::<_, S>(at, shape, here, side, own) {
        Some(Progress::On) => true,
        // (only a Release closes it)
        Some(Progress::Closed(_)) => unreachable!(),
        // (an own descriptor is open)
        Some(Progress::Over | Progress::Spent) => unreachable!(),
        None => false,
    }
}

/// The same of a stage after which there is one next stage.
#[inline(always)]
fn go_kept(
    at: At,
    shape: &Shape,
    here: &mut OnTable,
    side: &mut Side,
    own: OpenDesc<'_>,
    machine: &mut Machine,
) -> bool
    requires stage { IsKept (work_at at machine.old) }
    requires goes { MayGoOn Sits Sits shape.now (opened_by (Some own)) (work_of machine.old)
        here.old side.old.known.view }
    ensures { GoesOn shape.now (own_of own.entry) here.old side.old.known.view
        (work_of machine.new) here.new side.new.known.view }
{
    machine.step_kept_at(at, shape, here, side)
}

/// Releases the entries of the decided descriptor, and answers how it ended; or none where another
/// step is next.
#[inline(always)]
fn release(
    shape: &Shape,
    here: &mut OnTable,
    side: &mut Side,
    own: OpenDesc<'_>,
    machine: &mut Machine,
) -> Option<Ended>
    requires { MayGoOn Sits Sits shape.now (opened_by (Some own)) (work_of machine.old) here.old
        side.old.known.view }
    ensures { MatchOption result
        (GoesOn shape.now (own_of own.entry) here.old side.old.known.view (work_of machine.new)
        here.new side.new.known.view)
        (λ ended. HasCarriedOut shape.now (own_of own.entry) here.old side.old.known.view ended
        here.new side.new.known.view) }
{
    for _ in 0..own.entries.len() {
        match machine.step_at::<_, Release>(At::Release, shape, here, side, own) {
            Some(Progress::On) => {}
            Some(Progress::Closed(ended)) => return Some(ended),
            // (an own descriptor is open)
            Some(Progress::Over | Progress::Spent) => unreachable!(),
            None => return None,
        }
    }
    None
}

/// Goes on with it where another worker was met, apart and on copies: so the machine of who meets
/// none may be kept in registers, and the shape too.
#[inline(always)]
fn carry_on_copy<R: Wait>(
    rt: &R,
    shape: &Shape,
    here: &mut OnTable,
    side: &mut Side,
    own: OpenDesc<'_>,
    machine: &Machine,
) -> Ended
    requires { MayGoOn Sits Sits shape.now (opened_by (Some own)) (work_of machine.now) here.old
        side.old.known.view }
    ensures { HasCarriedOut shape.now (own_of own.entry) here.old side.old.known.view result
        here.new side.new.known.view }
{
    let apart = *shape;
    let mut machine = *machine;
    carry_on(rt, &apart, here, side, own, &mut machine)
}

#[cold]
#[inline(never)]
fn carry_on<R: Wait>(
    rt: &R,
    shape: &Shape,
    here: &mut OnTable,
    side: &mut Side,
    own: OpenDesc<'_>,
    machine: &mut Machine,
) -> Ended
    requires { MayGoOn Sits Sits shape.now (opened_by (Some own)) (work_of machine.old) here.old
        side.old.known.view }
    ensures { HasCarriedOut shape.now (own_of own.entry) here.old side.old.known.view result
        here.new side.new.known.view }
{
    for _ in rt.forever() {
        match machine.step(shape, here, side, Some(own)) {
            Progress::On => {}
            Progress::Closed(ended) => return ended,
            // (an own descriptor is open)
            Progress::Over | Progress::Spent => unreachable!(),
        }
    }
    unreachable!()
}
