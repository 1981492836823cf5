//! Releasing a decided descriptor.

ghost use Rattle.std.specs.Prelude.{◌≡◌, ℕ, Some};
ghost use Rattle.rh_helping.specs.declared.machine.At.TheVariants as stage;
ghost use Rattle.rh_helping.specs.Goal.{owed_after, released_value};
ghost use Rattle.rh_helping.specs.Work.{IsOver, ended_as};
ghost use Rattle.rh_tagword.specs.declared.control.State.TheVariants.{Failed};

use crate::goal::{OpenDesc, Owed, Task};
use crate::machine::{Ended, Machine, Progress};
use crate::stage::Stage;
use rh_carrier::Steps;
use rh_tagword::State;
use rh_words::{Request, Shape, Side};

/// Releases an entry. With the last one the own descriptor is closed, if it is that one that was
/// open.
pub struct Release;

impl<T: Steps> Stage<T> for Release {
    ghost at = { stage.Release };

    #[inline(always)]
    fn request(machine: &Machine) -> Request {
        Request::Release {
            piece: machine.piece(),
            state: Some(machine.task.state),
            value: released_value(machine.task.state, machine.change.old, machine.change.new),
        }
    }

    #[inline(always)]
    fn after(
        machine: &mut Machine,
        shape: &Shape,
        table: &mut T,
        side: &Side,
        opens: Option<OpenDesc<'_>>,
        _found: u64,
    ) -> Progress {
        let task = machine.task;
        machine.task.owed = owed_after(task.owed, machine.change.cell);
        machine.task.entry = task.entry + 1;
        if task.entry + 1 < task.size {
            machine.at_entry(shape, table, side, opens)
        } else if machine.is_open(side, opens) {
            Progress::Closed(end_of(task))
        } else {
            machine.resume(side, opens)
        }
    }
}

/// What the cell gets: the new value if the descriptor succeeded, else the old one.
#[inline(always)]
fn released_value(state: State, old: u64, new: u64) -> u64
    ensures { result ≡ released_value state old new }
{
    match state {
        State::Succeeded => new,
        _ => old,
    }
}

/// The cell that is still owed after a Release there.
#[inline(always)]
fn owed_after(owed: Option<Owed>, cell: usize) -> Option<Owed>
    ensures { result ≡ owed_after owed cell }
{
    match owed {
        Some(owed) => {
            if owed.piece.cell == cell {
                None
            } else {
                Some(owed)
            }
        }
        None => None,
    }
}

/// How the own open descriptor ended, which is this task.
#[inline(always)]
fn end_of(task: Task) -> Ended
    requires over { IsOver task.state }
    requires reason { (by : ℕ) → task.state ≡ Failed by → (e : ℕ) × (task.reason ≡ Some e) }
    ensures { result ≡ ended_as task.state task.reason }
{
    match task.state {
        State::Succeeded => Ended::Succeeded,
        State::Withdrawn => Ended::Withdrawn,
        State::Failed { .. } => match task.reason {
            Some(entry) => Ended::Failed { entry },
            // (its decider's reason was read)
            None => unreachable!(),
        },
        State::Unused | State::Undecided => unreachable!(),
    }
}

/// Puts the old value of an entry back, should its descriptor, that is stale, stand in its cell,
/// and leaves it.
/// So does who knew that it succeeded: then it stands in no cell, and the Release finds nothing.
pub(crate) struct GiveBack;

impl<T: Steps> Stage<T> for GiveBack {
    ghost at = { stage.GiveBack };

    #[inline(always)]
    fn request(machine: &Machine) -> Request {
        Request::Release {
            piece: machine.piece(),
            state: None,
            value: machine.change.old,
        }
    }

    #[inline(always)]
    fn after(
        machine: &mut Machine,
        _shape: &Shape,
        _table: &mut T,
        side: &Side,
        opens: Option<OpenDesc<'_>>,
        _found: u64,
    ) -> Progress {
        machine.resume(side, opens)
    }
}
