//! Deciding a descriptor. That it fails is told its owner first, by the own reason: a control says
//! no more than who decided.

ghost use Rattle.rh_helping.specs.declared.machine.At.TheVariants as stage;
ghost use Rattle.std.specs.Prelude.{◌≡◌};
ghost use Rattle.rh_helping.specs.Goal.{opened_by};
ghost use Rattle.rh_helping.specs.Machine.{led};
ghost use Rattle.rh_helping.specs.Next.{Work};
ghost use Rattle.rh_helping.specs.Requested.{FollowsDecide};
ghost use Rattle.rh_helping.specs.Stepping.{ComesTo, HasGoneOn, MayGoOn};
ghost use Rattle.rh_helping.specs.Work.{desc_of};
ghost use Rattle.rh_carrier.specs.Relies.{Trusts};

use crate::goal::{OpenDesc, Task};
use crate::machine::{At, Machine, Progress};
use crate::reading::state_by;
use crate::stage::Stage;
use rh_carrier::Steps;
use rh_tagword::State;
use rh_words::{Reading, Request, Shape, Side, decided_word};

/// Decides that the descriptor succeeded, unless it is decided. It is released in each case.
pub struct Succeed;

impl<T: Steps> Stage<T> for Succeed {
    ghost at = { stage.Succeed };

    #[inline(always)]
    fn request(machine: &Machine) -> Request {
        Request::Decide {
            desc: machine.task.desc,
            state: State::Succeeded,
        }
    }

    #[inline(always)]
    fn after(
        machine: &mut Machine,
        shape: &Shape,
        table: &mut T,
        side: &Side,
        opens: Option<OpenDesc<'_>>,
        found: u64,
    ) -> Progress {
        let control = decided_word(machine.task.desc, State::Succeeded, found);
        machine.after_decide(shape, table, side, opens, control)
    }
}

impl Machine {
    /// Decides that the task failed. It is no `Stage`: a failure names the worker that decides it.
    #[inline(always)]
    pub(crate) fn fail<T: Steps>(
        &mut self,
        shape: &Shape,
        table: &mut T,
        side: &mut Side,
        opens: Option<OpenDesc<'_>>,
    ) -> Progress
        requires { MayGoOn T.shows T.serves shape.now (opened_by opens) (Work.Fail self.old.task)
            table.old side.old.known.view }
        ensures { HasGoneOn T.shows T.made shape.now (opened_by opens.entry)
            (Work.Fail self.old.task) table.old side.old.known.view (led result self.new)
            table.new side.new.known.view }
    {
        let desc = self.task.desc;
        let state = State::Failed {
            decider: side.worker as u64,
        };
        let found = table.make(shape, side, Request::Decide { desc, state });
        let failed = decided_word(desc, state, found);
        self.after_decide(shape, table, side, opens, failed)
    }

    /// After a Decide of the task, which left this control: releases it, however it was decided, or
    /// leaves it where it is stale.
    #[inline(always)]
    fn after_decide<T: Steps>(
        &mut self,
        shape: &Shape,
        table: &mut T,
        side: &Side,
        opens: Option<OpenDesc<'_>>,
        control: u64,
    ) -> Progress
        requires trusts { Trusts T.shows shape.now table.old side.now.known.view }
        requires follows { FollowsDecide shape.now (opened_by opens) self.old.task control
            side.now.known.view }
        ensures { (w : Work) → desc_of w ≡ self.old.task.desc →
            ComesTo shape.now (opened_by opens.entry) w table.old side.now.known.view
            (led result self.new) table.new }
    {
        match state_by(self.task.desc, control) {
            Some(state) => {
                self.task = self.task.as_decided(state, None);
                self.begin(shape, table, side, opens)
            }
            None => self.resume(side, opens),
        }
    }
}

pub(crate) struct Withdraw;

impl<T: Steps> Stage<T> for Withdraw {
    ghost at = { stage.Withdraw };

    #[inline(always)]
    fn request(machine: &Machine) -> Request {
        Request::Decide {
            desc: machine.task.desc,
            state: State::Withdrawn,
        }
    }

    #[inline(always)]
    fn after(
        machine: &mut Machine,
        shape: &Shape,
        table: &mut T,
        side: &Side,
        opens: Option<OpenDesc<'_>>,
        found: u64,
    ) -> Progress {
        let desc = machine.task.desc;
        match state_by(desc, decided_word(desc, State::Withdrawn, found)) {
            Some(state) => machine.start(shape, table, side, opens, state),
            // (the row of the own open descriptor is of it)
            None => unreachable!(),
        }
    }
}

/// Reads the decider's reason before the entries are released, so that a swap ends with its last
/// Release in each case.
pub(crate) struct ReadReason;

impl<T: Steps> Stage<T> for ReadReason {
    ghost at = { stage.ReadReason };

    #[inline(always)]
    fn request(machine: &Machine) -> Request {
        Request::Read(Reading::Reason {
            desc: machine.task.desc,
            decider: machine.decider,
        })
    }

    #[inline(always)]
    fn after(
        machine: &mut Machine,
        shape: &Shape,
        table: &mut T,
        side: &Side,
        opens: Option<OpenDesc<'_>>,
        found: u64,
    ) -> Progress {
        machine.task.reason = Some(found);
        machine.at_entry(shape, table, side, opens)
    }
}
