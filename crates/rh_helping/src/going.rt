//! Which step is next.

ghost use Rattle.std.specs.Prelude.{◌≡◌, ◌⊎◌, Some, Decides, MatchOption};
ghost use Rattle.rh_words.specs.Words.{ref_of};
ghost use Rattle.rh_words.specs.declared.shape.Shape.{Shape};
ghost use Rattle.rh_carrier.specs.Own.{KnowsOwn, OwesNothing, open_number};
ghost use Rattle.rh_helping.specs.Goal.{HasReason, IsMet, KnowsGoal, opened_by};
ghost use Rattle.rh_helping.specs.Machine.{goal_of, led};
ghost use Rattle.rh_helping.specs.Next.{Work};
ghost use Rattle.rh_helping.specs.Work.{Begins, HasFailedOwn, IsNextTask, Leads, MayEnd, Owes, ReleasesLast, desc_of, failed_by};
ghost use Rattle.rh_helping.specs.Stepping.{ComesTo, IsBetween};
ghost use Rattle.rh_world.specs.World.{In};
ghost use Rattle.rh_world.specs.Facts.Fact.{stale};

use crate::goal::{OpenDesc, Task};
use crate::machine::{At, Machine, Progress};
use crate::own_rows::{own_entry, own_size};
use rh_carrier::Steps;
use rh_tagword::State;
use rh_words::{Ref, Shape, Side};

impl Machine {
    /// The next step on a descriptor that stands so by its control. What an own one is to change is
    /// known without a Read.
    #[inline(always)]
    pub(crate) fn start<T: Steps>(
        &mut self,
        shape: &Shape,
        table: &mut T,
        side: &Side,
        opens: Option<OpenDesc<'_>>,
        state: State,
    ) -> Progress
        requires between { IsBetween T.shows shape.now (opened_by opens) table.old
            side.now.known.view }
        requires owes { OwesNothing side.now.known.view }
        requires met { IsMet side.now.known.view (ref_of self.old.task.desc) state 0 }
        ensures { (w : Work) → ComesTo shape.now (opened_by opens.entry) w table.old
            side.now.known.view (led result self.new) table.new }
    {
        let desc = self.task.desc;
        if desc.worker != side.worker {
            self.task.state = state;
            self.at = At::Length;
            return Progress::On;
        }
        let size = own_size(shape, table, side, opens, desc);
        self.task = Task::new(desc, size, state);
        self.begin(shape, table, side, opens)
    }

    /// The first step on a task. Where the own open descriptor failed, its decider's reason tells
    /// at which entry.
    #[inline(always)]
    pub(crate) fn begin<T: Steps>(
        &mut self,
        shape: &Shape,
        table: &mut T,
        side: &Side,
        opens: Option<OpenDesc<'_>>,
    ) -> Progress
        requires between { IsBetween T.shows shape.now (opened_by opens) table.old
            side.now.known.view }
        requires begins { Begins side.now.known.view self.old.task }
        ensures { (w : Work) → ComesTo shape.now (opened_by opens.entry) w table.old
            side.now.known.view (led result self.new) table.new }
    {
        match self.failed_own(side, opens) {
            Some(decider) => {
                self.decider = decider as usize;
                self.at = At::ReadReason;
                Progress::On
            }
            None => self.at_entry(shape, table, side, opens),
        }
    }

    /// Who decided that the own open descriptor failed, if this is it, and it did.
    #[inline(always)]
    fn failed_own(&self, side: &Side, opens: Option<OpenDesc<'_>>) -> Option<u64>
        requires own { KnowsOwn side.now.known.view (opened_by opens) }
        ensures { MatchOption result (HasReason side.now.known.view self.now.task)
            (λ by. HasFailedOwn side.now.known.view self.now.task by) }
    {
        if self.is_open(side, opens) {
            failed_by(self.task.state)
        } else {
            None
        }
    }

    /// Whether the descriptor is the own one that is open.
    #[inline(always)]
    pub(crate) fn is_open(&self, side: &Side, opens: Option<OpenDesc<'_>>) -> bool
        ensures { Decides result ((self.now.task.desc.worker ≡ side.now.worker)
            × (open_number (opened_by opens.entry) ≡ Some self.now.task.desc.number)) }
    {
        let desc = self.task.desc;
        desc.worker == side.worker && opens.is_some_and(|open| open.number == desc.number)
    }

    /// The next step on a task: on its next entry, or, where all are installed, its decision.
    #[inline(always)]
    pub(crate) fn at_entry<T: Steps>(
        &mut self,
        shape: &Shape,
        table: &mut T,
        side: &Side,
        opens: Option<OpenDesc<'_>>,
    ) -> Progress
        requires between { IsBetween T.shows shape.now (opened_by opens) table.old
            side.now.known.view }
        requires next { IsNextTask side.now.known.view self.old.task }
        ensures { (w : Work) → ComesTo shape.now (opened_by opens.entry) w table.old
            side.now.known.view (led result self.new) table.new }
    {
        let task = self.task;
        if task.entry == task.size {
            self.at = At::Succeed;
            Progress::On
        } else if task.desc.worker == side.worker {
            self.change = own_entry(shape, table, side, opens, task);
            self.ready(shape, side, opens)
        } else {
            self.at = At::EntryCell;
            Progress::On
        }
    }

    /// The next step on an entry that is known: a mark is placed for it, or it is released.
    #[inline(always)]
    pub(crate) fn ready(
        &mut self,
        shape: &Shape,
        side: &Side,
        opens: Option<OpenDesc<'_>>,
    ) -> Progress
        requires own { KnowsOwn side.now.known.view (opened_by opens) }
        requires goal { KnowsGoal side.now.known.view (goal_of self.old) }
        requires owes { Owes side.now.known.view self.old.task }
        requires reason { HasReason side.now.known.view self.old.task }
        ensures leads { Leads shape.now side.now.known.view (opened_by opens.entry)
            (led result self.new) }
        ensures ends { (w : Work) → MayEnd side.now.known.view w (led result self.new) }
    {
        if self.task.state.is_decided() {
            self.at = At::Release;
            Progress::On
        } else if side.marks_used < shape.rooms.marks {
            self.at = At::MarkSerial;
            Progress::On
        } else {
            match opens {
                Some(open) => {
                    self.task.desc = Ref {
                        worker: side.worker,
                        number: open.number,
                    };
                    self.at = At::Withdraw;
                    Progress::On
                }
                None => Progress::Spent,
            }
        }
    }

    /// The next step after a descriptor that was met: the own open one is begun again, if there is
    /// one.
    #[inline(always)]
    pub(crate) fn resume(&mut self, side: &Side, opens: Option<OpenDesc<'_>>) -> Progress
        requires own { KnowsOwn side.now.known.view (opened_by opens) }
        requires owes { OwesNothing side.now.known.view }
        ensures leads { (z : Shape) →
            Leads z side.now.known.view (opened_by opens.entry) (led result self.new) }
        ensures ends { (w : Work) → ReleasesLast w
            ⊎ In (stale (ref_of (desc_of w))) side.now.known.view.side.facts
            → MayEnd side.now.known.view w (led result self.new) }
    {
        match opens {
            Some(open) => {
                self.task.desc = Ref {
                    worker: side.worker,
                    number: open.number,
                };
                self.at = At::Control;
                Progress::On
            }
            None => Progress::Over,
        }
    }
}

/// Who decided that a descriptor failed, if it did.
#[inline(always)]
fn failed_by(state: State) -> Option<u64>
    ensures { result ≡ failed_by state }
{
    match state {
        State::Failed { decider } => Some(decider),
        _ => None,
    }
}
