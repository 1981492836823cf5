//! The steps of a machine. Which one is next stands in the machine; each is a stage, and is made
//! alike.

ghost use Rattle.std.specs.Prelude.{◌≡◌, IfSome, IsFalse, IsTrue, None, Option, Some};
ghost use Rattle.rh_words.specs.View.{OwnDesc};
ghost use Rattle.rh_carrier.specs.Own.{KnowsOwn};
ghost use Rattle.rh_carrier.specs.Relies.{Relies};
ghost use Rattle.rh_helping.specs.Goal.{opened_by};
ghost use Rattle.rh_helping.specs.Keeping.{IsKept};
ghost use Rattle.rh_helping.specs.Machine.{led, work_at, work_of};
ghost use Rattle.rh_helping.specs.Next.StageOutcome.{On};
ghost use Rattle.rh_helping.specs.Stepping.{HasGoneOn, MayGoOn};
ghost use Rattle.rh_helping.specs.Work.{Stands};

use crate::deciding::{ReadReason, Succeed, Withdraw};
use crate::entering::{EntrySerial, LengthSerial, ReadControl};
use crate::goal::OpenDesc;
use crate::holding::{Demote, MarkControl, Place, Promote, Recheck, Settle};
use crate::machine::{At, Machine, Progress};
use crate::releasing::{GiveBack, Release};
use crate::stage::Stage;
use rh_carrier::Steps;
use rh_words::{Shape, Side};

impl Machine {
    /// Makes the step of this stage where it is the next one, and answers what it leads to; else it
    /// does nothing. Who knows which steps follow one another names them, so none is looked up when
    /// it runs, and the machine may be kept in registers. `own` is the own descriptor that is open.
    #[inline(always)]
    pub fn step_at<T: Steps, S: Stage<T>>(
        &mut self,
        at: At,
        shape: &Shape,
        table: &mut T,
        side: &mut Side,
        own: OpenDesc<'_>,
    ) -> Option<Progress>
        requires stage { at ≡ S.at }
        requires goes { MayGoOn T.shows T.serves shape.now (opened_by (Some own))
            (work_of self.old) table.old side.old.known.view }
        ensures at { IfSome result (λ on. self.old.at ≡ at) }
        ensures same { result ≡ None → (self.new ≡ self.old) × (table.new ≡ table.old)
            × (side.new ≡ side.old) }
        ensures goes { IfSome result (λ on. HasGoneOn T.shows T.made shape.now
            (opened_by (Some own.entry)) (work_of self.old) table.old side.old.known.view
            (led on self.new) table.new side.new.known.view) }
    {
        if self.at != at {
            return None;
        }
        Some(self.make::<T, S>(shape, table, side, Some(own)))
    }

    /// The same of a stage after which there is one next stage; it answers whether it was made.
    #[inline(always)]
    pub fn step_kept_at<T: Steps>(
        &mut self,
        at: At,
        shape: &Shape,
        table: &mut T,
        side: &mut Side,
    ) -> bool
        requires stage { IsKept (work_at at self.old) }
        requires relies { Relies T.shows T.serves shape.now table.old side.old.known.view }
        requires stands { Stands shape.now side.old.known.view (work_of self.old) }
        ensures same { IsFalse result → (self.new ≡ self.old) × (table.new ≡ table.old)
            × (side.new ≡ side.old) }
        ensures goes { IsTrue result → (opens : Option OwnDesc)
            → KnowsOwn side.old.known.view opens
            → HasGoneOn T.shows T.made shape.now opens (work_of self.old) table.old
            side.old.known.view (On (work_of self.new)) table.new side.new.known.view }
    {
        let is_next = self.at == at;
        if is_next {
            self.make_kept(at, shape, table, side);
        }
        is_next
    }

    /// Makes the next step, and answers what it leads to. `opens` is the own descriptor that is
    /// open, if one is. (It is called apart, so that what calls it stays small.)
    #[inline(never)]
    pub fn step<T: Steps>(
        &mut self,
        shape: &Shape,
        table: &mut T,
        side: &mut Side,
        opens: Option<OpenDesc<'_>>,
    ) -> Progress
        requires { MayGoOn T.shows T.serves shape.now (opened_by opens) (work_of self.old)
            table.old side.old.known.view }
        ensures { HasGoneOn T.shows T.made shape.now (opened_by opens.entry) (work_of self.old)
            table.old side.old.known.view (led result self.new) table.new side.new.known.view }
    {
        match self.at {
            At::Control => self.make::<T, ReadControl>(shape, table, side, opens),
            At::LengthSerial => self.make::<T, LengthSerial>(shape, table, side, opens),
            At::EntrySerial => self.make::<T, EntrySerial>(shape, table, side, opens),
            At::Place => self.make::<T, Place>(shape, table, side, opens),
            At::Settle => self.make::<T, Settle>(shape, table, side, opens),
            At::MarkControl => self.make::<T, MarkControl>(shape, table, side, opens),
            At::Promote => self.make::<T, Promote>(shape, table, side, opens),
            At::Demote => self.make::<T, Demote>(shape, table, side, opens),
            At::Recheck => self.make::<T, Recheck>(shape, table, side, opens),
            At::Fail => self.fail(shape, table, side, opens),
            At::Succeed => self.make::<T, Succeed>(shape, table, side, opens),
            At::Withdraw => self.make::<T, Withdraw>(shape, table, side, opens),
            At::ReadReason => self.make::<T, ReadReason>(shape, table, side, opens),
            At::Release => self.make::<T, Release>(shape, table, side, opens),
            At::GiveBack => self.make::<T, GiveBack>(shape, table, side, opens),
            // (the others have one next stage)
            _ => {
                self.make_kept(self.at, shape, table, side);
                Progress::On
            }
        }
    }

    /// Makes the step of this stage.
    #[inline(always)]
    fn make<T: Steps, S: Stage<T>>(
        &mut self,
        shape: &Shape,
        table: &mut T,
        side: &mut Side,
        opens: Option<OpenDesc<'_>>,
    ) -> Progress
        requires { MayGoOn T.shows T.serves shape.now (opened_by opens) (work_at S.at self.old)
            table.old side.old.known.view }
        ensures { HasGoneOn T.shows T.made shape.now (opened_by opens.entry)
            (work_at S.at self.old) table.old side.old.known.view (led result self.new)
            table.new side.new.known.view }
    {
        let request = S::request(self);
        let found = table.make(shape, side, request);
        S::after(self, shape, table, side, opens, found)
    }
}
