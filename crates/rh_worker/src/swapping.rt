//! An own descriptor, from its opening to its end.

ghost use Rattle.std.specs.Prelude.{◌≡◌, List, None};
ghost use Rattle.rh_order.specs.Advance.{Advances};
ghost use Rattle.rh_worker.specs.Makes.{MakesStep};
ghost use Rattle.rh_carrier.specs.Relies.{Relies};
ghost use Rattle.rh_worker.specs.Worker.{EndsAt, GivesUp, IsAtStage, IsWorker, KeepsKey};
ghost use Rattle.rh_worker.specs.Reading.{HasScanned, ReadsAnew};
ghost use Rattle.rh_worker.specs.declared.stage.KeyStage.TheVariants as stage;
ghost use Rattle.rh_acts.specs.Done.{Kept};
ghost use Rattle.rh_helping.specs.Opening.{kind_of_opening};
ghost use Rattle.rh_helping.specs.Work.{kind_of_work};
ghost use Rattle.rh_helping.specs.Machine.{work_of};

use crate::stage::{KeyStage, Plan};
use crate::worker::Worker;
use rh_carrier::Steps;
use rh_helping::{Ended, OpenDesc, Opening, Progress};
use rh_words::{Ref, Shape};

/// Opens the own descriptor step by step.
#[inline(always)]
pub(crate) fn open<T: Steps>(
    worker: &mut Worker,
    shape: &Shape,
    table: &mut T,
    opening: Opening,
    plan: Plan,
)
    requires relies { Relies T.shows T.serves shape.now table.old worker.old.side.known.view }
    requires worker { IsAtStage shape.now worker.old (stage.Open opening plan) }
    ensures makes { MakesStep T.shows T.made shape.now
        (kind_of_opening opening) table.old worker.old.side.known.view
        table.new worker.new.side.known.view }
    ensures worker { IsWorker shape.now worker.new }
    ensures keeps { KeepsKey worker.old worker.new }
    ensures advances { Advances shape.now worker.old.kind worker.old.key worker.old.side.known.view
        worker.new.side.known.view None }
    ensures ends { EndsAt None worker.new.stage }
    ensures anew { (before : List Kept) →
        HasScanned shape.now before worker.old.side.known.view worker.old.key
        worker.old.buffer.seen.items 0 → ReadsAnew shape.now before worker.new }
{
    let desc = Ref {
        worker: worker.side.worker,
        number: worker.side.next_number,
    };
    let entries = &worker.buffer.entries[..plan.entries];
    match opening.step(shape, table, &mut worker.side, entries) {
        Some(opening) => worker.stage = KeyStage::Open { opening, plan },
        None => {
            worker.machine.go_about(desc);
            worker.stage = KeyStage::Swap {
                number: desc.number,
                plan,
            };
        }
    }
}

/// Goes on with it. Where it is over, the key is done, or begins again, or the worker is spent.
/// Answers whether the key is done, and how.
#[inline(always)]
pub(crate) fn swap<T: Steps>(
    worker: &mut Worker,
    shape: &Shape,
    table: &mut T,
    number: u64,
    plan: Plan,
) -> Option<bool>
    requires relies { Relies T.shows T.serves shape.now table.old worker.old.side.known.view }
    requires worker { IsAtStage shape.now worker.old (stage.Swap number plan) }
    ensures makes { MakesStep T.shows T.made shape.now
        (kind_of_work (work_of worker.old.machine)) table.old worker.old.side.known.view
        table.new worker.new.side.known.view }
    ensures worker { IsWorker shape.now worker.new }
    ensures keeps { KeepsKey worker.old worker.new }
    ensures advances { Advances shape.now worker.old.kind worker.old.key worker.old.side.known.view
        worker.new.side.known.view result }
    ensures ends { EndsAt result worker.new.stage }
    ensures gives_up { GivesUp worker.old.side.known.view worker.new.side.known.view →
        worker.new.stage ≡ stage.Spent }
    ensures anew { (before : List Kept) →
        HasScanned shape.now before worker.old.side.known.view worker.old.key
        worker.old.buffer.seen.items 0 → ReadsAnew shape.now before worker.new }
{
    let open = OpenDesc {
        number,
        entries: &worker.buffer.entries[..plan.entries],
    };
    match worker
        .machine
        .step(shape, table, &mut worker.side, Some(open))
    {
        Progress::On => {
            worker.stage = KeyStage::Swap { number, plan };
            None
        }
        Progress::Closed(Ended::Succeeded) => {
            worker.stage = KeyStage::Idle;
            Some(plan.changes)
        }
        Progress::Closed(Ended::Withdrawn) => {
            worker.stage = KeyStage::Spent;
            None
        }
        Progress::Closed(Ended::Failed { .. }) => {
            worker.stage = KeyStage::reading(0);
            None
        }
        Progress::Over | Progress::Spent => unreachable!(),
    }
}
