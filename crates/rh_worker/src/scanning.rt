//! Scanning the cells from a key's home on, one Read after the other.

ghost use Rattle.std.specs.Prelude.{◌≡◌, ◌≤◌, IfSome, List, None, length, take};
ghost use Rattle.rh_order.specs.Advance.{Advances};
ghost use Rattle.rh_worker.specs.Makes.{MakesStep};
ghost use Rattle.rh_carrier.specs.Relies.{Relies};
ghost use Rattle.rh_worker.specs.Worker.{IsAtStage, IsWorker, KeepsKey};
ghost use Rattle.rh_worker.specs.declared.stage.KeyStage.TheVariants as stage;
ghost use Rattle.rh_acts.specs.Done.{IsAsRead, Kept};
ghost use Rattle.rh_worker.specs.Reading.{HasScanned, IsAsReadAnew, ReadsAnew, TellsAnew, seen_at};
ghost use Rattle.rh_order.specs.History.{kept_of};
ghost use Rattle.rh_carrier.specs.Own.{IsClear};
ghost use Rattle.rh_helping.specs.Looking.{kind_of_looking};
ghost use Rattle.rh_helping.specs.Machine.{looking_of};
ghost use Rattle.rh_worker.specs.Deciding.{IsPlan};
ghost use Rattle.rh_worker.specs.ScanBuffer.{HasRoom};
ghost use Rattle.rh_worker.specs.Worker.{EndsAt, Stays, WereRead};
ghost use Rattle.rh_words.specs.Parts.{cell_count};
ghost use Rattle.rh_layout.specs.Key.{IsKey};
ghost use Rattle.rh_rule.specs.Sound.{Sound};

use crate::deciding::Decision;
use crate::stage::{KeyStage, Plan};
use crate::worker::Worker;
use rh_carrier::Steps;
use rh_helping::{Opening, Sight, Watch};
use rh_layout::home;
use rh_probe::cell_after;
use rh_tagword::plain_value;
use rh_words::Shape;

/// Looks at the next cell, and goes by the value that it holds. Answers whether the key is done,
/// and how.
#[inline(always)]
pub(crate) fn scan<T: Steps>(
    worker: &mut Worker,
    shape: &Shape,
    table: &mut T,
    watch: Watch,
    seen: usize,
) -> Option<bool>
    requires relies { Relies T.shows T.serves shape.now table.old worker.old.side.known.view }
    requires worker { IsAtStage shape.now worker.old (stage.Scan watch seen) }
    ensures makes { MakesStep T.shows T.made shape.now
        (kind_of_looking (looking_of watch worker.old.machine)) table.old worker.old.side.known.view
        table.new worker.new.side.known.view }
    ensures worker { IsWorker shape.now worker.new }
    ensures keeps { KeepsKey worker.old worker.new }
    ensures advances { Advances shape.now worker.old.kind worker.old.key worker.old.side.known.view
        worker.new.side.known.view result }
    ensures ends { EndsAt result worker.new.stage }
    ensures anew { (before : List Kept) →
        HasScanned shape.now before worker.old.side.known.view worker.old.key
        worker.old.buffer.seen.items seen → ReadsAnew shape.now before worker.new ×
        TellsAnew shape.now before worker.old.kind worker.old.key worker.old.side.known.view
        worker.new.side.known.view result }
{
    let cell = cell_after(shape.cells(), home(shape.bits, worker.key), seen);
    match worker
        .machine
        .look(watch, shape, table, &mut worker.side, cell)
    {
        Sight::On(watch) => {
            worker.stage = KeyStage::Scan { watch, seen };
            None
        }
        Sight::Sees(word) => {
            // (a look ends with a plain word)
            let value = plain_value(word).unwrap();
            worker.buffer.see(seen, value);
            decide(worker, shape, seen + 1)
        }
        Sight::Spent => {
            worker.stage = KeyStage::Spent;
            None
        }
    }
}

/// Goes by what the cells that were seen lead to.
fn decide(worker: &mut Worker, shape: &Shape, count: usize) -> Option<bool>
    requires sound { Sound shape.now worker.old.side.known.view }
    requires key { IsKey worker.old.key }
    requires room { HasRoom shape.now.bits worker.old.buffer }
    requires clear { IsClear worker.old.side.known.view }
    requires count { count ≤ cell_count shape.now }
    requires seen { count ≤ length worker.old.buffer.seen.items }
    requires were_read { WereRead shape.now worker.old.side.known.view worker.old.key
        (take count worker.old.buffer.seen.items) }
    ensures worker { IsWorker shape.now worker.new }
    ensures same_view { worker.new.side.known.view ≡ worker.old.side.known.view }
    ensures keeps { KeepsKey worker.old worker.new }
    ensures ends { EndsAt result worker.new.stage }
    ensures answer { IfSome result (IsAsRead worker.old.kind shape.now.bits
        (kept_of shape.now worker.old.side.known.view) worker.old.key) }
    ensures anew { (before : List Kept) →
        HasScanned shape.now before worker.old.side.known.view worker.old.key
        worker.old.buffer.seen.items count → ReadsAnew shape.now before worker.new ×
        IfSome result
        (IsAsReadAnew shape.now before worker.new.side.known.view worker.old.kind worker.old.key) }
{
    let decision = worker
        .buffer
        .decide(worker.kind, shape.bits, worker.key, count);
    match decision {
        Decision::Done(answer) => {
            worker.stage = KeyStage::Idle;
            Some(answer)
        }
        Decision::Acts(plan) => {
            worker.stage = stage_for(worker, shape, plan);
            None
        }
        Decision::More => {
            let seen = if count < shape.cells() { count } else { 0 };
            worker.stage = KeyStage::reading(seen);
            None
        }
    }
}

/// The first step of an own descriptor, if there is a number left for it and a mark for its work.
fn stage_for(worker: &Worker, shape: &Shape, plan: Plan) -> KeyStage
    requires sound { Sound shape.now worker.now.side.known.view }
    requires clear { IsClear worker.now.side.known.view }
    requires plan { IsPlan worker.now.kind shape.now.bits worker.now.key
        worker.now.buffer.entries.items plan }
    ensures stays { Stays shape.now worker.now.side.known.view worker.now.kind worker.now.key
        worker.now.buffer worker.now.machine result }
    ensures ends { EndsAt None result }
    ensures unseen { seen_at result ≡ 0 }
{
    let side = &worker.side;
    if side.next_number < shape.rooms.descriptors && side.marks_used < shape.rooms.marks {
        KeyStage::Open {
            opening: Opening::Serial,
            plan,
        }
    } else {
        KeyStage::Spent
    }
}
