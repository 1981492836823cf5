//! One worker: what it does next, key by key.

ghost use Rattle.std.specs.Prelude.{◌≡◌, ◌↔◌, ◌<◌, ◌⊎◌, ℕ, IfOk, IsTrue, List, []};
ghost use Rattle.rh_layout.specs.Key.{IsKey};
ghost use Rattle.rh_world.specs.World.{In};
ghost use Rattle.rh_words.specs.declared.shape.Shape.{Shape};
ghost use Rattle.rh_words.specs.View.{new_view, round_view};
ghost use Rattle.rh_words.specs.Steps.Step.{claims};
ghost use Rattle.rh_order.specs.Advance.{Advances};
ghost use Rattle.rh_worker.specs.Makes.{MakesStep};
ghost use Rattle.rh_carrier.specs.Relies.{Relies, Went};
ghost use Rattle.rh_worker.specs.Worker.{EndsAt, GivesUp, IsBusy, IsWorker, KeepsKey};
ghost use Rattle.rh_worker.specs.Reading.{ReadsAnew, TellsAnew};
ghost use Rattle.rh_acts.specs.Done.{Kept};
ghost use Rattle.rh_order.specs.History.{kept_of};
ghost use Rattle.rh_helping.specs.Held.{IsHeld};
ghost use Rattle.rh_worker.specs.declared.stage.KeyStage.TheVariants as stage;

use crate::scan_buffer::ScanBuffer;
use crate::stage::KeyStage;
use crate::{scanning, swapping};
use rh_carrier::Steps;
use rh_helping::{Machine, Owed};
use rh_ledger::Kind;
use rh_words::{Ref, Request, Shape, Side, StepKind};
use std::alloc::{AllocError, Global};

/// A worker that does keys one after the other.
#[derive(Drop)]
pub struct Worker {
    /// What it counts, and what it has done and knows.
    pub side: Side,
    /// What it does with each key.
    pub kind: Kind,
    /// The key that was begun last.
    pub key: u64,
    /// What it does next.
    pub stage: KeyStage,
    /// How it goes about what it meets, and about its own descriptor.
    pub machine: Machine,
    /// What it has seen of the table for the key.
    pub buffer: ScanBuffer,
}

/// A step that was made.
#[derive(Clone, Copy)]
pub struct Stepped {
    pub kind: StepKind,
    /// Where the key was done with it, the answer: whether the key was added, removed or found.
    pub done: Option<bool>,
}

impl Worker {
    /// A worker of a table that is made with these cells, given as words. No key is begun.
    pub fn new(
        alloc: Global,
        shape: &Shape,
        kind: Kind,
        worker: usize,
        cells: &[u64],
    ) -> Result<Worker, AllocError>
        ensures worker { IfOk result (IsWorker shape.now) }
        ensures idle { IfOk result (λ w. w.stage ≡ stage.Idle) }
        ensures kind { IfOk result (λ w. w.kind ≡ kind) }
        ensures view { IfOk result (λ w. w.side.known.view ≡ new_view cells.now worker) }
    {
        let buffer = ScanBuffer::new(alloc, shape.bits)?;
        Ok(Worker {
            side: Side::new(worker, cells),
            kind,
            key: 0,
            stage: KeyStage::Idle,
            machine: Machine::about(Ref { worker, number: 0 }),
            buffer,
        })
    }

    /// Whether no key is begun, or the last one is done.
    pub fn is_idle(&self) -> bool
        ensures { IsTrue result ↔ (self.now.stage ≡ stage.Idle) }
    {
        matches!(self.stage, KeyStage::Idle)
    }

    /// Whether no step is left before the next round.
    pub fn is_spent(&self) -> bool
        ensures { IsTrue result ↔ (self.now.stage ≡ stage.Spent) }
    {
        matches!(self.stage, KeyStage::Spent)
    }

    /// The cell where an own mark stands that is not settled yet, or where its descriptor may stand
    /// by the worker's doing.
    pub fn owed_cell(&self) -> Option<Owed>
        ensures { (z : Shape) → IsWorker z self.now → IsHeld self.now.side.known.view result }
    {
        match &self.stage {
            KeyStage::Scan { watch, .. } => self.machine.held_as(*watch),
            KeyStage::Swap { .. } => self.machine.owed_cell(),
            KeyStage::Idle | KeyStage::Spent | KeyStage::Open { .. } => None,
        }
    }

    /// Begins a key.
    pub fn begin(&mut self, key: u64)
        requires idle { self.old.stage ≡ stage.Idle }
        requires key { IsKey key }
        ensures worker { (z : Shape) → IsWorker z self.old → IsWorker z self.new }
        ensures busy { IsBusy self.new.stage }
        ensures same_view { self.new.side.known.view ≡ self.old.side.known.view }
        ensures same_kind { self.new.kind ≡ self.old.kind }
        ensures key { self.new.key ≡ key }
        ensures anew { (z : Shape) → ReadsAnew z (kept_of z self.new.side.known.view) self.new }
    {
        self.key = key;
        self.stage = KeyStage::reading(0);
    }

    /// Claims the next position in the list of keys, and answers it.
    pub fn claim<T: Steps>(&mut self, shape: &Shape, table: &mut T) -> u64
        requires relies { Relies T.shows T.serves shape.now table.old self.old.side.known.view }
        requires worker { IsWorker shape.now self.old }
        requires idle { self.old.stage ≡ stage.Idle }
        requires keys { (n : ℕ) → In n self.old.side.known.view.side.claims → n < shape.now.keys }
        ensures steps { Went T.shows T.made shape.now claims table.old self.old.side.known.view
            result table.new self.new.side.known.view }
        ensures worker { IsWorker shape.now self.new }
        ensures idle { self.new.stage ≡ stage.Idle }
        ensures keeps { KeepsKey self.old self.new }
    {
        table.make(shape, &mut self.side, Request::Claim)
    }

    /// A round begins with these cells, given as words. A spent worker begins its key again.
    pub fn begin_round(&mut self, cells: &[u64])
        requires { (self.old.stage ≡ stage.Idle) ⊎ (self.old.stage ≡ stage.Spent) }
        ensures worker { (z : Shape) → IsWorker z self.old → IsWorker z self.new }
        ensures idle { self.old.stage ≡ stage.Idle → self.new.stage ≡ stage.Idle }
        ensures again { self.old.stage ≡ stage.Spent → IsBusy self.new.stage }
        ensures view { self.new.side.known.view ≡ round_view cells.now self.old.side.known.view }
        ensures keeps { KeepsKey self.old self.new }
        ensures anew { (z : Shape) → self.old.stage ≡ stage.Spent → ReadsAnew z [] self.new }
    {
        self.side.begin_round(cells);
        if self.is_spent() {
            self.stage = KeyStage::reading(0);
        }
    }

    /// Makes the next step. With the one by which it gives up a key it is spent. A key that no act
    /// does is answered by what was read since it was begun.
    #[inline(always)]
    pub fn step<T: Steps>(&mut self, shape: &Shape, table: &mut T) -> Stepped
        requires relies { Relies T.shows T.serves shape.now table.old self.old.side.known.view }
        requires worker { IsWorker shape.now self.old }
        requires busy { IsBusy self.old.stage }
        ensures makes { MakesStep T.shows T.made shape.now result.kind table.old
            self.old.side.known.view
            table.new self.new.side.known.view }
        ensures worker { IsWorker shape.now self.new }
        ensures keeps { KeepsKey self.old self.new }
        ensures advances { Advances shape.now self.old.kind self.old.key self.old.side.known.view
            self.new.side.known.view result.done }
        ensures ends { EndsAt result.done self.new.stage }
        ensures gives_up { GivesUp self.old.side.known.view self.new.side.known.view →
            self.new.stage ≡ stage.Spent }
        ensures anew { (before : List Kept) → ReadsAnew shape.now before self.old →
            ReadsAnew shape.now before self.new
            × TellsAnew shape.now before self.old.kind self.old.key
            self.old.side.known.view self.new.side.known.view result.done }
    {
        let stage = self.stage;
        let kind = stage.kind(&self.machine);
        let done = match stage {
            KeyStage::Idle | KeyStage::Spent => unreachable!(),
            KeyStage::Scan { watch, seen } => scanning::scan(self, shape, table, watch, seen),
            KeyStage::Open { opening, plan } => {
                swapping::open(self, shape, table, opening, plan);
                None
            }
            KeyStage::Swap { number, plan } => swapping::swap(self, shape, table, number, plan),
        };
        Stepped { kind, done }
    }
}
