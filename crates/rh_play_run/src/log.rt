//! What is told of a play so far.

ghost use Rattle.std.specs.Prelude.{◌≡◌, ◌<◌, [], ◌∷◌, IsFalse, IsTrue, OnOk};
ghost use Rattle.rh_play_run.specs.Pieces.{MayBeTold, TellsPieces, round_pieces, turn_pieces};
ghost use Rattle.rh_play_run.specs.Pieces.LogEntry.{step as step_piece};
ghost use Rattle.rh_play_run.specs.declared.limits.TheConstants.{MAX_TOLD};

use crate::limits::MAX_TOLD;
use rh_draw::Record;
use rh_recorder::Touched;
use rh_trace::{Traced, push_step};
use rh_turns::Turn;
use rh_words::StepKind;
use std::alloc::{AllocError, Global};

/// How much is told of a play.
#[derive(Clone, Copy, Debug, PartialEq, Eq)]
pub enum Telling {
    /// The lines of its schedule.
    Orders,
    /// These, and before each of them a line for each of its steps.
    Steps,
    /// The lines of its schedule; and the steps and the further rounds are kept as records.
    Records,
}

/// Whether all of these steps are told, where so much is told of a play.
pub(crate) fn is_told(telling: Telling, steps: u64) -> bool
    ensures told { IsTrue result → MayBeTold telling steps }
    ensures long { IsFalse result → (MAX_TOLD < steps) × ¬ MayBeTold telling steps }
{
    match telling {
        Telling::Orders => true,
        Telling::Steps | Telling::Records => steps <= MAX_TOLD,
    }
}

/// What is told of a play so far, and how many steps were made. Their count stops at the greatest
/// `u64`. No step behind the last one that may be told is kept.
#[derive(Drop)]
pub(crate) struct Log {
    pub(crate) telling: Telling,
    pub(crate) text: Vec<u8>,
    pub(crate) records: Vec<Record>,
    /// With the records: for each step at a control, the key that its worker does.
    pub(crate) keys: Vec<Option<u64>>,
    pub(crate) steps: u64,
}

impl Log {
    pub(crate) fn new(alloc: Global, telling: Telling) -> Log
        ensures telling { result.telling ≡ telling }
        ensures text { result.text.items ≡ [] }
        ensures records { result.records.items ≡ [] }
        ensures steps { result.steps ≡ 0 }
    {
        Log {
            telling,
            text: Vec::new(alloc),
            records: Vec::new(alloc),
            keys: Vec::new(alloc),
            steps: 0,
        }
    }

    /// Tells a turn of this worker.
    pub(crate) fn take(
        &mut self,
        worker: usize,
        turn: Turn,
        touched: Option<Touched>,
    ) -> Result<(), AllocError>
        ensures { OnOk result (TellsPieces self.old (turn_pieces worker turn touched) self.new) }
    {
        match (turn, touched) {
            (Turn::Did(kind), Some(touched)) => self.step(worker, kind, touched),
            _ => Ok(()),
        }
    }

    fn step(&mut self, worker: usize, kind: StepKind, touched: Touched) -> Result<(), AllocError>
        ensures { OnOk result
            (TellsPieces self.old (step_piece worker kind touched ∷ []) self.new) }
    {
        self.steps = self.steps.saturating_add(1);
        if !is_told(self.telling, self.steps) {
            return Ok(());
        }
        let step = Traced {
            number: self.steps,
            worker,
            kind,
            touched,
        };
        match self.telling {
            Telling::Orders => Ok(()),
            Telling::Steps => push_step(&mut self.text, &step),
            Telling::Records => Ok(self.records.push(Record::Step(step))?),
        }
    }

    /// Keeps the key that the step of a turn does, if one was made, beside its record.
    pub(crate) fn keep(&mut self, made: bool, key: Option<u64>) -> Result<(), AllocError>
        ensures { OnOk result (TellsPieces self.old [] self.new) }
    {
        if made && self.telling == Telling::Records && self.steps <= MAX_TOLD {
            self.keys.push(key)?;
        }
        Ok(())
    }

    /// Tells of a further round, where it began.
    pub(crate) fn begin_round(&mut self, began: bool) -> Result<(), AllocError>
        ensures { OnOk result (TellsPieces self.old (round_pieces began) self.new) }
    {
        if began && self.telling == Telling::Records {
            let next = self.steps.saturating_add(1);
            self.records.push(Record::Round { next })?;
        }
        Ok(())
    }
}
