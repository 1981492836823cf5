//! Where a worker stands between two of its steps.

ghost use Rattle.std.specs.Prelude.{◌≡◌};
ghost use Rattle.rh_helping.specs.declared.looking.Watch.TheVariants as watch;
ghost use Rattle.rh_worker.specs.Worker.{kind_of_stage};
ghost use Rattle.rh_worker.specs.declared.stage.KeyStage.TheVariants as stage;

use rh_helping::{Machine, Opening, Watch};
use rh_words::StepKind;

/// An own descriptor that is to be opened, or is open. Its entries stand in the worker's
/// `ScanBuffer`.
#[derive(Clone, Copy)]
pub struct Plan {
    /// How many entries it has.
    pub entries: usize,
    /// Whether it changes a cell. One that shows that a key is not there does not.
    pub changes: bool,
}

/// The next step of a worker. What it needs of cells and descriptors is in the worker's machine.
#[derive(Clone, Copy)]
pub enum KeyStage {
    /// None: no key is begun.
    Idle,
    /// None before the next round, which begins the key again.
    Spent,
    /// Looking at the next cell, where so many were seen from the key's home on.
    Scan { watch: Watch, seen: usize },
    /// Opening of the own descriptor.
    Open { opening: Opening, plan: Plan },
    /// Work on the own descriptor that was opened with this number, and on those that it leads to.
    Swap { number: u64, plan: Plan },
}

impl KeyStage {
    /// Read of the next cell, where so many were seen.
    pub(crate) fn reading(seen: usize) -> KeyStage
        ensures { result ≡ stage.Scan watch.Read seen }
    {
        KeyStage::Scan {
            watch: Watch::Read,
            seen,
        }
    }

    /// The kind of the step. Where there is none, a Read.
    #[inline(always)]
    pub(crate) fn kind(&self, machine: &Machine) -> StepKind
        ensures { result ≡ kind_of_stage machine.now self.now }
    {
        match self {
            KeyStage::Idle | KeyStage::Spent => StepKind::Read,
            KeyStage::Scan { watch, .. } => machine.kind_as(*watch),
            KeyStage::Open { opening, .. } => opening.kind(),
            KeyStage::Swap { .. } => machine.kind(),
        }
    }
}
