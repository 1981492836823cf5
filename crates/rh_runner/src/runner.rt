//! Who carries out the phases of a script.

ghost use Rattle.std.specs.Prelude.{◌≡◌, ◌≢◌, ◌+◌, ◌^◌, ◌<◌, ℕ, All, IfOk, OnOk, OnErr};
ghost use Rattle.std.specs.FinSet as set;
ghost use Rattle.std.specs.Thread.{IsSync};
ghost use Rattle.rh_layout.specs.Key.{IsKey};
ghost use Rattle.rh_layout.specs.Layout.{IsLayout, keys_of};
ghost use Rattle.rh_ledger.specs.Phase.{set_after, tally_of, looked_up, most_added};
ghost use Rattle.rh_runner.specs.Cells.{AreTheCells};
ghost use Rattle.rh_runner.specs.Starts.{CountsStarts};

use crate::lists::{LOOK_UPS, PHASE};
use rh_ledger::{Kind, Tally};
use std::alloc::{AllocError, Global};
use std::sync::Wait;
use std::thread::Threads;
use thiserror::Error;

/// Why a phase was not carried out.
#[derive(Clone, Copy, Debug, PartialEq, Eq, Error)]
pub enum PhaseFault {
    #[error("out of memory")]
    Memory,
    #[error("cannot start a worker")]
    NoThread,
}

impl From<AllocError> for PhaseFault {
    ghost use Rattle.rh_runner.specs.declared.runner.PhaseFault.TheVariants.{Memory};

    ghost from_gives = { λ _ fault. fault ≡ Memory };

    fn from(_error: AllocError) -> PhaseFault {
        PhaseFault::Memory
    }
}

/// Carries out phases on the cells of a table, with the meaning of one worker that takes the keys
/// in list order. A call may start threads, and wait for ever; what it promises holds where it
/// returns. `shared` is what the bound `R: Sync` says, for the proofs of those who implement this.
/// A trait that names the runtime as a parameter would let `Single` do without one; the toolchain
/// proves no generic function that passes such a runner on.
pub trait Runner {
    /// How often the start of a thread was refused. The count stops at the greatest `u64`.
    ghost refused_starts: { Self → ℕ };

    /// How many workers carry out a phase.
    ghost workers: { Self → ℕ };

    /// How many keys it takes best in one phase of this kind, of a list that may have more.
    fn phase_keys(&self, kind: Kind) -> usize {
        match kind {
            Kind::Insert | Kind::Remove => PHASE,
            Kind::Ask => LOOK_UPS,
        }
    }

    /// Inserts or removes the keys. On a fault the cells are as they were.
    fn change<R: Threads + Wait + Sync>(
        &mut self,
        rt: &R,
        alloc: Global,
        kind: Kind,
        bits: u32,
        cells: &mut Vec<u64>,
        keys: &[u64],
    ) -> Result<Tally, PhaseFault>
        requires shared { IsSync R.row }
        requires kind { kind ≢ Kind.Ask }
        requires keys { All IsKey keys.now }
        requires layout { IsLayout bits cells.old.items }
        requires room { set.len (keys_of cells.old.items) + most_added kind keys.now < 2 ^ bits }
        ensures layout { OnOk result (IsLayout bits cells.new.items) }
        ensures keys { OnOk result
            (keys_of cells.new.items ≡ set_after kind (keys_of cells.old.items) keys.now) }
        ensures cells { OnOk result (AreTheCells bits
            (set_after kind (keys_of cells.old.items) keys.now) cells.new.items) }
        ensures tally { IfOk result (λ t. t ≡ tally_of kind (keys_of cells.old.items) keys.now) }
        ensures unchanged { OnErr result (cells.new.items ≡ cells.old.items) }
        ensures starts { CountsStarts (workers self.old) (workers self.new)
            (refused_starts self.old) (refused_starts self.new) result };

    /// Looks the keys up, and answers in list order which are there.
    fn ask<R: Threads + Wait + Sync>(
        &mut self,
        rt: &R,
        alloc: Global,
        bits: u32,
        cells: &[u64],
        keys: &[u64],
    ) -> Result<Vec<bool>, PhaseFault>
        requires shared { IsSync R.row }
        requires keys { All IsKey keys.now }
        requires layout { IsLayout bits cells.now }
        requires room { set.len (keys_of cells.now) < 2 ^ bits }
        ensures found { IfOk result (λ found.
            found.items ≡ looked_up (keys_of cells.now) keys.now) }
        ensures starts { CountsStarts (workers self.old) (workers self.new)
            (refused_starts self.old) (refused_starts self.new) result };
}
