//! Phases of scripts, each by several workers.

ghost use Rattle.std.specs.Prelude.{◌≡◌};
ghost use Rattle.rh_threads.specs.Crew.{refused_with, phase_fault_of};
ghost use Rattle.rh_threads.specs.Made.{IsWorkers};

use crate::crew::AllStart;
use crate::fault::Fault;
use crate::gate::OpenGate;
use crate::phase::Phase;
use rh_ledger::{Kind, Tally};
use rh_runner::{PhaseFault, Runner};
use rh_words::Rooms;
use std::alloc::Global;
use std::sync::Wait;
use std::thread;

/// Carries out each phase by so many workers that change one table at once, each in a thread; the
/// first works on the calling thread. What comes of a phase is what one worker makes.
#[derive(Drop)]
pub struct Threads {
    workers: usize,
    /// Up to the greatest number.
    refused_starts: u64,
    ghost within: { IsWorkers workers },
}

impl Threads {
    /// So many workers, of which no start was refused yet. It takes no memory: each phase takes its
    /// own, and gives it back.
    pub fn new(workers: usize) -> Threads
        requires { IsWorkers workers }
        ensures none { ⟦<Threads as Runner>⟧.refused_starts result ≡ 0 }
        ensures workers { ⟦<Threads as Runner>⟧.workers result ≡ workers }
    {
        Threads {
            workers,
            refused_starts: 0,
        }
    }

    /// What is told of the fault. A start that was refused is counted.
    fn phase_fault(&mut self, fault: Fault) -> PhaseFault
        ensures workers { self.new.workers ≡ self.old.workers }
        ensures made { result ≡ phase_fault_of fault }
        ensures counted { self.new.refused_starts ≡ refused_with fault self.old.refused_starts }
    {
        if let Fault::Refused(_) = fault {
            self.refused_starts = self.refused_starts.saturating_add(1);
        }
        PhaseFault::from(fault)
    }
}

impl Runner for Threads {
    ghost refused_starts = { λ t. t.refused_starts };

    ghost workers = { λ t. t.workers };

    fn change<R: thread::Threads + Wait + Sync>(
        &mut self,
        rt: &R,
        alloc: Global,
        kind: Kind,
        bits: u32,
        cells: &mut Vec<u64>,
        keys: &[u64],
    ) -> Result<Tally, PhaseFault> {
        let phase = Phase::new(bits, self.workers, Rooms::usual(), kind, keys);
        match phase.change(rt, alloc, cells, &OpenGate, &AllStart) {
            Ok(tally) => Ok(tally),
            Err(fault) => Err(self.phase_fault(fault)),
        }
    }

    fn ask<R: thread::Threads + Wait + Sync>(
        &mut self,
        rt: &R,
        alloc: Global,
        bits: u32,
        cells: &[u64],
        keys: &[u64],
    ) -> Result<Vec<bool>, PhaseFault> {
        let phase = Phase::new(bits, self.workers, Rooms::usual(), Kind::Ask, keys);
        match phase.ask(rt, alloc, cells, &OpenGate, &AllStart) {
            Ok(found) => Ok(found),
            Err(fault) => Err(self.phase_fault(fault)),
        }
    }
}
