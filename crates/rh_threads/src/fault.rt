//! Why a phase was not carried out.

use crate::crew::RefusedStart;
use rh_runner::PhaseFault;
use std::alloc::AllocError;

/// Want of memory, or a thread that was not started, and why.
#[derive(Clone, Copy)]
pub enum Fault {
    Memory,
    Refused(RefusedStart),
}

impl From<AllocError> for Fault {
    ghost use Rattle.std.specs.Prelude.{◌≡◌};
    ghost use Rattle.rh_threads.specs.declared.fault.Fault.TheVariants.{Memory};

    ghost from_gives = { λ _ fault. fault ≡ Memory };

    fn from(_error: AllocError) -> Fault {
        Fault::Memory
    }
}

impl From<RefusedStart> for Fault {
    ghost use Rattle.std.specs.Prelude.{◌≡◌};
    ghost use Rattle.rh_threads.specs.declared.fault.Fault.TheVariants as faults;

    ghost from_gives = { λ why fault. fault ≡ faults.Refused why };

    fn from(why: RefusedStart) -> Fault {
        Fault::Refused(why)
    }
}

impl From<Fault> for PhaseFault {
    ghost use Rattle.std.specs.Prelude.{◌≡◌};
    ghost use Rattle.rh_threads.specs.Crew.{phase_fault_of};

    ghost from_gives = { λ fault made. made ≡ phase_fault_of fault };

    fn from(fault: Fault) -> PhaseFault {
        match fault {
            Fault::Memory => PhaseFault::Memory,
            Fault::Refused(_) => PhaseFault::NoThread,
        }
    }
}
