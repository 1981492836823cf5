//! Why a list was not checked.

ghost use Rattle.std.specs.Prelude.{◌≡◌};
ghost use Rattle.rh_checks.specs.declared.fault.CheckFault.TheVariants.{List};

use rh_lists::ListFault;
use thiserror::Error;

/// Why a list was not checked, or its report not written.
#[derive(Clone, Copy, Debug, PartialEq, Eq, Error)]
pub enum CheckFault {
    /// The list could not be read, also for want of memory, or is a key file that is refused. No
    /// bad line of a text is such a fault.
    #[error(transparent)]
    List(ListFault),
    #[error("cannot write the output")]
    Write,
    /// There was no room for the report.
    #[error("out of memory")]
    Memory,
}

impl From<ListFault> for CheckFault {
    ghost from_gives = { λ fault given. given ≡ List fault };

    fn from(fault: ListFault) -> CheckFault {
        CheckFault::List(fault)
    }
}
