//! How a program ends that a fault of a file ended, whatever its command is.
//!
//! The programs stand on it. It is no part of `rh_cli`, which so needs no kind of file.
//!
//! Proved: `status_of_keys` and `status_of_snapshot` are the exit statuses of the table
//! `specs/Endings.antt`.
#![tactic(auto)]

ghost use Rattle.std.specs.Prelude.{◌≡◌};
ghost use Rattle.rh_endings.specs.Endings.{ending_by_keys, ending_by_snapshot};

use rh_cli::Status;
use rh_key_files::KeyFault;
use rh_snapshot::SnapFault;

/// How a run ends whose key file could not be read, or is none.
pub fn status_of_keys(fault: &KeyFault) -> Status
    ensures { result ≡ ending_by_keys fault.now }
{
    match fault {
        KeyFault::Memory => Status::Memory,
        _ => Status::Refused,
    }
}

/// How a run ends whose snapshot could not be read, or is none.
pub fn status_of_snapshot(fault: &SnapFault) -> Status
    ensures { result ≡ ending_by_snapshot fault.now }
{
    match fault {
        SnapFault::Memory => Status::Memory,
        _ => Status::Refused,
    }
}
