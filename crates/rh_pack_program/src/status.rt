//! How the program ends.

ghost use Rattle.std.specs.Prelude.{◌≡◌, ◌≢◌, Some, false, true};
ghost use Rattle.std.specs.declared.io.ErrorKind.TheVariants.{BrokenPipe};
ghost use Rattle.rh_cli.specs.Outlet.{last_failure};
ghost use Rattle.rh_pack_program.specs.Endings.{ending, ending_by};

use crate::fault::Fault;
use rh_cli::{Outlet, Status};
use rh_keys_program::{reason_unwritten, tell as tell_of_lists};

/// Tells the user under this name of the program, as far as standard error takes it.
pub fn tell(rt: &impl Eprint, name: &str, fault: &Fault) -> Status
    ensures { result ≡ ending_by fault.now }
{
    match fault {
        Fault::Lists(fault) => tell_of_lists(rt, name, fault, None),
        _ => {
            let _ = eprintln!(rt; "{name}: {fault}");
            fault.status()
        }
    }
}

/// How the program of this name ends that came to this, and wrote to this outlet. A fault is told,
/// but where the reader of the output has gone away.
pub fn conclude<W>(
    rt: &impl Eprint,
    name: &str,
    outcome: &Result<Status, Fault>,
    outlet: &Outlet<W>,
) -> Status
    ensures gone { last_failure outlet.now ≡ Some BrokenPipe → result ≡ ending outcome.now true }
    ensures there { last_failure outlet.now ≢ Some BrokenPipe → result ≡ ending outcome.now false }
{
    match outcome {
        Ok(status) => *status,
        Err(_) if outlet.is_gone() => Status::ReaderGone,
        Err(Fault::Lists(fault)) => {
            tell_of_lists(rt, name, fault, reason_unwritten(fault, outlet))
        }
        Err(fault) => tell(rt, name, fault),
    }
}
