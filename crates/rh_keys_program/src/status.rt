//! How a run ends that reads lists.

ghost use Rattle.std.specs.Prelude.{◌≡◌, ◌≢◌, IfSome, Some, false, true};
ghost use Rattle.std.specs.declared.io.ErrorKind.TheVariants.{BrokenPipe};
ghost use Rattle.rh_cli.specs.Notes.{reason_of};
ghost use Rattle.rh_cli.specs.Outlet.{last_failure};
ghost use Rattle.rh_keys_program.specs.Endings.{ending, ending_by, ending_by_input};

use crate::fault::{Fault, InputFault};
use rh_cli::{Outlet, ProgramFault, Reason, Status, reason_of};
use rh_key_files::KeyFault;
use rh_numbers::TextFault;
use rh_shelf::ShelfFault;

impl Fault {
    ghost use Rattle.std.specs.Prelude.{◌≡◌};
    ghost use Rattle.rh_keys_program.specs.Endings.{ending_by};

    /// How a run ends that this ended early.
    pub fn status(&self) -> Status
        ensures { result ≡ ending_by self.now }
    {
        match self {
            Fault::Program(fault) => fault.status(),
            Fault::Input { fault, .. } => status_of_input(fault),
            Fault::InputTwice | Fault::OneList | Fault::TwoOutputs => Status::CommandLine,
            Fault::Least { .. } | Fault::TooMany => Status::CommandLine,
            Fault::Word { .. } | Fault::Expression { .. } => Status::CommandLine,
        }
    }
}

fn status_of_input(fault: &InputFault) -> Status
    ensures { result ≡ ending_by_input fault.now }
{
    match fault {
        InputFault::Open(ShelfFault::Missing) => Status::Refused,
        InputFault::Open(ShelfFault::Memory) => Status::Memory,
        InputFault::Open(ShelfFault::Write) => Status::Write,
        InputFault::Text(TextFault::Memory) | InputFault::Keys(KeyFault::Memory) => Status::Memory,
        InputFault::Text(_) | InputFault::Keys(_) => Status::Refused,
    }
}

/// Tells the user under this name of the program, as far as standard error takes it, with the
/// reason where one is known.
pub fn tell(rt: &impl Eprint, name: &str, fault: &Fault, reason: Option<Reason>) -> Status
    ensures { result ≡ ending_by fault.now }
{
    let _ = match (fault, reason) {
        (_, Some(reason)) => eprintln!(rt; "{name}: {fault}: {reason}"),
        // More memory is seldom to be had, but a list can be split.
        (Fault::Program(ProgramFault::Memory), None) => {
            eprintln!(rt; "{name}: {fault}; see rhkeys-combine --help")
        }
        (_, None) => eprintln!(rt; "{name}: {fault}"),
    };
    fault.status()
}

/// How the program of this name ends that came to this, and wrote to this outlet. A fault is told,
/// but where the reader of the output has gone away: so the usual tools do, which the signal of a
/// closed pipe ends.
pub fn conclude<W>(
    rt: &impl Eprint,
    name: &str,
    outcome: &Result<Status, Fault>,
    outlet: &Outlet<W>,
) -> Status
    ensures gone { last_failure outlet.now ≡ Some BrokenPipe → result ≡ ending outcome.now true }
    ensures there { last_failure outlet.now ≢ Some BrokenPipe → result ≡ ending outcome.now false }
{
    match outcome {
        Ok(status) => *status,
        Err(_) if outlet.is_gone() => Status::ReaderGone,
        Err(fault) => tell(rt, name, fault, reason_unwritten(fault, outlet)),
    }
}

/// Why the output could not be written, where that is the fault and the system says so.
pub fn reason_unwritten<W>(fault: &Fault, outlet: &Outlet<W>) -> Option<Reason>
    ensures { IfSome result (λ reason. (fault.now ≡ Fault.Program ProgramFault.Write)
        × IfSome (last_failure outlet.now) (λ kind. reason_of kind ≡ Some reason)) }
{
    match fault {
        Fault::Program(ProgramFault::Write) => reason_of(outlet.last_failure()?),
        _ => None,
    }
}
