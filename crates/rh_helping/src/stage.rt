//! The stages of a machine, but for those of `keeping` and its failure. Each is one step: which
//! one, and what follows from the word that it found.

ghost use Rattle.std.specs.Prelude.{◌≡◌};
ghost use Rattle.rh_words.specs.Requests.{step_asked};
ghost use Rattle.rh_words.specs.View.{View};
ghost use Rattle.rh_helping.specs.Requested.{Follows, requested};
ghost use Rattle.rh_helping.specs.Goal.{opened_by};
ghost use Rattle.rh_helping.specs.Machine.{led, work_at};
ghost use Rattle.rh_helping.specs.Stepping.{ComesTo};

use crate::goal::OpenDesc;
use crate::machine::{Machine, Progress};
use rh_carrier::Steps;
use rh_words::{Request, Shape, Side};

/// A stage: by its name its step is made where it is the next one (`Machine::step_at`).
pub trait Stage<T: Steps> {
    ghost use Rattle.rh_helping.specs.declared.machine.At.{At};

    // Where the machine stands.
    ghost at: { At };

    /// The step that the machine asks for.
    fn request(machine: &Machine) -> Request
        ensures { (v : View) → step_asked result ≡ requested v (work_at at machine.now) };

    /// Goes on from the word that the step found. The table is there for own rows alone: no step is
    /// made.
    fn after(
        machine: &mut Machine,
        shape: &Shape,
        table: &mut T,
        side: &Side,
        opens: Option<OpenDesc<'_>>,
        found: u64,
    ) -> Progress
        requires { Follows T.shows shape.now (opened_by opens) (work_at at machine.old) found
            table.old side.now.known.view }
        ensures { ComesTo shape.now (opened_by opens.entry) (work_at at machine.old) table.old
            side.now.known.view (led result machine.new) table.new };
}
