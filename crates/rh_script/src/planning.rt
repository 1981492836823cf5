//! The plan of a script, as a call of its own.

ghost use Rattle.std.specs.Prelude.{◌≡◌, Ok};
ghost use Rattle.rh_script.specs.Plan.{plan_of};
ghost use Rattle.rh_script.specs.Script.{planned_of, steps_of};
ghost use Rattle.rh_script.specs.declared.script.Plan.{Plan as ThePlan};

use crate::script::{Plan, Script};
use std::alloc::{AllocError, Global};

/// One step for each command, with its line and the number of its list. `parse` gave the numbers:
/// so this takes no memory, and no growth is refused.
pub fn plan(alloc: Global, script: &Script) -> Result<Plan<'_>, AllocError>
    ensures { (plan : ThePlan) × (result ≡ Ok plan)
        × (planned_of plan ≡ plan_of (steps_of script.now)) }
{
    let _ = alloc;
    Ok(Plan { script })
}
