//! What a command wanted that was refused.

ghost use Rattle.std.specs.Prelude.{◌≡◌, IfSome};
ghost use Rattle.std.specs.FinSet as finset;

use crate::workspace::Workspace;
use rh_script::Step;

/// How many keys were held, and how many the list has, repeats counted.
#[derive(Clone, Copy, Debug, PartialEq, Eq)]
pub struct Wanted {
    pub held: u64,
    pub list: u64,
}

/// What the command of the step wants, where it acts on a list that there is.
pub(crate) fn wanted_by(workspace: &Workspace<'_>, step: &Step) -> Option<Wanted>
    ensures { IfSome result (λ wanted. wanted.held ≡ finset.len workspace.now.set.keys) }
{
    let list = workspace.lists.get(step.list?)?;
    let held = workspace.set.len() as u64;
    Some(Wanted {
        held,
        list: list.count,
    })
}
