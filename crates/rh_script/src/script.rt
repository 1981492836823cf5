//! Scripts that were read.

ghost use Rattle.std.specs.Prelude.{◌≡◌, ◌==◌, length, map};
ghost use Rattle.rh_script.specs.Names.{InOrder};
ghost use Rattle.rh_script.specs.Plan.{plan_of};
ghost use Rattle.rh_script.specs.Steps.{planned_as, step_as};

use crate::action::Action;

/// A command with its words. A name stands for a list of keys, a path for a file.
#[derive(Drop)]
pub enum Command {
    Use { name: String, path: String },
    /// Does with the held keys and those of the list what the action says.
    Act { action: Action, name: String },
    Save { name: String },
    Clear,
    Dump,
    Snapshot { path: String },
    Restore { path: String },
}

/// A command, the number of its line, and that of the list that it gives or acts on, if it does.
/// Lines are numbered from 1, and lists from 0, in the order in which `use` and `save` give them.
#[derive(Drop)]
pub struct Step {
    pub line: u64,
    pub command: Command,
    pub list: Option<usize>,
}

/// The commands of a script, in order.
#[derive(Drop)]
pub struct Script {
    pub(crate) steps: Vec<Step>,
    // Each name is given once, and before it is used, and no snapshot takes an earlier path.
    ghost in_order: { InOrder (map step_as steps.items) },
    ghost numbered: { map planned_as steps.items ≡ plan_of (map step_as steps.items) },
}

impl Script {
    ghost use Rattle.rh_script.specs.Names.{InOrder};
    ghost use Rattle.rh_script.specs.Script.{steps_of};

    /// Its commands, in order.
    pub fn steps(&self) -> &[Step]
        ensures steps { map step_as result.now ≡ steps_of self.now }
        ensures numbered { map planned_as result.now ≡ plan_of (steps_of self.now) }
        ensures in_order { InOrder (steps_of self.now) }
    {
        &self.steps
    }

    /// The number of commands.
    pub fn len(&self) -> usize
        ensures { result ≡ length (steps_of self.now) }
    {
        self.steps.len()
    }

    pub fn is_empty(&self) -> bool
        ensures { result ≡ (length (steps_of self.now) == 0) }
    {
        self.steps.is_empty()
    }
}

/// The steps of a script with the numbers of their lists, in order.
#[derive(Clone, Copy)]
pub struct Plan<'a> {
    pub(crate) script: &'a Script,
}

impl<'a> Plan<'a> {
    ghost use Rattle.rh_script.specs.Script.{planned_of};

    pub fn steps(&self) -> &'a [Step]
        ensures { map planned_as result.now ≡ planned_of self.now }
    {
        self.script.steps()
    }

    /// The number of steps.
    pub fn len(&self) -> usize
        ensures { result ≡ length (planned_of self.now) }
    {
        self.script.len()
    }

    pub fn is_empty(&self) -> bool
        ensures { result ≡ (length (planned_of self.now) == 0) }
    {
        self.script.is_empty()
    }
}
