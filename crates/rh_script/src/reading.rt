//! Reading a script.

ghost use Rattle.std.specs.Prelude.{◌≡◌, ◌≢◌, IfOk, IfErr, Ok, Err, length, map, OnOk, ◌≤◌, ◌+◌};
ghost use Rattle.rh_script.specs.declared.limits.TheConstants.{MAX_LINES};
ghost use Rattle.rh_script.specs.Grammar.{HasNoFaultBefore, after_line, script_of};
ghost use Rattle.rh_lines.specs.Lines.{lines_of};
ghost use Rattle.rh_script.specs.Steps.{step_as};
ghost use Rattle.rh_script.specs.Script.{Answers, HasRead, steps_of};

use crate::command::read_command;
use crate::fault::{ScriptFault, ScriptFaultKind};
use crate::given::Given;
use crate::limits::{MAX_LINE_BYTES, MAX_LINES};
use crate::script::{Script, Step};
use rh_lines::{next_line, without_return};
use std::alloc::Global;

/// How far a script was read.
#[derive(Drop)]
struct Reading {
    alloc: Global,
    line: u64,
    given: Given,
    steps: Vec<Step>,
}

impl Reading {
    /// Reads the next line.
    #[tactic(auto, unfolding(crate::specs::Grammar::after_line, crate::specs::Grammar::entered))]
    fn read_line(&mut self, line: &[u8]) -> Result<(), ScriptFaultKind>
        requires few { self.old.line ≤ MAX_LINES }
        requires known { HasRead self.old.steps.items self.old.given }
        ensures line { self.new.line ≡ self.old.line + 1 }
        ensures few { OnOk result (self.new.line ≤ MAX_LINES) }
        ensures known { OnOk result (HasRead self.new.steps.items self.new.given) }
        ensures read { Answers
            (after_line self.new.line (map step_as self.old.steps.items) line.now)
            (λ _. map step_as self.new.steps.items) result }
    {
        self.line += 1;
        if self.line > MAX_LINES || line.len() > MAX_LINE_BYTES {
            return Err(ScriptFaultKind::TooLong);
        }
        if let Some(command) = read_command(self.alloc, without_return(line))? {
            let line = self.line;
            let list = self.given.admit(self.alloc, &command)?;
            self.steps.push(Step {
                line,
                command,
                list,
            })?;
        }
        Ok(())
    }
}

/// Reads the commands of a script, up to its first fault. Want of memory is a fault of the line
/// that was being read.
pub fn parse(alloc: Global, text: &[u8]) -> Result<Script, ScriptFault>
    ensures parsed { IfOk result (λ script. script_of text.now ≡ Ok (steps_of script)) }
    ensures refused { IfErr result (λ fault. fault.kind ≢ ScriptFaultKind.Memory →
        script_of text.now ≡ Err fault) }
    ensures within { IfErr result (λ fault.
        (1 ≤ fault.line) × (fault.line ≤ length (lines_of text.now))) }
    ensures before { IfErr result (λ fault. HasNoFaultBefore fault.line text.now) }
{
    let mut reading = Reading {
        alloc,
        line: 0,
        given: Given::new(alloc),
        steps: Vec::new(alloc),
    };
    let mut rest = text;
    while let Some((line, after)) = next_line(rest) {
        if let Err(kind) = reading.read_line(line) {
            let line = reading.line;
            return Err(ScriptFault { line, kind });
        }
        rest = after;
    }
    Ok(Script {
        steps: reading.steps,
    })
}
