//! The run of a script.

ghost use Rattle.std.specs.Prelude.{◌≡◌, ◌≢◌, Some, IfErr, IfSome, OnErr, OnOk, length};
ghost use Rattle.rh_bytes.specs.Counting.{failures_of};
ghost use Rattle.rh_script.specs.Script.{steps_of};
ghost use Rattle.rh_script.specs.Steps.{instruction_as};
ghost use Rattle.rh_operations.specs.Outside.{outside};
ghost use Rattle.rh_shelf.specs.Shelf.{Files};
ghost use Rattle.rh_script_run.specs.Ends.{Ends, LeavesAll, LeavesOutside, cause_of, step_in};
ghost use Rattle.rh_script_run.specs.Environment.{environment_of};
ghost use Rattle.rh_script_run.specs.Files.{FileMap};
ghost use Rattle.rh_script_run.specs.Steps.{ComesAfter, HasList, ListsGrow, Named, Performs};
ghost use Rattle.rh_script_run.specs.Steps.{StateEnds, world_of};
ghost use Rattle.rh_script_run.specs.Wanted.{IsHeldAt};

use crate::fault::RunFault;
use crate::report::Report;
use crate::steps::{clear_step, restore_step, save_step, snapshot_step, use_step};
use crate::told::{Told, tell, told_of};
use crate::wanted::{Wanted, wanted_by};
use crate::workspace::Workspace;
use rh_bytes::Counted;
use rh_edit::SeqSet;
use rh_layout::MIN_BITS;
use rh_operations::{Cause, operate};
use rh_runner::{Host, Runner};
use rh_script::{Command, Script, Step};
use rh_shelf::Lender;
use std::alloc::Global;
use std::io::Write;
use std::sync::Wait;
use std::thread::Threads;

/// Carries out the commands of a script, from an empty table of the least size, and writes their
/// reports. It ends at the first command that is refused; what was written then is the text of the
/// commands before it, and with `Write` a front of its own text too. The files are then those that
/// the commands before it made; where it was a `snapshot`, its path alone is in doubt, and has the
/// snapshot with `Write`. A list of `use` is kept as its path and its number of keys, and its file
/// is read again by each command that names it. Where it ends well, no failure of the shelf or the
/// writer was counted meanwhile, and no refused start.
///
/// Each text is a few writes, so give it a writer with a buffer. A run may wait for ever where its
/// runner does.
pub fn run<T: Threads + Wait + Sync, S: Lender, N: Runner, W: Write>(
    rt: &T,
    alloc: Global,
    script: &Script,
    shelf: &mut S,
    runner: &mut N,
    writer: &mut Counted<W>,
) -> Result<Report, RunFault>
    ensures meant { (files : Files) → (S.state shelf.old).files ≡ Some files →
        Ends files (steps_of script.now)
        (environment_of S.state N.refused_starts W.contents shelf.old runner.old writer.old)
        (environment_of S.state N.refused_starts W.contents shelf.new runner.new writer.new)
        result }
    ensures leaves { LeavesAll (outside S.state N.refused_starts shelf.old runner.old)
        (outside S.state N.refused_starts shelf.new runner.new)
        (failures_of writer.old) (failures_of writer.new) (cause_of result) }
{
    let (outcome, _) = run_noting(rt, alloc, script, shelf, runner, writer);
    outcome
}

/// As `run`, and answers besides what the command wanted at which the run ended, where that acts on
/// a list.
pub fn run_noting<T: Threads + Wait + Sync, S: Lender, N: Runner, W: Write>(
    rt: &T,
    alloc: Global,
    script: &Script,
    shelf: &mut S,
    runner: &mut N,
    writer: &mut Counted<W>,
) -> (Result<Report, RunFault>, Option<Wanted>)
    ensures meant { (files : Files) → (S.state shelf.old).files ≡ Some files →
        Ends files (steps_of script.now)
        (environment_of S.state N.refused_starts W.contents shelf.old runner.old writer.old)
        (environment_of S.state N.refused_starts W.contents shelf.new runner.new writer.new)
        result.0 }
    ensures leaves { LeavesAll (outside S.state N.refused_starts shelf.old runner.old)
        (outside S.state N.refused_starts shelf.new runner.new)
        (failures_of writer.old) (failures_of writer.new) (cause_of result.0) }
    ensures wanted { (files : Files) → (S.state shelf.old).files ≡ Some files →
        IfErr result.0 (λ fault. fault.cause ≢ Cause.Write →
        IfSome result.1 (λ wanted. IsHeldAt files (steps_of script.now) fault.line wanted.held)) }
{
    let Ok(set) = SeqSet::new(alloc, MIN_BITS) else {
        let (line, cause) = (0, Cause::Memory);
        return (Err(RunFault { line, cause }), None);
    };
    let lists = Vec::new(alloc);
    let mut workspace = Workspace { set, lists };
    let host = Host { rt, alloc };
    for step in script.steps() {
        let told = carry_out(&host, shelf, runner, writer, &mut workspace, step);
        if let Err(cause) = told {
            let line = step.line;
            return (Err(RunFault { line, cause }), wanted_by(&workspace, step));
        }
    }
    let report = Report {
        commands: script.len() as u64,
        held: workspace.set.len() as u64,
        bits: workspace.set.bits(),
    };
    (Ok(report), None)
}

/// Carries a step out and writes its report.
fn carry_out<'a, T: Threads + Wait + Sync, S: Lender, N: Runner, W: Write>(
    host: &Host<'_, T>,
    shelf: &mut S,
    runner: &mut N,
    writer: &mut Counted<W>,
    workspace: &mut Workspace<'a>,
    step: &'a Step,
) -> Result<(), Cause>
    requires { HasList step.now (length workspace.old.lists.items) }
    ensures step { (named : Named) (files : FileMap) →
        ComesAfter step.now named files workspace.old.lists.items (S.state shelf.old).files →
        StateEnds (step_in (world_of workspace.old.set named files)
        (instruction_as step.now.command)
        (environment_of S.state N.refused_starts W.contents shelf.old runner.old writer.old)
        (environment_of S.state N.refused_starts W.contents shelf.new runner.new writer.new))
        files workspace.new.set workspace.new.lists.items result }
    ensures grow { OnOk result (ListsGrow (instruction_as step.now.command)
        workspace.old.lists.items workspace.new.lists.items) }
    ensures unchanged { IfErr result (λ cause. cause ≢ Cause.Write →
        workspace.new.set ≡ workspace.old.set) }
    ensures leaves { LeavesAll (outside S.state N.refused_starts shelf.old runner.old)
        (outside S.state N.refused_starts shelf.new runner.new)
        (failures_of writer.old) (failures_of writer.new) result }
{
    let told = act(host, shelf, runner, workspace, step)?;
    tell(writer, &workspace.set, &told)?;
    Ok(())
}

/// Carries a step out, and answers what it has to report.
#[tactic(auto, using(crate::proofs::StepLemmas::leaves_kept))]
fn act<'a, T: Threads + Wait + Sync, S: Lender, N: Runner>(
    host: &Host<'_, T>,
    shelf: &mut S,
    runner: &mut N,
    workspace: &mut Workspace<'a>,
    step: &'a Step,
) -> Result<Told<'a>, Cause>
    requires { HasList step.now (length workspace.old.lists.items) }
    ensures made { (named : Named) (files : FileMap) →
        ComesAfter step.now named files workspace.old.lists.items (S.state shelf.old).files →
        Performs (instruction_as step.now.command) (world_of workspace.old.set named files)
        (outside S.state N.refused_starts shelf.old runner.old)
        (outside S.state N.refused_starts shelf.new runner.new)
        workspace.new.set workspace.new.lists.items result }
    ensures grow { OnOk result (ListsGrow (instruction_as step.now.command)
        workspace.old.lists.items workspace.new.lists.items) }
    ensures unchanged { OnErr result (workspace.new.set ≡ workspace.old.set) }
    ensures leaves { LeavesOutside (outside S.state N.refused_starts shelf.old runner.old)
        (outside S.state N.refused_starts shelf.new runner.new) result }
    ensures no_write { IfErr result (λ cause. cause ≡ Cause.Write → ⊥) }
{
    let alloc = host.alloc;
    match &step.command {
        Command::Use { name, path } => use_step(alloc, shelf, &mut workspace.lists, name, path),
        Command::Act { action, name } => {
            let list = &workspace.lists[step.list.unwrap()];
            let done = operate(host, shelf, runner, &mut workspace.set, list, *action)?;
            Ok(told_of(&workspace.set, list, name, done))
        }
        Command::Save { name } => save_step(alloc, &workspace.set, &mut workspace.lists, name),
        Command::Clear => clear_step(alloc, &mut workspace.set),
        Command::Dump => Ok(Told::Dump),
        Command::Snapshot { path } => snapshot_step(alloc, shelf, &workspace.set, path),
        Command::Restore { path } => restore_step(alloc, shelf, &mut workspace.set, path),
    }
}
