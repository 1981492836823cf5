//! Two runs of one script.

ghost use Rattle.std.specs.Prelude.{◌≡◌, Some};
ghost use Rattle.rh_bytes.specs.Counting.{inner_of};
ghost use Rattle.rh_script.specs.Script.{steps_of};
ghost use Rattle.rh_shelf.specs.Shelf.{Files};
ghost use Rattle.rh_script_run.specs.Agree.{AppendSame, EndsByItself};
ghost use Rattle.rh_script_run.specs.Ends.{Ends};
ghost use Rattle.rh_script_run.specs.Environment.{environment_of};

use crate::fault::RunFault;
use crate::report::Report;
use crate::running::run;
use rh_bytes::Counted;
use rh_runner::Runner;
use rh_script::Script;
use rh_shelf::Lender;
use std::alloc::Global;
use std::io::Write;
use std::sync::Wait;
use std::thread::Threads;

/// Carries out the commands of a script twice, each time with a shelf, a runner and a writer of its
/// own, and answers both results. Where the shelves have the same files at first, and nothing from
/// outside ends either run, the results are equal, the shelves have the same files afterwards, and
/// both writers were given the same text, whoever carries out the phases.
pub fn run_twice<
    T: Threads + Wait + Sync,
    S: Lender,
    N: Runner,
    W: Write,
    S2: Lender,
    N2: Runner,
    W2: Write,
>(
    rt: &T,
    alloc: Global,
    script: &Script,
    shelf: &mut S,
    runner: &mut N,
    writer: &mut Counted<W>,
    other_shelf: &mut S2,
    other_runner: &mut N2,
    other_writer: &mut Counted<W2>,
) -> (Result<Report, RunFault>, Result<Report, RunFault>)
    ensures first { (files : Files) → (S.state shelf.old).files ≡ Some files →
        Ends files (steps_of script.now)
        (environment_of S.state N.refused_starts W.contents shelf.old runner.old writer.old)
        (environment_of S.state N.refused_starts W.contents shelf.new runner.new writer.new)
        result.0 }
    ensures second { (files : Files) → (S2.state other_shelf.old).files ≡ Some files →
        Ends files (steps_of script.now)
        (environment_of S2.state N2.refused_starts W2.contents other_shelf.old other_runner.old
        other_writer.old)
        (environment_of S2.state N2.refused_starts W2.contents other_shelf.new other_runner.new
        other_writer.new) result.1 }
    ensures agree { (files : Files) → (S.state shelf.old).files ≡ Some files →
        (S2.state other_shelf.old).files ≡ Some files →
        EndsByItself (steps_of script.now)
        (environment_of S.state N.refused_starts W.contents shelf.old runner.old writer.old)
        (environment_of S.state N.refused_starts W.contents shelf.new runner.new writer.new)
        result.0 →
        EndsByItself (steps_of script.now)
        (environment_of S2.state N2.refused_starts W2.contents other_shelf.old other_runner.old
        other_writer.old)
        (environment_of S2.state N2.refused_starts W2.contents other_shelf.new other_runner.new
        other_writer.new) result.1 →
        (result.0 ≡ result.1) × ((S.state shelf.new).files ≡ (S2.state other_shelf.new).files) ×
        AppendSame (W.contents (inner_of writer.old)) (W.contents (inner_of writer.new))
        (W2.contents (inner_of other_writer.old)) (W2.contents (inner_of other_writer.new)) }
{
    let first = run(rt, alloc, script, shelf, runner, writer);
    let second = run(rt, alloc, script, other_shelf, other_runner, other_writer);
    (first, second)
}
