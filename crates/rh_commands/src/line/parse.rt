//! Reading the words of the command line.

ghost use Rattle.std.specs.Prelude.{◌≡◌, [], IfOk, IfErr, codes};
ghost use Rattle.clap.specs.Words.{app_of, fault_of, found_of, rows_of};
ghost use Rattle.clap.specs.Words.{subcommand_of, subcommand_rows_of};
ghost use Rattle.rh_arguments.specs.Faults.{IsOneOf};
ghost use Rattle.rh_commands.specs.Line.{Asks, HasRunArguments, IsCommand, Says, check_app, dump_app};
ghost use Rattle.rh_commands.specs.Line.{rhset_app, run_app, workers_rule};
ghost use Rattle.rh_arguments.specs.Words.{Finds, HasText, IsArg, texts_of};

use super::asked::Line;
use super::help;
use crate::limits::MAX_WORKERS;
use clap::{Arg, ArgAction, ArgMatches, Command, value_parser};
use rh_arguments::LineFault;
use rh_arguments::parsing::{
    describe, find_arguments, number, program_command, text, text_arg, with_subcommand,
};
use std::alloc::{AllocError, Global};

const NAME: &str = "rhset";

/// What `words` ask for, of which the first is the program's name.
///
/// `LineFault::Memory` comes only where a growth was refused.
pub fn line(alloc: Global, words: &[String]) -> Result<Line, LineFault>
    ensures asked { IfOk result (λ l. Asks (subcommand_of rhset_app (texts_of words.now)) l) }
    ensures taken { IfOk result (λ l. fault_of rhset_app (texts_of words.now) ≡ []) }
    ensures refused { IfErr result (λ f. IsOneOf (fault_of rhset_app (texts_of words.now)) f) }
{
    let matches = find_arguments(command(alloc)?, words)?;
    let line = line_in(alloc, &matches)?;
    Ok(line)
}

fn line_in(alloc: Global, matches: &ArgMatches<'_>) -> Result<Line, AllocError>
    requires { Finds IsCommand (subcommand_rows_of matches.now) }
    ensures { IfOk result (λ l. Asks (subcommand_rows_of matches.now) l) }
{
    match matches.subcommand() {
        Some(("dump", _)) => Ok(Line::Dump),
        Some(("run", given)) => run_asked(alloc, given),
        Some(("check", given)) => check_asked(alloc, given),
        _ => unreachable!(),
    }
}

fn run_asked(alloc: Global, given: &ArgMatches<'_>) -> Result<Line, AllocError>
    requires { HasRunArguments (rows_of (found_of given.now)) }
    ensures { IfOk result (λ l. Says (codes "run") (rows_of (found_of given.now)) l) }
{
    let workers = number(given, "workers", 1, MAX_WORKERS);
    let script = text(alloc, given, "script")?;
    Ok(Line::Run { workers, script })
}

fn check_asked(alloc: Global, given: &ArgMatches<'_>) -> Result<Line, AllocError>
    requires { HasText (codes "snapshot") (rows_of (found_of given.now)) }
    ensures { IfOk result (λ l. Says (codes "check") (rows_of (found_of given.now)) l) }
{
    let snapshot = text(alloc, given, "snapshot")?;
    Ok(Line::Check { snapshot })
}

fn command<'a>(alloc: Global) -> Result<Command<'a>, AllocError>
    ensures { IfOk result (λ c. app_of c ≡ rhset_app) }
{
    let program = program_command(
        alloc,
        NAME,
        NAME,
        help::PROGRAM,
        help::PROGRAM_AT_LENGTH,
        help::STATUSES,
    );
    let with_dump = with_subcommand(program, Ok(dump_command(alloc)));
    let with_run = with_subcommand(with_dump, run_command(alloc));
    with_subcommand(with_run, check_command(alloc))
}

fn dump_command<'a>(alloc: Global) -> Command<'a>
    ensures { app_of result ≡ dump_app }
{
    describe(
        alloc,
        "dump",
        help::DUMP,
        help::DUMP_AT_LENGTH,
        help::DUMP_FORMATS,
    )
}

fn run_command<'a>(alloc: Global) -> Result<Command<'a>, AllocError>
    ensures { IfOk result (λ c. app_of c ≡ run_app) }
{
    describe(alloc, "run", help::RUN, help::RUN_AT_LENGTH, help::SCRIPTS)
        .arg(workers_arg(alloc))?
        .arg(text_arg(alloc, "script", "SCRIPT", help::SCRIPT))
}

fn check_command<'a>(alloc: Global) -> Result<Command<'a>, AllocError>
    ensures { IfOk result (λ c. app_of c ≡ check_app) }
{
    let snapshot = text_arg(alloc, "snapshot", "SNAPSHOT", help::SNAPSHOT);
    describe(
        alloc,
        "check",
        help::CHECK,
        help::CHECK_AT_LENGTH,
        help::CHECK_FORMATS,
    )
    .arg(snapshot)
}

fn workers_arg<'a>(alloc: Global) -> Arg<'a>
    ensures { IsArg workers_rule result }
{
    Arg::new(alloc, "workers")
        .long("workers")
        .value_name("N")
        .action(ArgAction::Set)
        .value_parser(value_parser!(usize).range(1..=MAX_WORKERS as i64))
        .default_value("1")
        .help(help::WORKERS)
}
