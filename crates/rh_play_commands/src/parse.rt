//! Reading the words of the command line.

ghost use Rattle.std.specs.Prelude.{◌≡◌, [], IfOk, IfErr, codes};
ghost use Rattle.clap.specs.Words.{app_of, fault_of, found_of, rows_of};
ghost use Rattle.clap.specs.Words.{subcommand_of, subcommand_rows_of};
ghost use Rattle.rh_arguments.specs.Faults.{IsOneOf};
ghost use Rattle.rh_arguments.specs.Words.{Finds, HasText, IsArg, texts_of};
ghost use Rattle.rh_play_commands.specs.Line.{Asks, HasDrawArguments, IsCommand, Says, draw_app};
ghost use Rattle.rh_play_commands.specs.Line.{from_rule, play_app, rhplay_app, trace_app};

use crate::asked::Line;
use crate::help;
use crate::limits::{MAX_DRAWN, MAX_FROM};
use clap::{Arg, ArgAction, ArgMatches, Command, value_parser};
use rh_arguments::LineFault;
use rh_arguments::parsing::{
    describe, find_arguments, number, number_arg, program_command, text, text_arg, with_subcommand,
};
use std::alloc::{AllocError, Global};

/// The program's own name.
pub const NAME: &str = "rhplay";

/// What `words` ask for, of which the first is the name by which the program was called.
///
/// `LineFault::Memory` comes only where a growth was refused.
pub fn line(alloc: Global, words: &[String]) -> Result<Line, LineFault>
    ensures asked { IfOk result (λ l. Asks (subcommand_of rhplay_app (texts_of words.now)) l) }
    ensures taken { IfOk result (λ l. fault_of rhplay_app (texts_of words.now) ≡ []) }
    ensures refused { IfErr result (λ f. IsOneOf (fault_of rhplay_app (texts_of words.now)) f) }
{
    let matches = find_arguments(command(alloc)?, words)?;
    let line = line_in(alloc, &matches)?;
    Ok(line)
}

fn line_in(alloc: Global, matches: &ArgMatches<'_>) -> Result<Line, AllocError>
    requires { Finds IsCommand (subcommand_rows_of matches.now) }
    ensures { IfOk result (λ l. Asks (subcommand_rows_of matches.now) l) }
{
    match matches.subcommand() {
        Some(("play", given)) => play_asked(alloc, given),
        Some(("trace", given)) => trace_asked(alloc, given),
        Some(("draw", given)) => draw_asked(alloc, given),
        _ => unreachable!(),
    }
}

fn play_asked(alloc: Global, given: &ArgMatches<'_>) -> Result<Line, AllocError>
    requires { HasText (codes "file") (rows_of (found_of given.now)) }
    ensures { IfOk result (λ l. Says (codes "play") (rows_of (found_of given.now)) l) }
{
    let file = text(alloc, given, "file")?;
    Ok(Line::Play { file })
}

fn trace_asked(alloc: Global, given: &ArgMatches<'_>) -> Result<Line, AllocError>
    requires { HasText (codes "file") (rows_of (found_of given.now)) }
    ensures { IfOk result (λ l. Says (codes "trace") (rows_of (found_of given.now)) l) }
{
    let file = text(alloc, given, "file")?;
    Ok(Line::Trace { file })
}

fn draw_asked(alloc: Global, given: &ArgMatches<'_>) -> Result<Line, AllocError>
    requires { HasDrawArguments (rows_of (found_of given.now)) }
    ensures { IfOk result (λ l. Says (codes "draw") (rows_of (found_of given.now)) l) }
{
    let from = number(given, "from", 1, MAX_FROM);
    let steps = number(given, "steps", 0, MAX_DRAWN);
    let file = text(alloc, given, "file")?;
    Ok(Line::Draw { from, steps, file })
}

fn command<'a>(alloc: Global) -> Result<Command<'a>, AllocError>
    ensures { IfOk result (λ c. app_of c ≡ rhplay_app) }
{
    let program = program_command(
        alloc,
        NAME,
        NAME,
        help::PROGRAM,
        help::PROGRAM_AT_LENGTH,
        help::STATUSES,
    );
    let with_play = with_subcommand(program, play_command(alloc));
    let with_trace = with_subcommand(with_play, trace_command(alloc));
    with_subcommand(with_trace, draw_command(alloc))
}

fn play_command<'a>(alloc: Global) -> Result<Command<'a>, AllocError>
    ensures { IfOk result (λ c. app_of c ≡ play_app) }
{
    let file = text_arg(alloc, "file", "FILE", help::FILE);
    describe(alloc, "play", help::PLAY, help::PLAY_AT_LENGTH, help::PLAYS).arg(file)
}

fn trace_command<'a>(alloc: Global) -> Result<Command<'a>, AllocError>
    ensures { IfOk result (λ c. app_of c ≡ trace_app) }
{
    let file = text_arg(alloc, "file", "FILE", help::FILE);
    describe(
        alloc,
        "trace",
        help::TRACE,
        help::TRACE_AT_LENGTH,
        help::TRACES,
    )
    .arg(file)
}

fn draw_command<'a>(alloc: Global) -> Result<Command<'a>, AllocError>
    ensures { IfOk result (λ c. app_of c ≡ draw_app) }
{
    describe(
        alloc,
        "draw",
        help::DRAW,
        help::DRAW_AT_LENGTH,
        help::DRAWINGS,
    )
    .arg(from_arg(alloc))?
    .arg(number_arg(alloc, "steps", MAX_DRAWN, help::STEPS))?
    .arg(text_arg(alloc, "file", "FILE", help::FILE))
}

fn from_arg<'a>(alloc: Global) -> Arg<'a>
    ensures { IsArg from_rule result }
{
    Arg::new(alloc, "from")
        .long("from")
        .value_name("STEP")
        .action(ArgAction::Set)
        .value_parser(value_parser!(usize).range(1..=MAX_FROM as i64))
        .default_value("1")
        .help(help::FROM)
}
