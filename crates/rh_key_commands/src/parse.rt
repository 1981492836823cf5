//! Reading the words of the command line.

ghost use Rattle.std.specs.Prelude.{◌≡◌, [], IfOk, IfErr, codes};
ghost use Rattle.clap.specs.Words.{app_of, fault_of, found_of, rows_of};
ghost use Rattle.clap.specs.Words.{subcommand_of, subcommand_rows_of};
ghost use Rattle.rh_arguments.specs.Faults.{IsOneOf};
ghost use Rattle.rh_arguments.specs.Words.{Finds, IsArg, texts_of};
ghost use Rattle.rh_key_commands.specs.Line.{Asks, AsksLists, HasArguments, HasWith, IsCommand};
ghost use Rattle.rh_key_commands.specs.Line.{Says, atleast_app, flagged_app, form_asked};
ghost use Rattle.rh_key_commands.specs.Line.{lists_app, lists_rule, name_of, rhkeys_app};
ghost use Rattle.rh_key_commands.specs.Line.{select_app};

use crate::asked::{Asked, Line};
use crate::help::{self, Texts};
use crate::limits::MAX_WORKERS;
use clap::{Arg, ArgAction, ArgMatches, Command};
use rh_arguments::LineFault;
use rh_arguments::flags::{flag_arg, is_given};
use rh_arguments::parsing::{
    describe, find_arguments, number, number_arg, program_command, text, text_arg, texts,
    with_subcommand,
};
use rh_arguments::skip::{skip_arg, skip_asked};
use rh_combine::{Form, How};
use std::alloc::{AllocError, Global};

/// The program's name.
pub const NAME: &str = "rhkeys";

/// What `words` ask for, of which the first is the program's name.
///
/// `LineFault::Memory` comes only where a growth was refused.
pub fn line(alloc: Global, words: &[String]) -> Result<Line, LineFault>
    ensures asked { IfOk result (λ l. Asks (subcommand_of rhkeys_app (texts_of words.now)) l) }
    ensures taken { IfOk result (λ l. fault_of rhkeys_app (texts_of words.now) ≡ []) }
    ensures refused { IfErr result (λ f. IsOneOf (fault_of rhkeys_app (texts_of words.now)) f) }
{
    let matches = find_arguments(command(alloc)?, words)?;
    let line = line_in(alloc, &matches)?;
    Ok(line)
}

fn line_in(alloc: Global, matches: &ArgMatches<'_>) -> Result<Line, AllocError>
    requires { Finds IsCommand (subcommand_rows_of matches.now) }
    ensures { IfOk result (λ l. Asks (subcommand_rows_of matches.now) l) }
{
    match matches.subcommand() {
        Some(("intersect", given)) => lists_asked(alloc, How::Intersect, given),
        Some(("union", given)) => lists_asked(alloc, How::Union, given),
        Some(("subtract", given)) => lists_asked(alloc, How::Subtract, given),
        Some(("xor", given)) => lists_asked(alloc, How::Xor, given),
        Some(("atleast", given)) => atleast_asked(alloc, given),
        Some(("select", given)) => select_asked(alloc, given),
        _ => unreachable!(),
    }
}

fn lists_asked(alloc: Global, how: How, given: &ArgMatches<'_>) -> Result<Line, AllocError>
    requires { HasArguments (rows_of (found_of given.now)) }
    ensures { IfOk result (λ l. Says (name_of how) (rows_of (found_of given.now)) l) }
{
    line_of(alloc, Asked::Made(how), given)
}

fn atleast_asked(alloc: Global, given: &ArgMatches<'_>) -> Result<Line, AllocError>
    requires { HasWith (codes "least") (rows_of (found_of given.now)) }
    ensures { IfOk result (λ l. Says (codes "atleast") (rows_of (found_of given.now)) l) }
{
    let least = text(alloc, given, "least")?;
    line_of(alloc, Asked::AtLeast(least), given)
}

fn select_asked(alloc: Global, given: &ArgMatches<'_>) -> Result<Line, AllocError>
    requires { HasWith (codes "expression") (rows_of (found_of given.now)) }
    ensures { IfOk result (λ l. Says (codes "select") (rows_of (found_of given.now)) l) }
{
    let expression = text(alloc, given, "expression")?;
    line_of(alloc, Asked::Select(expression), given)
}

/// What is asked, with what all commands on lists are given.
fn line_of(alloc: Global, asked: Asked, given: &ArgMatches<'_>) -> Result<Line, AllocError>
    requires { HasArguments (rows_of (found_of given.now)) }
    ensures asked { IfOk result (λ l. l.asked ≡ asked) }
    ensures lists { IfOk result (AsksLists (rows_of (found_of given.now))) }
{
    let form = form_of(is_given(given, "count"), is_given(given, "packed"));
    let workers = number(given, "workers", 0, MAX_WORKERS);
    let skip = skip_asked(given);
    let files = texts(alloc, given, "file")?;
    Ok(Line {
        asked,
        form,
        workers,
        skip,
        files,
    })
}

/// What is written, by the flags that are given.
fn form_of(count: bool, packed: bool) -> Option<Form>
    ensures { result ≡ form_asked count packed }
{
    match (count, packed) {
        (true, true) => None,
        (true, false) => Some(Form::Count),
        (false, true) => Some(Form::Packed),
        (false, false) => Some(Form::Lines),
    }
}

fn command<'a>(alloc: Global) -> Result<Command<'a>, AllocError>
    ensures { IfOk result (λ c. app_of c ≡ rhkeys_app) }
{
    let program = program_command(
        alloc,
        NAME,
        NAME,
        help::PROGRAM,
        help::PROGRAM_AT_LENGTH,
        help::STATUSES,
    );
    let intersect = lists_command(alloc, "intersect", &help::INTERSECT);
    let union = lists_command(alloc, "union", &help::UNION);
    let subtract = lists_command(alloc, "subtract", &help::SUBTRACT);
    let xor = lists_command(alloc, "xor", &help::XOR);
    let with_intersect = with_subcommand(program, intersect);
    let with_union = with_subcommand(with_intersect, union);
    let with_subtract = with_subcommand(with_union, subtract);
    let with_xor = with_subcommand(with_subtract, xor);
    let atleast = atleast_command(alloc);
    let with_atleast = with_subcommand(with_xor, atleast);
    with_subcommand(with_atleast, select_command(alloc))
}

fn lists_command<'a>(alloc: Global, name: &'a str, texts: &Texts) -> Result<Command<'a>, AllocError>
    ensures { IfOk result (λ c. app_of c ≡ lists_app name.now) }
{
    flagged(alloc, name, texts)?
        .arg(lists_arg(alloc, "FILE", help::LIST_FILES))?
        .arg(skip_arg(alloc))
}

fn atleast_command<'a>(alloc: Global) -> Result<Command<'a>, AllocError>
    ensures { IfOk result (λ c. app_of c ≡ atleast_app) }
{
    flagged(alloc, "atleast", &help::ATLEAST)?
        .arg(text_arg(alloc, "least", "K", help::LEAST))?
        .arg(lists_arg(alloc, "FILE", help::LIST_FILES))?
        .arg(skip_arg(alloc))
}

fn select_command<'a>(alloc: Global) -> Result<Command<'a>, AllocError>
    ensures { IfOk result (λ c. app_of c ≡ select_app) }
{
    flagged(alloc, "select", &help::SELECT)?
        .arg(text_arg(alloc, "expression", "EXPRESSION", help::EXPRESSION))?
        .arg(lists_arg(alloc, "NAME=FILE", help::NAMED_FILES))?
        .arg(skip_arg(alloc))
}

// The command with what all commands on lists take before their FILEs: with more arguments, a proof
// of it takes too long.
fn flagged<'a>(alloc: Global, name: &'a str, texts: &Texts) -> Result<Command<'a>, AllocError>
    ensures { IfOk result (λ c. app_of c ≡ flagged_app name.now) }
{
    describe(alloc, name, texts.about, texts.at_length, help::LISTS)
        .arg(number_arg(alloc, "workers", MAX_WORKERS, help::WORKERS))?
        .arg(flag_arg(alloc, "count", help::COUNT))?
        .arg(flag_arg(alloc, "packed", help::PACKED))
}

fn lists_arg<'a>(alloc: Global, name: &'a str, text: &'a str) -> Arg<'a>
    ensures { IsArg lists_rule result }
{
    Arg::new(alloc, "file")
        .value_name(name)
        .required(true)
        .action(ArgAction::Append)
        .help(text)
}
