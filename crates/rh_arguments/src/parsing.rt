//! Command lines: the program before its commands, its arguments, and what `clap` finds in the
//! words.

ghost use Rattle.std.specs.Prelude.{◌≡◌, [], map, IfOk, IfErr, IsOkAnd, true};
ghost use Rattle.clap.specs.Simple.{new_app};
ghost use Rattle.clap.specs.Words.{AddsSubcommand, app_of, fault_of, found_of, is_simple_and_free};
ghost use Rattle.clap.specs.Words.{rows_of};
ghost use Rattle.clap.specs.Words.{subcommand_of, subcommand_rows_of};
ghost use Rattle.rh_arguments.specs.Faults.{IsOneOf};
ghost use Rattle.rh_arguments.specs.Words.{IsArg, IsTextFor, GivesAll, GivesNumber, HasNumber, HasText};
ghost use Rattle.rh_arguments.specs.Words.{number_rule, path_rule, program_app, texts_of};

use crate::fault::LineFault;
use clap::builder::ValueParser;
use clap::{Arg, ArgAction, ArgMatches, Command};
use std::alloc::{AllocError, Global};

const VERSION: &str = "0.1.0";

/// The program of this name, which needs a command, with the texts of its `--help`. Usage lines
/// show the name by which it was called.
pub fn program_command<'a>(
    alloc: Global,
    name: &'a str,
    called: &str,
    about: &'a str,
    long_about: &'a str,
    statuses: &'a str,
) -> Result<Command<'a>, AllocError>
    ensures { IfOk result (λ c. app_of c ≡ program_app name.now) }
{
    describe(alloc, name, about, long_about, statuses)
        .version(VERSION)
        .subcommand_required(true)
        .bin_name(called)
}

/// A command of this name that takes nothing yet, with the texts that `-h` and `--help` print of
/// it.
pub fn describe<'a>(
    alloc: Global,
    name: &'a str,
    about: &'a str,
    long_about: &'a str,
    after_help: &'a str,
) -> Command<'a>
    ensures { app_of result ≡ new_app name.now }
{
    Command::new(alloc, name)
        .about(about)
        .long_about(long_about)
        .after_help(after_help)
}

/// The command with one more subcommand, where both could be made.
pub fn with_subcommand<'a>(
    command: Result<Command<'a>, AllocError>,
    subcommand: Result<Command<'a>, AllocError>,
) -> Result<Command<'a>, AllocError>
    ensures { IfOk result (λ c. IsOkAnd command.entry
        (λ old. IsOkAnd subcommand.entry (λ sub. AddsSubcommand old sub c))) }
{
    // With these `?` at the callers, each of them would drop a command there, once for each
    // subcommand; a step that may drop one makes a proof dear.
    command?.subcommand(subcommand?)
}

/// What the command finds in the words.
/// Want of memory may be told whatever the words say: what `clap` is told of the commands takes
/// some.
pub fn find_arguments<'a>(
    command: Command<'a>,
    words: &'a [String],
) -> Result<ArgMatches<'a>, LineFault>
    requires { is_simple_and_free (app_of command) ≡ true }
    ensures found { IfOk result (λ m.
        subcommand_rows_of m ≡ subcommand_of (app_of command.entry) (texts_of words.now)) }
    ensures taken { IfOk result (λ m. fault_of (app_of command.entry) (texts_of words.now) ≡ []) }
    ensures refused { IfErr result (λ f.
        IsOneOf (fault_of (app_of command.entry) (texts_of words.now)) f) }
{
    Ok(command.try_get_matches_from(words)?)
}

/// The text for an argument that has to be given.
pub fn text(alloc: Global, given: &ArgMatches<'_>, id: &str) -> Result<String, AllocError>
    requires { HasText id.now (rows_of (found_of given.now)) }
    ensures { IfOk result (λ t. IsTextFor id.now (rows_of (found_of given.now)) t) }
{
    String::from_str(alloc, given.get_str(id).unwrap())
}

/// The texts for an argument that may be given any number of times, in their order.
pub fn texts(alloc: Global, given: &ArgMatches<'_>, id: &str) -> Result<Vec<String>, AllocError>
    ensures { IfOk result (λ ts. GivesAll id.now (rows_of (found_of given.now)) ts.items) }
{
    match given.get_strs(id) {
        Some(texts) => copy_texts(alloc, texts),
        None => Ok(Vec::new(alloc)),
    }
}

fn copy_texts(alloc: Global, texts: &[&str]) -> Result<Vec<String>, AllocError>
    ensures { IfOk result (λ ts. texts_of ts.items ≡ map (λ t. t.now) texts.now) }
{
    let mut copies = Vec::new(alloc);
    for text in texts {
        copies.push(String::from_str(alloc, text)?)?;
    }
    Ok(copies)
}

/// The number for an argument that always has one within these bounds.
pub fn number(given: &ArgMatches<'_>, id: &str, least: usize, most: usize) -> usize
    requires { HasNumber id.now least most (rows_of (found_of given.now)) }
    ensures { GivesNumber id.now least most (rows_of (found_of given.now)) result }
{
    let _ = (least, most);
    given.get_one(id).unwrap()
}

/// An argument that has to be given, such as a path, and may be any text.
pub fn text_arg<'a>(alloc: Global, id: &'a str, name: &'a str, help: &'a str) -> Arg<'a>
    ensures { IsArg (path_rule id.now) result }
{
    Arg::new(alloc, id)
        .value_name(name)
        .required(true)
        .action(ArgAction::Set)
        .help(help)
}

/// An argument `--id N`: a number from 0 to `most`, and 0 where it is left out.
pub fn number_arg<'a>(alloc: Global, id: &'a str, most: usize, help: &'a str) -> Arg<'a>
    ensures { IsArg (number_rule id.now most) result }
{
    Arg::new(alloc, id)
        .long(id)
        .value_name("N")
        .action(ArgAction::Set)
        .value_parser(ValueParser::unsigned(0, most as u64))
        .default_value("0")
        .help(help)
}
