//! Reading the words of the command line.

ghost use Rattle.std.specs.Prelude.{◌≡◌, [], IfOk, IfErr, codes};
ghost use Rattle.clap.specs.Words.{app_of, fault_of, found_of, rows_of};
ghost use Rattle.clap.specs.Words.{subcommand_of, subcommand_rows_of};
ghost use Rattle.rh_arguments.specs.Faults.{IsOneOf};
ghost use Rattle.rh_arguments.specs.Skip.{HasSkip};
ghost use Rattle.rh_arguments.specs.Words.{Finds, IsArg, texts_of};
ghost use Rattle.rh_pack_commands.specs.Line.{Asks, HasSplitArguments, IsCommand, Says, check_app};
ghost use Rattle.rh_pack_commands.specs.Line.{file_rule, files_rule, list_app, named_split, pack_app};
ghost use Rattle.rh_pack_commands.specs.Line.{rhpack_app, split_app};

use crate::asked::Line;
use crate::help;
use crate::limits::MAX_PARTS;
use clap::{Arg, ArgAction, ArgMatches, Command};
use rh_arguments::flags::{flag_arg, is_given};
use rh_arguments::parsing::{
    describe, find_arguments, number, number_arg, program_command, text, text_arg, texts,
    with_subcommand,
};
use rh_arguments::skip::{skip_arg, skip_asked};
use rh_arguments::{LineFault, name_called};
use std::alloc::{AllocError, Global};

/// The program's own name.
pub const NAME: &str = "rhpack";

/// What `words` ask for, of which the first is the name by which the program was called. Usage
/// lines show it: `rhkeys` where the launcher of that program hands the words on.
///
/// `LineFault::Memory` comes only where a growth was refused.
pub fn line(alloc: Global, words: &[String]) -> Result<Line, LineFault>
    ensures asked { IfOk result (λ l. Asks (subcommand_of rhpack_app (texts_of words.now)) l) }
    ensures taken { IfOk result (λ l. fault_of rhpack_app (texts_of words.now) ≡ []) }
    ensures refused { IfErr result (λ f. IsOneOf (fault_of rhpack_app (texts_of words.now)) f) }
{
    let called = name_called(words, NAME);
    let matches = find_arguments(command(alloc, called)?, words)?;
    let line = line_in(alloc, &matches)?;
    Ok(line)
}

fn line_in(alloc: Global, matches: &ArgMatches<'_>) -> Result<Line, AllocError>
    requires { Finds IsCommand (subcommand_rows_of matches.now) }
    ensures { IfOk result (λ l. Asks (subcommand_rows_of matches.now) l) }
{
    match matches.subcommand() {
        Some(("check", given)) => check_asked(alloc, given),
        Some(("pack", given)) => pack_asked(alloc, given),
        Some(("list", given)) => list_asked(alloc, given),
        Some(("split", given)) => split_asked(alloc, given),
        _ => unreachable!(),
    }
}

fn check_asked(alloc: Global, given: &ArgMatches<'_>) -> Result<Line, AllocError>
    requires { HasSkip (rows_of (found_of given.now)) }
    ensures { IfOk result (λ l. Says (codes "check") (rows_of (found_of given.now)) l) }
{
    let skip = skip_asked(given);
    let files = texts(alloc, given, "file")?;
    Ok(Line::Check { skip, files })
}

fn pack_asked(alloc: Global, given: &ArgMatches<'_>) -> Result<Line, AllocError>
    requires { HasSkip (rows_of (found_of given.now)) }
    ensures { IfOk result (λ l. Says (codes "pack") (rows_of (found_of given.now)) l) }
{
    let skip = skip_asked(given);
    let files = texts(alloc, given, "file")?;
    Ok(Line::Pack { skip, files })
}

fn list_asked(alloc: Global, given: &ArgMatches<'_>) -> Result<Line, AllocError>
    ensures { IfOk result (λ l. Says (codes "list") (rows_of (found_of given.now)) l) }
{
    let snapshot = is_given(given, "snapshot");
    let files = texts(alloc, given, "file")?;
    Ok(Line::List { snapshot, files })
}

fn split_asked(alloc: Global, given: &ArgMatches<'_>) -> Result<Line, AllocError>
    requires { HasSplitArguments (rows_of (found_of given.now)) }
    ensures { IfOk result (λ l. Says (codes "split") (rows_of (found_of given.now)) l) }
{
    let parts = number(given, "parts", 0, MAX_PARTS);
    let key_file = is_given(given, "key-file");
    let plan = is_given(given, "plan");
    let name = text(alloc, given, "name")?;
    let skip = skip_asked(given);
    let files = texts(alloc, given, "file")?;
    Ok(Line::Split {
        parts,
        key_file,
        plan,
        name,
        skip,
        files,
    })
}

fn command<'a>(alloc: Global, called: &str) -> Result<Command<'a>, AllocError>
    ensures { IfOk result (λ c. app_of c ≡ rhpack_app) }
{
    let program = program_command(
        alloc,
        NAME,
        called,
        help::PROGRAM,
        help::PROGRAM_AT_LENGTH,
        help::STATUSES,
    );
    let with_check = with_subcommand(program, check_command(alloc));
    let with_pack = with_subcommand(with_check, pack_command(alloc));
    let with_list = with_subcommand(with_pack, list_command(alloc));
    with_subcommand(with_list, split_command(alloc))
}

fn check_command<'a>(alloc: Global) -> Result<Command<'a>, AllocError>
    ensures { IfOk result (λ c. app_of c ≡ check_app) }
{
    describe(
        alloc,
        "check",
        help::CHECK,
        help::CHECK_AT_LENGTH,
        help::CHECK_FORMATS,
    )
    .arg(files_arg(alloc, help::CHECK_FILES))?
    .arg(skip_arg(alloc))
}

fn pack_command<'a>(alloc: Global) -> Result<Command<'a>, AllocError>
    ensures { IfOk result (λ c. app_of c ≡ pack_app) }
{
    describe(
        alloc,
        "pack",
        help::PACK,
        help::PACK_AT_LENGTH,
        help::PACK_FORMATS,
    )
    .arg(file_arg(alloc))?
    .arg(skip_arg(alloc))
}

fn list_command<'a>(alloc: Global) -> Result<Command<'a>, AllocError>
    ensures { IfOk result (λ c. app_of c ≡ list_app) }
{
    describe(
        alloc,
        "list",
        help::LIST,
        help::LIST_AT_LENGTH,
        help::LIST_FORMATS,
    )
    .arg(flag_arg(alloc, "snapshot", help::SNAPSHOT))?
    .arg(files_arg(alloc, help::FILES))
}

fn split_command<'a>(alloc: Global) -> Result<Command<'a>, AllocError>
    ensures { IfOk result (λ c. app_of c ≡ split_app) }
{
    named_split(alloc)?
        .arg(file_arg(alloc))?
        .arg(skip_arg(alloc))
}

// The command without its FILE and `--skip`: with one argument more, a proof of it takes too long.
fn named_split<'a>(alloc: Global) -> Result<Command<'a>, AllocError>
    ensures { IfOk result (λ c. app_of c ≡ named_split) }
{
    describe(
        alloc,
        "split",
        help::SPLIT,
        help::SPLIT_AT_LENGTH,
        help::SPLIT_FORMATS,
    )
    .arg(number_arg(alloc, "parts", MAX_PARTS, help::PARTS))?
    .arg(flag_arg(alloc, "key-file", help::KEY_FILE))?
    .arg(flag_arg(alloc, "plan", help::PLAN))?
    .arg(text_arg(alloc, "name", "NAME", help::NAME))
}

fn file_arg<'a>(alloc: Global) -> Arg<'a>
    ensures { IsArg file_rule result }
{
    Arg::new(alloc, "file")
        .value_name("FILE")
        .action(ArgAction::Set)
        .help(help::FILE)
}

fn files_arg<'a>(alloc: Global, help: &'a str) -> Arg<'a>
    ensures { IsArg files_rule result }
{
    Arg::new(alloc, "file")
        .value_name("FILE")
        .action(ArgAction::Append)
        .help(help)
}
