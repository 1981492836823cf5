//! The argument `--skip`: how many of the first lines of a text are passed by.

ghost use Rattle.clap.specs.Words.{found_of, rows_of};
ghost use Rattle.rh_arguments.specs.Skip.{GivesSkip, HasSkip, skip_rule};
ghost use Rattle.rh_arguments.specs.Words.{IsArg};

use crate::limits::MAX_SKIP;
use crate::parsing::{number, number_arg};
use clap::{Arg, ArgMatches};
use std::alloc::Global;

const HELP: &str =
    "Pass by the first N lines of each text, as a heading is; their line feeds count";

/// The argument, up to `MAX_SKIP`.
pub fn skip_arg<'a>(alloc: Global) -> Arg<'a>
    ensures { IsArg skip_rule result }
{
    number_arg(alloc, "skip", MAX_SKIP, HELP)
}

/// How many lines are to be passed by.
pub fn skip_asked(given: &ArgMatches<'_>) -> usize
    requires { HasSkip (rows_of (found_of given.now)) }
    ensures { GivesSkip (rows_of (found_of given.now)) result }
{
    number(given, "skip", 0, MAX_SKIP)
}
