//! Flags, whose long names are their ids.

ghost use Rattle.std.specs.Prelude.{◌↔◌, IsTrue};
ghost use Rattle.clap.specs.Words.{found_of, rows_of};
ghost use Rattle.rh_arguments.specs.Flags.{IsGiven, flag_rule};
ghost use Rattle.rh_arguments.specs.Words.{IsArg};

use clap::{Arg, ArgAction, ArgMatches};
use std::alloc::Global;

/// A flag of this name, `--id`.
pub fn flag_arg<'a>(alloc: Global, id: &'a str, help: &'a str) -> Arg<'a>
    ensures { IsArg (flag_rule id.now) result }
{
    Arg::new(alloc, id)
        .long(id)
        .action(ArgAction::SetTrue)
        .help(help)
}

/// Whether the flag was given.
pub fn is_given(given: &ArgMatches<'_>, flag: &str) -> bool
    ensures { IsTrue result ↔ IsGiven flag.now (rows_of (found_of given.now)) }
{
    // The text says it exactly, where `get_flag` promises nothing of other texts.
    given.get_str(flag) == Some("true")
}
