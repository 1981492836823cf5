//! The words of a command line, as `clap` reads them, and what the command lines share.
//!
//! `rh_commands`, `rh_key_commands`, `rh_pack_commands` and `rh_play_commands` read their command
//! lines by it.
//!
//! Proved:
//!
//! - `program_command`, `text_arg`, `number_arg`, `flag_arg` and `skip_arg` build the program and
//!   the arguments of `specs/`, `describe` and `with_subcommand` the command that `clap` says.
//! - `find_arguments`: what is found is what the words name by the rules of `clap`. They are
//!   refused exactly by the kinds of fault that those rules give.
//! - `text`, `texts`, `number`, `skip_asked`: what was found for an argument. `is_given`: a flag is
//!   given exactly where the text that `clap` found for it is `true`.
//! - `name_called`: the name is the last component of the first word, taken as a path, or the
//!   program's own where it has none.
//! - `fixed_numbers`: at most a billion lines are passed by.
#![tactic(auto)]

mod fault;
pub mod flags;
mod laws;
mod limits;
mod name;
pub mod parsing;
pub mod skip;

pub use fault::LineFault;
pub use laws::fixed_numbers;
pub use limits::MAX_SKIP;
pub use name::name_called;
