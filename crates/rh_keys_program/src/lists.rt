//! What a command on lists asks for, and what is told of its faults.

ghost use Rattle.std.specs.Prelude.{◌≡◌, ◌<◌, ◌≤◌, map, min, string_bytes, vec_len};
ghost use Rattle.std.specs.List.{count_by};
ghost use Rattle.rh_lists.specs.Files.{is_input};
ghost use Rattle.rh_lists.specs.Paths.{IsInside};
ghost use Rattle.rh_expressions.specs.Naming.{IsWithin};
ghost use Rattle.rh_keys_program.specs.Told.{TellsCommand, TellsList, TellsSelect, path_of};

use crate::fault::{Fault, InputFault, Place};
use crate::inputs::told_of_input;
use crate::marked::Marked;
use rh_cli::{ProgramFault, STANDARD_INPUT, size_of};
use rh_expressions::SelectFault;
use rh_key_commands::MAX_WORKERS;
use rh_lists::{CommandFault, FileFault, INPUT, ListFault};
use std::fs::Files;
use std::thread::{self, Threads};

/// So many workers, or as many as there are processors where none is asked for; 64 at the most.
pub fn workers_of(rt: &impl Threads, asked: usize) -> usize
    ensures some { 0 < result }
    ensures few { result ≤ MAX_WORKERS }
    ensures asked { 0 < asked → result ≡ min asked MAX_WORKERS }
{
    if asked > 0 {
        return asked.min(MAX_WORKERS);
    }
    match thread::available_parallelism(rt) {
        Ok(processors) => processors.get().clamp(1, MAX_WORKERS),
        Err(_) => 1,
    }
}

/// How often standard input is named.
pub fn times_named(paths: &[String]) -> usize
    ensures { result ≡ count_by is_input (map string_bytes paths.now) }
{
    paths.iter().filter(|path| path.as_str() == INPUT).count()
}

/// How many bytes the files have, where that is known of each.
pub fn bytes_of(files: &impl Files, paths: &[String]) -> Option<u64> {
    let mut total = 0u64;
    for path in paths {
        let is_input = path.as_str() == INPUT;
        let size = size_of(
            files,
            if is_input {
                STANDARD_INPUT
            } else {
                path.as_str()
            },
        )?;
        total = total.saturating_add(size);
    }
    Some(total)
}

/// The fault, with the path of its file. Want of memory and a failed write are no faults of a file.
pub fn with_path(files: &impl Files, mut paths: Vec<String>, fault: CommandFault) -> Fault
    requires { IsInside (vec_len paths) fault }
    ensures { TellsCommand (map string_bytes paths.items) fault result }
{
    match fault {
        CommandFault::Write => Fault::Program(ProgramFault::Write),
        CommandFault::Memory => Fault::Program(ProgramFault::Memory),
        CommandFault::List { index, fault } => {
            let place = Place::File(paths.swap_remove(index));
            told_of_list(files, place, fault)
        }
    }
}

/// What is told of this fault of the list that stands there.
pub fn told_of_list(files: &impl Files, place: Place, fault: FileFault) -> Fault
    ensures { TellsList (path_of place) fault result }
{
    let fault = match fault {
        FileFault::Shelf(fault) => InputFault::Open(fault),
        FileFault::List(ListFault::Text(fault)) => InputFault::Text(fault),
        FileFault::List(ListFault::Keys(fault)) => InputFault::Keys(fault),
    };
    told_of_input(files, place, fault)
}

/// What is told of this fault of what `select` was asked with. Want of memory is no fault of that.
pub fn told_of_select(text: String, mut words: Vec<String>, fault: SelectFault) -> Fault
    requires { IsWithin (vec_len words) fault }
    ensures { TellsSelect (string_bytes text) (map string_bytes words.items) fault result }
{
    match fault {
        SelectFault::Memory => Fault::Program(ProgramFault::Memory),
        SelectFault::Expression { at, .. } => Fault::Expression {
            fault,
            marked: Marked { text, at },
        },
        SelectFault::NoName { word } | SelectFault::Twice { word } | SelectFault::Unused { word } =>
            Fault::Word {
                word: words.swap_remove(word),
                fault,
            },
    }
}
