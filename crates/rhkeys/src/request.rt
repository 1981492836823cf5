//! What the words of a line ask of which lists.

ghost use Rattle.std.specs.Prelude.{◌≡◌, ◌≤◌, IfErr, IfOk, map, string_bytes, vec_len};
ghost use Rattle.rh_questions.specs.Wanted.{Takes};
ghost use Rattle.rhkeys.specs.Request.{IsAsked, IsLeast, IsRefused, RefusesNumber, RefusesSelect};
ghost use Rattle.rhkeys.specs.Request.{IsSelected, Refuses, Requests, takes_one};

use rh_combine::{Form, How};
use rh_expressions::{Select, read_select};
use rh_key_commands::{Asked, Line};
use rh_keys_program::{Fault, told_of_select};
use rh_questions::{MOST_LISTS, Selection, Wanted};
use std::alloc::Global;

/// What is asked of which lists, and how it is worked out and written.
#[derive(Drop)]
pub struct Request {
    pub wanted: Wanted,
    pub run: Run,
}

/// How an answer is worked out and written, and where the lists are.
#[derive(Drop)]
pub struct Run {
    pub form: Form,
    /// How many share the work; 0: as many as there are processors.
    pub workers: usize,
    /// So many lines of each text are passed by.
    pub skip: usize,
    pub paths: Vec<String>,
}

/// What the line asks for. Want of memory is told only where a growth was refused.
pub fn request_of(alloc: Global, line: Line) -> Result<Request, Fault>
    ensures asked { IfOk result (Requests line) }
    ensures takes { IfOk result (λ r. Takes r.wanted (vec_len r.run.paths)) }
    ensures refused { IfErr result (Refuses line) }
{
    let Line {
        asked,
        form,
        workers,
        skip,
        files,
    } = line;
    let Some(form) = form else {
        return Err(Fault::TwoOutputs);
    };
    if files.len() == 1 && !takes_one(&asked) {
        return Err(Fault::OneList);
    }
    let (wanted, paths) = wanted_of(alloc, asked, files)?;
    Ok(Request {
        wanted,
        run: Run {
            form,
            workers,
            skip,
            paths,
        },
    })
}

/// Whether the command says something of one list. For the others a FILE or a `-` was forgotten.
fn takes_one(asked: &Asked) -> bool
    ensures { result ≡ takes_one asked.now }
{
    matches!(
        asked,
        Asked::Made(How::Union) | Asked::AtLeast(_) | Asked::Select(_)
    )
}

/// What is wanted of the lists at which paths, where the files are given so.
fn wanted_of(
    alloc: Global,
    asked: Asked,
    files: Vec<String>,
) -> Result<(Wanted, Vec<String>), Fault>
    ensures asked { IfOk result (λ r.
        IsAsked asked (map string_bytes files.items) r.0 (map string_bytes r.1.items)) }
    ensures takes { IfOk result (λ r. Takes r.0 (vec_len r.1)) }
    ensures refused { IfErr result (IsRefused asked (map string_bytes files.items)) }
{
    match asked {
        Asked::Made(how) => Ok((Wanted::Made(how), files)),
        Asked::AtLeast(text) => {
            let least = least_of(&text, files.len())?;
            Ok((Wanted::Selected(Selection::AtLeast(least)), files))
        }
        Asked::Select(text) => {
            let Select { expression, paths } = select_of(alloc, text, files)?;
            Ok((Wanted::Selected(Selection::Where(expression)), paths))
        }
    }
}

/// In how many of so many lists a number shall stand, which is written so.
fn least_of(text: &str, lists: usize) -> Result<usize, Fault>
    ensures least { IfOk result (IsLeast text.now lists) }
    ensures refused { IfErr result (RefusesNumber text.now lists) }
{
    if lists > MOST_LISTS {
        return Err(Fault::TooMany);
    }
    match text.parse::<usize>() {
        Ok(least) if least >= 1 && least <= lists => Ok(least),
        _ => Err(Fault::Least { lists }),
    }
}

/// The expression, which is written so, and the paths of the lists that these words name.
fn select_of(alloc: Global, text: String, words: Vec<String>) -> Result<Select, Fault>
    ensures read { IfOk result (IsSelected (string_bytes text) (map string_bytes words.items)) }
    ensures few { IfOk result (λ s. vec_len s.paths ≤ MOST_LISTS) }
    ensures refused { IfErr result
        (RefusesSelect (string_bytes text) (map string_bytes words.items)) }
{
    if words.len() > MOST_LISTS {
        return Err(Fault::TooMany);
    }
    match read_select(alloc, &text, &words) {
        Ok(select) => Ok(select),
        Err(fault) => Err(told_of_select(text, words, fault)),
    }
}
