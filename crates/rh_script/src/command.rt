//! The command of a line.

ghost use Rattle.std.specs.Prelude.{◌≡◌, option_map, string_bytes};
ghost use Rattle.rh_lines.specs.Lines.{words_of};
ghost use Rattle.rh_script.specs.Grammar.{name_and_path, one_name, one_path};
ghost use Rattle.rh_script.specs.Grammar.{instruction_in, instruction_of, said_in};
ghost use Rattle.rh_script.specs.Steps.{instruction_as};
ghost use Rattle.rh_script.specs.Script.{Answers};

use crate::fault::ScriptFaultKind;
use crate::name::is_name;
use crate::script::Command;
use crate::verb::Verb;
use rh_lines::{end_of_words, is_skipped, next_word, printable};
use std::alloc::Global;

/// What a line says, if it is not skipped.
#[tactic(auto, unfolding(rh_lines::specs::Grammar::line_said))]
pub(crate) fn read_command(alloc: Global, line: &[u8]) -> Result<Option<Command>, ScriptFaultKind>
    ensures { Answers (said_in line.now) (option_map instruction_as) result }
{
    if is_skipped(line) {
        return Ok(None);
    }
    let Some(text) = printable(line) else {
        return Err(ScriptFaultKind::BadCommand);
    };
    let command = command_in(alloc, text)?;
    Ok(Some(command))
}

#[tactic(auto, unfolding(crate::specs::Grammar::instruction_in))]
fn command_in(alloc: Global, text: &str) -> Result<Command, ScriptFaultKind>
    ensures { Answers (instruction_in (words_of text.now)) instruction_as result }
{
    let Some((word, rest)) = next_word(text) else {
        return Err(ScriptFaultKind::BadCommand);
    };
    let Some(verb) = Verb::from_word(word) else {
        return Err(ScriptFaultKind::BadCommand);
    };
    command_of(alloc, verb, rest)
}

#[tactic(auto, unfolding(crate::specs::Grammar::instruction_of, rh_lines::specs::Grammar::no_word))]
fn command_of(alloc: Global, verb: Verb, rest: &str) -> Result<Command, ScriptFaultKind>
    ensures { Answers (instruction_of verb (words_of rest.now)) instruction_as result }
{
    Ok(match verb {
        Verb::Use => {
            let (name, path) = read_name_and_path(alloc, rest)?;
            Command::Use { name, path }
        }
        Verb::Act(action) => Command::Act {
            action,
            name: read_name(alloc, rest)?,
        },
        Verb::Save => Command::Save {
            name: read_name(alloc, rest)?,
        },
        Verb::Clear => {
            let Some(()) = end_of_words(rest) else {
                return Err(ScriptFaultKind::BadCommand);
            };
            Command::Clear
        }
        Verb::Dump => {
            let Some(()) = end_of_words(rest) else {
                return Err(ScriptFaultKind::BadCommand);
            };
            Command::Dump
        }
        Verb::Snapshot => Command::Snapshot {
            path: read_path(alloc, rest)?,
        },
        Verb::Restore => Command::Restore {
            path: read_path(alloc, rest)?,
        },
    })
}

/// A name and a path, and nothing after them.
#[tactic(auto, unfolding(crate::specs::Grammar::name_and_path))]
fn read_name_and_path(alloc: Global, rest: &str) -> Result<(String, String), ScriptFaultKind>
    ensures { Answers (name_and_path (words_of rest.now))
        (λ given. (string_bytes given.0, string_bytes given.1)) result }
{
    let Some((name, rest)) = next_word(rest) else {
        return Err(ScriptFaultKind::BadCommand);
    };
    let Some((path, rest)) = next_word(rest) else {
        return Err(ScriptFaultKind::BadCommand);
    };
    let Some(()) = end_of_words(rest) else {
        return Err(ScriptFaultKind::BadCommand);
    };
    if !is_name(name) {
        return Err(ScriptFaultKind::BadName);
    }
    let name = String::from_str(alloc, name)?;
    let path = String::from_str(alloc, path)?;
    Ok((name, path))
}

/// A name, and nothing after it.
#[tactic(auto, unfolding(crate::specs::Grammar::one_name))]
fn read_name(alloc: Global, rest: &str) -> Result<String, ScriptFaultKind>
    ensures { Answers (one_name (words_of rest.now)) string_bytes result }
{
    let Some((name, rest)) = next_word(rest) else {
        return Err(ScriptFaultKind::BadCommand);
    };
    let Some(()) = end_of_words(rest) else {
        return Err(ScriptFaultKind::BadCommand);
    };
    if !is_name(name) {
        return Err(ScriptFaultKind::BadName);
    }
    let name = String::from_str(alloc, name)?;
    Ok(name)
}

/// A path, and nothing after it.
#[tactic(auto, unfolding(crate::specs::Grammar::one_path))]
fn read_path(alloc: Global, rest: &str) -> Result<String, ScriptFaultKind>
    ensures { Answers (one_path (words_of rest.now)) string_bytes result }
{
    let Some((word, rest)) = next_word(rest) else {
        return Err(ScriptFaultKind::BadCommand);
    };
    let Some(()) = end_of_words(rest) else {
        return Err(ScriptFaultKind::BadCommand);
    };
    let path = String::from_str(alloc, word)?;
    Ok(path)
}
