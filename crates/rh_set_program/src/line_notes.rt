//! What is said of a line that no script may have.

ghost use Rattle.std.specs.Prelude.{◌≡◌, ◌≢◌, ◌-◌, None, Some, IfSome, IsTrue, MatchOption, not, string_bytes};
ghost use Rattle.std.specs.List.{list_all, slice_get};
ghost use Rattle.rh_streams.specs.Quoted.{quoted};
ghost use Rattle.rh_lines.specs.Lines.{is_printable, lines_of};
ghost use Rattle.rh_script.specs.Grammar.{verb_of};
ghost use Rattle.rh_set_program.specs.Notes.{NotesCommand, NotesName, NotesScript};
ghost use Rattle.rh_set_program.specs.Notes.{ShowsLine, ShowsWord};

use crate::note::Note;
use rh_lines::{next_line, next_word, printable, without_return};
use rh_script::{ScriptFault, ScriptFaultKind};
use rh_streams::quoted;
use std::alloc::Global;

/// What is said of the fault of a text that is no script: the word and the rule, of a bad name and
/// of a bad command.
pub(crate) fn note_on_script(alloc: Global, text: &[u8], fault: &ScriptFault) -> Option<Note>
    ensures { IfSome result (NotesScript text.now fault.now) }
{
    let line = without_return(line_at(text, fault.line)?);
    match fault.kind {
        ScriptFaultKind::BadName => note_on_name(alloc, line),
        ScriptFaultKind::BadCommand => note_on_command(alloc, line),
        _ => None,
    }
}

/// The line of this number, of which the first is line 1.
fn line_at(text: &[u8], number: u64) -> Option<&[u8]>
    ensures { IfSome result (λ line. slice_get (lines_of text.now) (number - 1) ≡ Some line.now) }
{
    let before = number.checked_sub(1)?;
    let mut rest = text;
    for _ in 0..before {
        let (_, after) = next_line(rest)?;
        rest = after;
    }
    let (line, _) = next_line(rest)?;
    Some(line)
}

/// The word in the place of a name.
fn note_on_name(alloc: Global, line: &[u8]) -> Option<Note>
    ensures { IfSome result (NotesName line.now) }
{
    let (_, rest) = next_word(printable(line)?)?;
    let (word, _) = next_word(rest)?;
    let word = shown(alloc, word.as_bytes())?;
    Some(Note::Name { word })
}

/// The first byte that no line may have and what follows it, or the first word, or all of a line
/// with too many words or too few.
fn note_on_command(alloc: Global, line: &[u8]) -> Option<Note>
    ensures { IfSome result (NotesCommand line.now) }
{
    let Some(text) = printable(line) else {
        return note_on_byte(alloc, line);
    };
    let (word, _) = next_word(text)?;
    match form_of(word) {
        Some(form) => note_on_form(alloc, line, form),
        None => note_on_word(alloc, word),
    }
}

fn note_on_byte(alloc: Global, line: &[u8]) -> Option<Note>
    requires { IsTrue (not (list_all is_printable line.now)) }
    ensures { IfSome result (NotesCommand line.now) }
{
    let at = line
        .iter()
        .position(|b| !(*b == b' ' || b.is_ascii_graphic()))?;
    let word = shown(alloc, &line[at..])?;
    Some(Note::Byte { word })
}

fn note_on_word(alloc: Global, word: &str) -> Option<Note>
    ensures { IfSome result (ShowsWord word.now) }
{
    let word = shown(alloc, word.as_bytes())?;
    Some(Note::Command { word })
}

fn note_on_form(alloc: Global, line: &[u8], form: &'static str) -> Option<Note>
    ensures { IfSome result (ShowsLine line.now) }
{
    let line = shown(alloc, line)?;
    Some(Note::Form { line, form })
}

/// The bytes in quotes, if there is memory.
fn shown(alloc: Global, bytes: &[u8]) -> Option<String>
    ensures { IfSome result (λ text. string_bytes text ≡ quoted bytes.now) }
{
    quoted(alloc, bytes).ok()
}

/// How a command is written, by its first word.
#[tactic(auto, unfolding(rh_script::specs::Grammar::verb_of))]
fn form_of(word: &str) -> Option<&'static str>
    ensures { MatchOption result (verb_of word.now ≡ None) (λ _. verb_of word.now ≢ None) }
{
    match word {
        "use" => Some("use NAME PATH"),
        "add" => Some("add NAME"),
        "drop" => Some("drop NAME"),
        "ask" => Some("ask NAME"),
        "keep" => Some("keep NAME"),
        "flip" => Some("flip NAME"),
        "save" => Some("save NAME"),
        "clear" => Some("clear"),
        "dump" => Some("dump"),
        "snapshot" => Some("snapshot PATH"),
        "restore" => Some("restore PATH"),
        _ => None,
    }
}
