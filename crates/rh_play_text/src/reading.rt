//! Reading the text of a play.

ghost use Rattle.std.specs.Prelude.{◌≡◌, ◌≢◌, ◌≤◌, IfOk, IfErr, Ok, Err, length};
ghost use Rattle.rh_play_text.specs.declared.limits.TheConstants.{MAX_TEXT_BYTES};
ghost use Rattle.rh_lines.specs.Grammar.{read_by};
ghost use Rattle.rh_lines.specs.Lines.{lines_of};
ghost use Rattle.rh_play_text.specs.Grammar.{HasNoFaultBefore, after_line, play_grammar, sayings_of};
ghost use Rattle.rh_play_text.specs.Play.{Answers, said_of, way_of};

use crate::draft::Draft;
use crate::fault::{PlayTextFault, PlayTextKind};
use crate::limits::MAX_TEXT_BYTES;
use crate::line::read_said;
use crate::play::Play;
use rh_lines::{next_line, without_return};
use std::alloc::Global;

/// Reads a play up to the first fault of its text. Want of memory is a fault of the line that was
/// being read.
#[tactic(auto, unfolding(crate::specs::Grammar::sayings_of))]
pub fn parse_play(alloc: Global, text: &[u8]) -> Result<Play, PlayTextFault>
    ensures parsed { IfOk result (λ play. sayings_of text.now ≡ Ok (said_of play)) }
    ensures refused { IfErr result (λ fault. fault.kind ≢ PlayTextKind.Memory →
        sayings_of text.now ≡ Err fault) }
    ensures memory { IfErr result (λ fault. fault.kind ≡ PlayTextKind.Memory →
        (1 ≤ fault.line) × (fault.line ≤ length (lines_of text.now))) }
    ensures size { IfErr result (λ fault. fault.kind ≡ PlayTextKind.Memory →
        length text.now ≤ MAX_TEXT_BYTES) }
    ensures before { IfErr result (λ fault. HasNoFaultBefore fault.line text.now) }
{
    if text.len() > MAX_TEXT_BYTES {
        return Err(PlayTextFault {
            line: 0,
            kind: PlayTextKind::TooLong,
        });
    }
    let (lines, draft) = read_lines(alloc, text)?;
    match draft.finish(alloc) {
        Some(play) => Ok(play),
        None => Err(PlayTextFault {
            line: lines + 1,
            kind: PlayTextKind::BadLine,
        }),
    }
}

/// Reads all lines of a text, and counts them.
fn read_lines(alloc: Global, text: &[u8]) -> Result<(u64, Draft), PlayTextFault>
    requires { length text.now ≤ MAX_TEXT_BYTES }
    ensures counted { IfOk result (λ read. read.0 ≡ length (lines_of text.now)) }
    ensures few { IfOk result (λ read. read.0 ≤ MAX_TEXT_BYTES) }
    ensures read { IfOk result (λ read. read_by play_grammar text.now ≡ Ok (way_of read.1)) }
    ensures refused { IfErr result (λ fault. fault.kind ≢ PlayTextKind.Memory →
        read_by play_grammar text.now ≡ Err fault) }
    ensures within { IfErr result (λ fault.
        (1 ≤ fault.line) × (fault.line ≤ length (lines_of text.now))) }
    ensures before { IfErr result (λ fault. HasNoFaultBefore fault.line text.now) }
{
    let mut number = 0;
    let mut draft = Draft::Empty;
    let mut rest = text;
    while let Some((line, after)) = next_line(rest) {
        number += 1;
        draft = read_line(alloc, number, draft, line)?;
        rest = after;
    }
    Ok((number, draft))
}

/// Reads the line of this number. A fault, want of memory too, stands at this line.
fn read_line(alloc: Global, number: u64, draft: Draft, line: &[u8]) -> Result<Draft, PlayTextFault>
    ensures read { IfOk result (λ next. after_line (way_of draft) line.now ≡ Ok (way_of next)) }
    ensures refused { IfErr result (λ fault. fault.kind ≢ PlayTextKind.Memory →
        after_line (way_of draft) line.now ≡ Err fault.kind) }
    ensures at { IfErr result (λ fault. fault.line ≡ number) }
{
    match enter_line(alloc, draft, line) {
        Ok(next) => Ok(next),
        Err(kind) => Err(PlayTextFault { line: number, kind }),
    }
}

/// The draft with what the line says.
#[tactic(auto, unfolding(crate::specs::Grammar::after_line))]
fn enter_line(alloc: Global, draft: Draft, line: &[u8]) -> Result<Draft, PlayTextKind>
    ensures { Answers (after_line (way_of draft) line.now) way_of result }
{
    match read_said(alloc, without_return(line))? {
        Some(said) => draft.enter(alloc, said),
        None => Ok(draft),
    }
}
