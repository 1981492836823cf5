//! Turns of one worker.

ghost use Rattle.std.specs.Prelude.{◌≡◌, IfOk, IsFalse, IsTrue, List};
ghost use Rattle.rh_play_run.specs.Pieces.{LogEntry, TellsPieces};
ghost use Rattle.rh_play_run.specs.Schedule.{ATurn, Misses, Reaches, TurnsOf, TurnsUntil, last_of};

use crate::log::Log;
use rh_interleaving::Player;
use rh_play_text::Last;
use rh_recorder::Touched;
use rh_turns::Turn;
use rh_words::{Part, StepKind};
use std::alloc::AllocError;

/// One turn of a worker, which is told.
pub(crate) fn take_turn(
    player: &mut Player,
    worker: usize,
    log: &mut Log,
) -> Result<Turn, AllocError>
    ensures { IfOk result (λ turn. (pieces : List LogEntry)
        × ATurn player.old worker turn pieces player.new × TellsPieces log.old pieces log.new) }
{
    let (turn, touched) = player.trace(worker);
    log.take(worker, turn, touched)?;
    log.keep(touched.is_some(), key_at(player, touched))?;
    Ok(turn)
}

/// The key that the worker does whose control a step touched.
fn key_at(player: &Player, touched: Option<Touched>) -> Option<u64> {
    match touched?.part {
        Part::Control { worker } => player.key(worker),
        _ => None,
    }
}

/// So many turns of a worker, and what the last came to: `Limit` where there is none.
pub(crate) fn take_turns(
    player: &mut Player,
    worker: usize,
    turns: u64,
    log: &mut Log,
) -> Result<Last, AllocError>
    ensures { IfOk result (λ last. (pieces : List LogEntry)
        × TurnsOf worker turns player.old Last.Limit last pieces player.new
        × TellsPieces log.old pieces log.new) }
{
    let mut last = Last::Limit;
    'turns: for _ in 0..turns {
        last = last_of(take_turn(player, worker, log)?);
    }
    Ok(last)
}

/// Turns of a worker until one makes a step of this kind, or none, so many at most, and what the
/// last came to: `Limit` where none was such a turn. Where the last of them makes the step, that is
/// told and not `Limit`.
pub(crate) fn take_turns_until(
    player: &mut Player,
    worker: usize,
    kind: StepKind,
    limit: u64,
    log: &mut Log,
) -> Result<Last, AllocError>
    ensures { IfOk result (λ last. (pieces : List LogEntry)
        × TurnsUntil limit worker kind player.old last pieces player.new
        × TellsPieces log.old pieces log.new) }
{
    'turns: for _ in 0..limit {
        let turn = take_turn(player, worker, log)?;
        if reaches(turn, kind) {
            return Ok(last_of(turn));
        }
    }
    Ok(Last::Limit)
}

/// Whether a turn is the last one where a step of this kind is wanted.
fn reaches(turn: Turn, kind: StepKind) -> bool
    ensures last { IsTrue result → Reaches kind turn }
    ensures other { IsFalse result → Misses kind turn }
{
    match turn {
        Turn::Did(made) => made == kind,
        Turn::Finished | Turn::Spent | Turn::NoSuchWorker => true,
    }
}

fn last_of(turn: Turn) -> Last
    ensures { result ≡ last_of turn }
{
    match turn {
        Turn::Did(kind) => Last::Did(kind),
        Turn::Finished => Last::Finished,
        Turn::Spent => Last::Spent,
        Turn::NoSuchWorker => Last::NoWorker,
    }
}
