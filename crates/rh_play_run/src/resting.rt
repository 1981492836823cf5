//! Turns of all workers.

ghost use Rattle.std.specs.Prelude.{◌≡◌, ◌<◌, IfOk, List, OnOk, length, false};
ghost use Rattle.rh_play_run.specs.Pieces.{LogEntry, TellsPieces};
ghost use Rattle.rh_play_run.specs.Schedule.{PassesToRest, RestsWithin, StandsAs, TurnOfEach, makes_step};

use crate::log::Log;
use crate::turns::take_turn;
use rh_interleaving::Player;
use rh_play_text::Rest;
use rh_turns::Turn;
use std::alloc::AllocError;

/// One turn of each worker in order, again and again, until in such a pass no turn makes a step. A
/// turn that makes none counts too, and no more than so many are made.
pub(crate) fn rest(
    player: &mut Player,
    workers: usize,
    turns: u64,
    log: &mut Log,
) -> Result<Rest, AllocError>
    requires workers { length player.old.hands ≡ workers }
    requires some { 0 < workers }
    ensures rests { OnOk result ((pieces : List LogEntry)
        × RestsWithin turns player.old pieces player.new × TellsPieces log.old pieces log.new) }
    ensures stands { IfOk result (λ rest. StandsAs rest player.new) }
{
    let count = workers as u64;
    take_passes(
        player,
        workers,
        turns / count,
        (turns % count) as usize,
        log,
    )?;
    Ok(stand(player))
}

/// So many passes, or up to the first in which no turn makes a step; after them so many turns of
/// one more.
fn take_passes(
    player: &mut Player,
    workers: usize,
    passes: u64,
    more: usize,
    log: &mut Log,
) -> Result<(), AllocError>
    requires { length player.old.hands ≡ workers }
    ensures { OnOk result ((pieces : List LogEntry)
        × PassesToRest passes more player.old pieces player.new
        × TellsPieces log.old pieces log.new) }
{
    'passes: for _ in 0..passes {
        let some = take_turn_of_each(player, workers, log)?;
        if !some {
            return Ok(());
        }
    }
    take_turn_of_each(player, more, log)?;
    Ok(())
}

/// One turn of each of so many workers in order, and whether one of these turns made a step.
fn take_turn_of_each(player: &mut Player, count: usize, log: &mut Log) -> Result<bool, AllocError>
    ensures { IfOk result (λ some. (pieces : List LogEntry)
        × TurnOfEach count 0 player.old false some pieces player.new
        × TellsPieces log.old pieces log.new) }
{
    let mut some = false;
    for worker in 0..count {
        let made = makes_step(take_turn(player, worker, log)?);
        some = some || made;
    }
    Ok(some)
}

fn makes_step(turn: Turn) -> bool
    ensures { result ≡ makes_step turn }
{
    matches!(turn, Turn::Did(_))
}

/// How the workers stand.
fn stand(player: &Player) -> Rest
    ensures { StandsAs result player.now }
{
    if player.all_finished() {
        Rest::Finished
    } else if player.all_stopped() {
        Rest::Spent
    } else {
        Rest::Limit
    }
}
