//! The orders of a schedule.

ghost use Rattle.std.specs.Prelude.{◌≡◌, ◌++◌, List, OnOk};
ghost use Rattle.rh_words.specs.Parts.{cell_count};
ghost use Rattle.rh_play_run.specs.Pieces.{LogEntry, TellsPieces};
ghost use Rattle.rh_play_run.specs.Schedule.{CarriesOut, HasSize, Rounds, shown};

use crate::log::Log;
use crate::resting::rest;
use crate::turns::{take_turns, take_turns_until};
use rh_interleaving::Player;
use rh_play_text::{MAX_TURNS, Order, push_raw, push_rest, push_round, push_turn, push_until};
use std::alloc::AllocError;

/// How many workers and how many cells a player has.
#[derive(Clone, Copy)]
pub(crate) struct Size {
    pub(crate) workers: usize,
    pub(crate) cells: usize,
}

/// Carries out an order, and tells what came of it.
pub(crate) fn carry_out(
    player: &mut Player,
    size: Size,
    order: Order,
    log: &mut Log,
) -> Result<(), AllocError>
    requires { HasSize size.workers size.cells player.old }
    ensures { OnOk result ((pieces : List LogEntry) × CarriesOut order player.old pieces player.new
        × TellsPieces log.old pieces log.new) }
{
    match order {
        Order::Turn { worker, turns } => {
            let last = take_turns(player, worker as usize, turns, log)?;
            push_turn(&mut log.text, worker, turns, last)
        }
        Order::Until { worker, step } => {
            let last = take_turns_until(player, worker as usize, step, MAX_TURNS, log)?;
            push_until(&mut log.text, worker, step, last)
        }
        Order::Rest => {
            let rest = rest(player, size.workers, MAX_TURNS, log)?;
            push_rest(&mut log.text, rest)
        }
        Order::Round => {
            let began = begin_round(player);
            log.begin_round(began)?;
            push_round(&mut log.text, began)
        }
        Order::Show => show(player, size.cells, &mut log.text),
    }
}

/// Begins the next round, where no worker has a step left.
fn begin_round(player: &mut Player) -> bool
    ensures { Rounds player.old result player.new }
{
    player.next_round()
}

/// Appends a line for each cell whose word is not empty.
fn show(player: &Player, cells: usize, out: &mut Vec<u8>) -> Result<(), AllocError>
    requires { cell_count player.now.shape ≡ cells }
    ensures { OnOk result (out.new.items ≡ out.old.items ++ shown player.now) }
{
    for cell in 0..cells {
        push_raw(out, cell, player.raw(cell))?;
    }
    Ok(())
}
