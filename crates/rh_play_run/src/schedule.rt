//! A schedule, from its first order to its last.

ghost use Rattle.std.specs.Prelude.{List, OnOk};
ghost use Rattle.rh_play_run.specs.Pieces.{LogEntry, TellsPieces};
ghost use Rattle.rh_play_run.specs.Schedule.{CarriesOutAll, HasSize};

use crate::log::Log;
use crate::orders::{Size, carry_out};
use rh_interleaving::Player;
use rh_play_text::Order;
use std::alloc::AllocError;

/// Carries out the orders one after the other, and tells what comes of them.
pub(crate) fn follow(
    player: &mut Player,
    size: Size,
    orders: &[Order],
    log: &mut Log,
) -> Result<(), AllocError>
    requires { HasSize size.workers size.cells player.old }
    ensures { OnOk result ((pieces : List LogEntry)
        × CarriesOutAll orders.now player.old pieces player.new
        × TellsPieces log.old pieces log.new) }
{
    for order in orders {
        carry_out(player, size, *order, log)?;
    }
    Ok(())
}
