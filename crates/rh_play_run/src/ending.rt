//! What is told at the end of a play.

ghost use Rattle.std.specs.Prelude.{◌≡◌, IfOk, true};
ghost use Rattle.rh_layout.specs.Layout.{IsLayout, Layout};
ghost use Rattle.rh_ledger.specs.Phase.{set_after, tally_of};
ghost use Rattle.rh_words.specs.Parts.{cell_count};
ghost use Rattle.rh_turns.specs.Game.{AllFinished};
ghost use Rattle.rh_interleaving.specs.Made.{IsMadeSoFar, held_first};
ghost use Rattle.rh_bytes.specs.Counting.{Emits};
ghost use Rattle.rh_play_run.specs.Run.{ClosesWith, closing, printed};

use rh_bytes::{Counted, WriteFault, write_texts};
use rh_dump::write_dump;
use rh_interleaving::Player;
use rh_play_text::{push_end, push_tally};
use std::alloc::{AllocError, Global};
use std::io::Write;

/// What a play prints: the lines of its schedule, the cells that are dumped, and the lines below
/// the dump.
#[derive(Drop)]
pub(crate) struct Played {
    pub(crate) body: Vec<u8>,
    pub(crate) bits: u32,
    pub(crate) cells: Vec<u64>,
    pub(crate) closing: Vec<u8>,
    /// How many steps were made.
    pub(crate) steps: u64,
}

/// The cells with what they stand for.
pub(crate) fn made_cells(
    alloc: Global,
    player: &Player,
    cells: usize,
) -> Result<Vec<u64>, AllocError>
    requires { cell_count player.now.shape ≡ cells }
    ensures so_far { IfOk result (λ made. IsMadeSoFar player.now made.items) }
    ensures finished { IfOk result (λ made. AllFinished player.now →
        Layout made.items player.now.shape.bits
        (set_after player.now.kind (held_first player.now) player.now.keys)) }
{
    let mut made = vec![in alloc; 0; cells]?;
    player.logical(&mut made);
    Ok(made)
}

/// The lines below the dump.
pub(crate) fn closing_lines(alloc: Global, player: &Player) -> Result<Vec<u8>, AllocError>
    ensures closes { IfOk result (λ text. ClosesWith player.now text.items) }
    ensures finished { IfOk result (λ text. AllFinished player.now → text.items
        ≡ closing (tally_of player.now.kind (held_first player.now) player.now.keys) true) }
{
    let mut text = Vec::new(alloc);
    push_tally(&mut text, player.tally())?;
    push_end(&mut text, player.all_finished())?;
    Ok(text)
}

/// Writes what a play prints.
pub(crate) fn write_played<W: Write>(
    writer: &mut Counted<W>,
    played: &Played,
) -> Result<(), WriteFault>
    requires { IsLayout played.now.bits played.now.cells.items }
    ensures { Emits W.contents writer.old writer.new (printed played.now) result }
{
    write_texts(writer, &[&played.body])?;
    write_dump(played.bits, &played.cells, writer)?;
    write_texts(writer, &[&played.closing])
}
