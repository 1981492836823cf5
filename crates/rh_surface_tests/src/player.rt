//! Players and plays.

ghost use Rattle.rh_words.specs.Parts.{cell_count};
ghost use Rattle.rh_interleaving.specs.Start.{IsRooms};
ghost use Rattle.std.specs.Prelude.{length, ◌<◌, ◌≡◌};

use rh_descriptor::Rooms;
use rh_files::Counted;
use rh_ledger::{Kind, Tally};
use rh_player::{
    Bits, Order, Play, PlayFault, PlayRooms, PlayRunFault, PlayTextFault, PlayTextKind, Player,
    StepKind, Touched, Turn, Work,
};
use rh_tagword::Word;
use std::alloc::Global;
use std::io::{Read, Write};

pub fn player_new(
    alloc: Global,
    bits: u32,
    cells: &[u64],
    kind: Kind,
    pieces: &[Vec<u64>],
) -> Result<Player, PlayFault> {
    Player::new(alloc, bits, cells, kind, pieces)
}

pub fn player_with_rooms(
    alloc: Global,
    bits: u32,
    cells: &[u64],
    kind: Kind,
    pieces: &[Vec<u64>],
    rooms: Rooms,
) -> Result<Player, PlayFault>
    requires { IsRooms rooms }
{
    Player::with_rooms(alloc, bits, cells, kind, pieces, rooms)
}

pub fn player_share(
    alloc: Global,
    bits: u32,
    cells: &[u64],
    kind: Kind,
    workers: usize,
    keys: &[u64],
) -> Result<Player, PlayFault> {
    Player::share(alloc, bits, cells, kind, workers, keys)
}

pub fn player_share_with_rooms(
    alloc: Global,
    bits: u32,
    cells: &[u64],
    kind: Kind,
    workers: usize,
    keys: &[u64],
    rooms: Rooms,
) -> Result<Player, PlayFault>
    requires { IsRooms rooms }
{
    Player::share_with_rooms(alloc, bits, cells, kind, workers, keys, rooms)
}

pub fn player_turn(player: &mut Player, worker: usize) -> Turn {
    player.turn(worker)
}

pub fn player_trace(player: &mut Player, worker: usize) -> (Turn, Option<Touched>) {
    player.trace(worker)
}

pub fn player_next_round(player: &mut Player) -> bool {
    player.next_round()
}

pub fn player_all_finished(player: &Player) -> bool {
    player.all_finished()
}

pub fn player_logical(player: &Player, cells: &mut [u64])
    requires { length cells.old ≡ cell_count player.now.shape }
{
    player.logical(cells);
}

pub fn player_raw(player: &Player, cell: usize) -> Word
    requires { cell < cell_count player.now.shape }
{
    player.raw(cell)
}

pub fn player_tally(player: &Player) -> Tally {
    player.tally()
}

pub fn player_answer(player: &Player, worker: usize, position: usize) -> Option<bool> {
    player.answer(worker, position)
}

pub fn player_answer_at(player: &Player, position: usize) -> Option<bool> {
    player.answer_at(position)
}

pub fn parse_play(alloc: Global, text: &[u8]) -> Result<Play, PlayTextFault> {
    rh_player::parse_play(alloc, text)
}

pub fn run_play<R: Read, W: Write>(
    alloc: Global,
    reader: &mut Counted<R>,
    writer: &mut Counted<W>,
) -> Result<(), PlayRunFault> {
    rh_player::run_play(alloc, reader, writer)
}

pub fn variants(turn: Turn, fault: PlayFault, run: PlayRunFault) {
    match turn {
        Turn::Did(kind) => {
            let _: StepKind = kind;
        }
        Turn::Finished | Turn::Spent | Turn::NoSuchWorker => {}
    }
    match fault {
        PlayFault::NotALayout
        | PlayFault::NoRoom
        | PlayFault::BadWorkers
        | PlayFault::BadKey
        | PlayFault::Memory => {}
    }
    match run {
        PlayRunFault::Read | PlayRunFault::Memory | PlayRunFault::Write => {}
        PlayRunFault::Text(text) => match text.kind {
            PlayTextKind::BadLine | PlayTextKind::TooLong | PlayTextKind::Memory => {}
        },
        PlayRunFault::Start(start) => {
            let _: PlayFault = start;
        }
    }
}

pub fn fields(line: u64, kind: PlayTextKind) -> PlayTextFault {
    PlayTextFault { line, kind }
}

pub fn play(
    kind: Kind,
    bits: Bits,
    held: Vec<u64>,
    rooms: PlayRooms,
    work: Work,
    schedule: Vec<Order>,
) -> Play {
    Play {
        kind,
        bits,
        held,
        rooms: Some(rooms),
        work,
        schedule,
    }
}
