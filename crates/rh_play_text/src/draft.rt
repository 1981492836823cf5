//! A play on the way: what the lines so far gave.

ghost use Rattle.std.specs.Prelude.{◌≡◌, IsTrue, Ok, Err, MatchOption};
ghost use Rattle.rh_play_text.specs.Grammar.{saying_ended, entered, fits};
ghost use Rattle.rh_play_text.specs.Play.{Answers, said_of, saying_as, way_of, with_work};

use crate::fault::PlayTextKind;
use crate::line::TextLine;
use crate::play::{Bits, Play, PlayRooms, Work};
use crate::schedule::Order;
use rh_ledger::Kind;
use std::alloc::Global;

/// What stands before the keys of the workers.
#[derive(Drop)]
pub(crate) struct Table {
    kind: Kind,
    bits: Bits,
    held: Vec<u64>,
    rooms: Option<PlayRooms>,
}

/// What the lines so far gave.
#[derive(Drop)]
pub(crate) enum Draft {
    Empty,
    Named(Kind),
    Sized(Kind, Bits),
    Filled(Kind, Bits, Vec<u64>),
    Roomed(Table),
    Working(Table, Vec<Vec<u64>>),
    Scheduled(Play),
}

impl Draft {
    /// Takes what the next line gives, if it may stand there.
    pub(crate) fn enter(self, alloc: Global, line: TextLine) -> Result<Draft, PlayTextKind>
        ensures { Answers (entered (way_of self) (saying_as line)) way_of result }
    {
        if !line.fits() {
            return Err(PlayTextKind::BadLine);
        }
        self.follow(alloc, line)
    }

    /// Takes what the next line gives, whose numbers lie in their ranges.
    fn follow(self, alloc: Global, line: TextLine) -> Result<Draft, PlayTextKind>
        requires { IsTrue (fits (saying_as line)) }
        ensures { Answers (entered (way_of self) (saying_as line)) way_of result }
    {
        match self {
            Draft::Empty => match line {
                TextLine::Play(kind) => Ok(Draft::Named(kind)),
                _ => Err(PlayTextKind::BadLine),
            },
            Draft::Named(kind) => match line {
                TextLine::Bits(value) => Ok(Draft::Sized(kind, Bits { value })),
                _ => Err(PlayTextKind::BadLine),
            },
            Draft::Sized(kind, bits) => match line {
                TextLine::Held(held) => Ok(Draft::Filled(kind, bits, held)),
                _ => Err(PlayTextKind::BadLine),
            },
            Draft::Filled(kind, bits, held) => fill(alloc, kind, bits, held, line),
            Draft::Roomed(table) => begin(alloc, table, line),
            Draft::Working(table, pieces) => work_on(alloc, table, pieces, line),
            Draft::Scheduled(play) => schedule(play, line),
        }
    }

    /// The play, if the text may end here.
    #[tactic(auto, unfolding(crate::specs::Grammar::saying_ended))]
    pub(crate) fn finish(self, alloc: Global) -> Option<Play>
        ensures { MatchOption result (saying_ended (way_of self) ≡ Err PlayTextKind.BadLine)
            (λ play. saying_ended (way_of self) ≡ Ok (said_of play)) }
    {
        match self {
            Draft::Working(table, pieces) => {
                Some(table.with_work(Work::Pieces(pieces), Vec::new(alloc)))
            }
            Draft::Scheduled(play) => Some(play),
            _ => None,
        }
    }
}

impl Table {
    fn with_work(self, work: Work, schedule: Vec<Order>) -> Play
        ensures { result ≡ with_work self work schedule }
    {
        Play {
            kind: self.kind,
            bits: self.bits,
            held: self.held,
            rooms: self.rooms,
            work,
            schedule,
        }
    }
}

/// Takes a line after that of the keys held.
fn fill(
    alloc: Global,
    kind: Kind,
    bits: Bits,
    held: Vec<u64>,
    line: TextLine,
) -> Result<Draft, PlayTextKind>
    requires { IsTrue (fits (saying_as line)) }
    ensures { Answers (entered (way_of (Draft.Filled kind bits held)) (saying_as line)) way_of
        result }
{
    match line {
        TextLine::Rooms { descriptors, marks } => Ok(Draft::Roomed(Table {
            kind,
            bits,
            held,
            rooms: Some(PlayRooms { descriptors, marks }),
        })),
        other => begin(
            alloc,
            Table {
                kind,
                bits,
                held,
                rooms: None,
            },
            other,
        ),
    }
}

/// Takes the first line of work.
fn begin(alloc: Global, table: Table, line: TextLine) -> Result<Draft, PlayTextKind>
    requires { IsTrue (fits (saying_as line)) }
    ensures { Answers (entered (way_of (Draft.Roomed table)) (saying_as line)) way_of result }
{
    match line {
        TextLine::Work(keys) => {
            let mut pieces = Vec::new(alloc);
            pieces.push(keys)?;
            Ok(Draft::Working(table, pieces))
        }
        TextLine::Share { workers, keys } => {
            let work = Work::Share { workers, keys };
            Ok(Draft::Scheduled(table.with_work(work, Vec::new(alloc))))
        }
        _ => Err(PlayTextKind::BadLine),
    }
}

/// Takes a line after one of work.
fn work_on(
    alloc: Global,
    table: Table,
    mut pieces: Vec<Vec<u64>>,
    line: TextLine,
) -> Result<Draft, PlayTextKind>
    requires { IsTrue (fits (saying_as line)) }
    ensures { Answers (entered (way_of (Draft.Working table pieces)) (saying_as line)) way_of
        result }
{
    match line {
        TextLine::Work(keys) => {
            pieces.push(keys)?;
            Ok(Draft::Working(table, pieces))
        }
        TextLine::Schedule(order) => {
            let mut schedule = Vec::new(alloc);
            schedule.push(order)?;
            Ok(Draft::Scheduled(table.with_work(Work::Pieces(pieces), schedule)))
        }
        _ => Err(PlayTextKind::BadLine),
    }
}

/// Takes a line of the schedule.
fn schedule(mut play: Play, line: TextLine) -> Result<Draft, PlayTextKind>
    requires { IsTrue (fits (saying_as line)) }
    ensures { Answers (entered (way_of (Draft.Scheduled play)) (saying_as line)) way_of result }
{
    match line {
        TextLine::Schedule(order) => {
            play.schedule.push(order)?;
            Ok(Draft::Scheduled(play))
        }
        _ => Err(PlayTextKind::BadLine),
    }
}
