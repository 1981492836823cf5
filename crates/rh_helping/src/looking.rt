//! Reading a cell until it holds a value: a mark that stands there is settled first, and a
//! descriptor helped to its end.

ghost use Rattle.std.specs.Prelude.{◌≡◌};
ghost use Rattle.rh_helping.specs.Held.{held_in};
ghost use Rattle.rh_helping.specs.Looking.{kind_of_looking};
ghost use Rattle.rh_helping.specs.Machine.{looked, looking_of};
ghost use Rattle.rh_helping.specs.Next.{Looking};
ghost use Rattle.rh_helping.specs.Seen.{looked_at, looking_at};
ghost use Rattle.rh_helping.specs.Stepping.{HasLooked, MayLook};
ghost use Rattle.rh_words.specs.Words.{cell_in};

use crate::goal::Owed;
use crate::machine::{Machine, Progress};
use crate::reading::{CellContent, what_stands};
use crate::settling::Settling;
use rh_carrier::Steps;
use rh_tagword::plain_value;
use rh_words::{Reading, Request, Shape, Side, StepKind};

/// Which step of a worker that looks at a cell is next. What it needs is in its machine.
#[derive(Clone, Copy)]
pub enum Watch {
    /// Read of the cell.
    Read,
    /// Settling of a mark that stands there.
    Settle,
    /// Work on a descriptor that stands there, and on those that it leads to.
    Help,
}

/// What a step leads to, where the next one is in the machine.
#[derive(Clone, Copy)]
pub enum Sight {
    /// The next step.
    On(Watch),
    /// The cell holds this plain word.
    Sees(u64),
    /// No mark is left.
    Spent,
}

/// What a Read of a cell saw there.
#[derive(Clone, Copy)]
pub enum Seen {
    /// This plain word.
    Value(u64),
    /// This word, of a mark or a descriptor: a machine goes on from it (`Machine::meet`).
    Other(u64),
}

/// Reads a cell, with no machine: who sees a value needs none, and asks no more of the word than
/// whether it is plain.
#[inline(always)]
pub fn read_cell<T: Steps>(shape: &Shape, table: &mut T, side: &mut Side, cell: usize) -> Seen
    requires { MayLook T.shows T.serves shape.now cell Looking.Read table.old side.old.known.view }
    ensures { HasLooked T.shows T.made shape.now cell Looking.Read table.old side.old.known.view
        (looked_at result cell) table.new side.new.known.view }
{
    let word = table.make(shape, side, Request::Read(Reading::Cell(cell)));
    match plain_value(word) {
        Some(_) => Seen::Value(word),
        None => Seen::Other(word),
    }
}

impl Machine {
    /// The kind of the next step.
    #[inline(always)]
    pub fn kind_as(&self, looks: Watch) -> StepKind
        ensures { result ≡ kind_of_looking (looking_of looks self.now) }
    {
        match looks {
            Watch::Read => StepKind::Read,
            Watch::Settle => self.settling.kind(),
            Watch::Help => self.kind(),
        }
    }

    /// The cell that the worker holds.
    pub fn held_as(&self, looks: Watch) -> Option<Owed>
        ensures { result ≡ held_in (looking_of looks self.now) }
    {
        match looks {
            Watch::Help => self.owed_cell(),
            _ => None,
        }
    }

    /// Makes the step, and answers what it leads to.
    #[inline(always)]
    pub fn look<T: Steps>(
        &mut self,
        looks: Watch,
        shape: &Shape,
        table: &mut T,
        side: &mut Side,
        cell: usize,
    ) -> Sight
        requires { MayLook T.shows T.serves shape.now cell (looking_of looks self.old) table.old
            side.old.known.view }
        ensures { HasLooked T.shows T.made shape.now cell (looking_of looks self.old) table.old
            side.old.known.view (looked result self.new) table.new side.new.known.view }
    {
        match looks {
            Watch::Read => self.read(shape, table, side, cell),
            Watch::Settle => {
                if self.settling.step(shape, table, side) {
                    Sight::On(Watch::Settle)
                } else {
                    Sight::On(Watch::Read)
                }
            }
            Watch::Help => match self.step(shape, table, side, None) {
                Progress::On => Sight::On(Watch::Help),
                Progress::Over => Sight::On(Watch::Read),
                Progress::Spent => Sight::Spent,
                // (no own descriptor is open)
                Progress::Closed(_) => unreachable!(),
            },
        }
    }

    /// Reads the cell, and goes by what stands there.
    #[inline(always)]
    fn read<T: Steps>(
        &mut self,
        shape: &Shape,
        table: &mut T,
        side: &mut Side,
        cell: usize,
    ) -> Sight
        requires { MayLook T.shows T.serves shape.now cell Looking.Read table.old
            side.old.known.view }
        ensures { HasLooked T.shows T.made shape.now cell Looking.Read table.old
            side.old.known.view (looked result self.new) table.new side.new.known.view }
    {
        match read_cell(shape, table, side, cell) {
            Seen::Value(word) => Sight::Sees(word),
            Seen::Other(word) => Sight::On(self.meet(word, cell)),
        }
    }

    /// From now on it goes by what this word says of its cell.
    #[inline(always)]
    pub fn meet(&mut self, word: u64, cell: usize) -> Watch
        ensures { looking_of result self.new ≡ looking_at (cell_in word) cell }
    {
        match what_stands(word) {
            CellContent::Value => Watch::Read,
            CellContent::Mark(mark) => {
                self.settling = Settling::met(mark, cell);
                Watch::Settle
            }
            CellContent::Desc(desc) => {
                self.go_about(desc);
                Watch::Help
            }
        }
    }
}
