//! Settling a mark that was met in a cell, as RDCSS is helped (Harris, Fraser and Pratt 2002).

ghost use Rattle.std.specs.Prelude.{◌≡◌};
ghost use Rattle.rh_words.specs.Requests.{step_asked};
ghost use Rattle.rh_words.specs.View.{View};
ghost use Rattle.rh_words.specs.declared.shape.Shape.{Shape};
ghost use Rattle.rh_helping.specs.Requested.{FollowsSettling, SettledFrom, asked_of_mark};
ghost use Rattle.rh_carrier.specs.Own.{OwesNothing};
ghost use Rattle.rh_helping.specs.Machine.{left_on, settling_of};
ghost use Rattle.rh_helping.specs.Made.{HasMadeStep};
ghost use Rattle.rh_helping.specs.Next.{Settles};
ghost use Rattle.rh_helping.specs.Settling.{GoesOn, Grows, IsSettling, LeadsOn, kind_of_settling};
ghost use Rattle.rh_carrier.specs.Relies.{Relies};

use crate::reading::{named_desc, state_by};
use rh_carrier::Steps;
use rh_words::{Piece, Reading, Ref, Request, Shape, Side, StepKind};

/// Which step with the mark is next.
#[derive(Clone, Copy)]
pub enum SettlingAt {
    /// Read of its descriptor.
    Desc,
    /// Read of its entry.
    Entry,
    /// Read of the number of the mark that the row is of by now: what was read in it is so of this
    /// mark only where it is still that one.
    Serial,
    /// Read of the control of its descriptor.
    Control,
    /// Read of the old value of its entry.
    Old,
    /// Read of the serial number in the row of its descriptor, after the old value.
    OldSerial,
    /// Settle to the descriptor.
    Promote,
    /// Settle to the old value.
    Demote,
}

/// What a worker has learned of a mark that it met in a cell, and which step is next.
#[derive(Clone, Copy)]
pub struct Settling {
    pub at: SettlingAt,
    pub mark: Ref,
    /// The word by which the mark names its descriptor.
    pub named: u64,
    /// The cell where it was met, and what it is for.
    pub piece: Piece,
    /// The old value of its entry.
    pub value: u64,
}

impl Settling {
    /// A mark that was met in this cell.
    #[inline(always)]
    pub fn met(mark: Ref, cell: usize) -> Settling
        ensures { settling_of result ≡ Settles.Desc mark cell }
    {
        Settling {
            at: SettlingAt::Desc,
            mark,
            named: 0,
            piece: Piece {
                desc: mark,
                entry: 0,
                cell,
            },
            value: 0,
        }
    }

    /// The kind of the next step.
    #[inline(always)]
    pub fn kind(&self) -> StepKind
        ensures { result ≡ kind_of_settling (settling_of self.now) }
    {
        match self.at {
            SettlingAt::Promote | SettlingAt::Demote => StepKind::Settle,
            _ => StepKind::Read,
        }
    }

    /// Makes the step, and answers whether there is a next one: else the mark was settled, or it or
    /// its descriptor is stale, and then it is left to its worker. (It is seldom
    /// needed: it is called apart, so that what calls it stays small.)
    #[cold]
    #[inline(never)]
    pub fn step<T: Steps>(&mut self, shape: &Shape, table: &mut T, side: &mut Side) -> bool
        requires relies { Relies T.shows T.serves shape.now table.old side.old.known.view }
        requires owes { OwesNothing side.old.known.view }
        requires settling { IsSettling side.old.known.view (settling_of self.old) }
        ensures made { HasMadeStep T.shows T.made shape.now
            (kind_of_settling (settling_of self.old)) table.old side.old.known.view
            table.new side.new.known.view }
        ensures grows { Grows side.old.known.view side.new.known.view }
        ensures leads { LeadsOn side.old.known.view side.new.known.view (settling_of self.old)
            (left_on result self.new) }
    {
        let request = self.request();
        let found = table.make(shape, side, request);
        self.after(found)
    }

    /// The step that is asked for.
    #[inline(always)]
    pub fn request(&self) -> Request
        ensures { step_asked result ≡ asked_of_mark (settling_of self.now) }
    {
        let Settling {
            at,
            mark,
            piece,
            value,
            ..
        } = *self;
        match at {
            SettlingAt::Desc => Request::Read(Reading::MarkDesc(mark)),
            SettlingAt::Entry => Request::Read(Reading::MarkEntry(mark)),
            SettlingAt::Serial => Request::Read(Reading::MarkSerial(mark)),
            SettlingAt::Control => Request::Read(Reading::MarkControl {
                mark,
                cell: piece.cell,
                desc: piece.desc,
            }),
            SettlingAt::Old => Request::Read(Reading::EntryOld {
                desc: piece.desc,
                entry: piece.entry,
            }),
            SettlingAt::OldSerial => Request::Read(Reading::Serial(piece.desc)),
            SettlingAt::Promote => Request::Settle {
                mark,
                piece,
                old: None,
            },
            SettlingAt::Demote => Request::Settle {
                mark,
                piece,
                old: Some(value),
            },
        }
    }

    /// Goes on from the word that the step found, and answers whether there is a next one.
    #[inline(always)]
    pub fn after(&mut self, found: u64) -> bool
        requires follows { FollowsSettling (settling_of self.old) found }
        ensures goes { GoesOn (settling_of self.old) found (left_on result self.new) }
        ensures grows { (z : Shape) (v next : View) → OwesNothing v
            → SettledFrom z v (settling_of self.old) found next → Grows v next }
        ensures leads { (z : Shape) (v next : View)
            → SettledFrom z v (settling_of self.old) found next
            → LeadsOn v next (settling_of self.old) (left_on result self.new) }
    {
        match self.at {
            SettlingAt::Desc => {
                self.named = found;
                self.at = SettlingAt::Entry;
                true
            }
            SettlingAt::Entry => {
                self.piece.entry = found as usize;
                self.at = SettlingAt::Serial;
                true
            }
            SettlingAt::Serial => {
                if found != self.mark.number {
                    return false;
                }
                match named_desc(self.named) {
                    Some(desc) => {
                        self.piece.desc = desc;
                        self.at = SettlingAt::Control;
                        true
                    }
                    // (a mark is placed after its row is written)
                    None => unreachable!(),
                }
            }
            SettlingAt::Control => match state_by(self.piece.desc, found) {
                Some(state) => {
                    if state.is_decided() {
                        self.at = SettlingAt::Old;
                        true
                    } else {
                        self.at = SettlingAt::Promote;
                        true
                    }
                }
                None => false,
            },
            SettlingAt::Old => {
                self.value = found;
                self.at = SettlingAt::OldSerial;
                true
            }
            SettlingAt::OldSerial => {
                if found != self.piece.desc.number {
                    return false;
                }
                self.at = SettlingAt::Demote;
                true
            }
            SettlingAt::Promote | SettlingAt::Demote => false,
        }
    }
}
