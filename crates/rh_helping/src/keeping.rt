//! The stages after which there is one next stage: the words of a descriptor's row are read one by
//! one, and kept, and those of an own row are written. The mark row is written before the cell is
//! looked at: a worker without marks gives up even where every cell holds its descriptor.

ghost use Rattle.std.specs.Prelude.{◌≡◌, Option};
ghost use Rattle.rh_words.specs.Requests.{step_asked};
ghost use Rattle.rh_words.specs.View.{OwnDesc};
ghost use Rattle.rh_carrier.specs.Own.{KnowsOwn};
ghost use Rattle.rh_carrier.specs.Relies.{Knows, Relies};
ghost use Rattle.rh_helping.specs.Keeping.{IsKept, kept};
ghost use Rattle.rh_helping.specs.Machine.{work_at, work_of};
ghost use Rattle.rh_helping.specs.Made.{HasMadeStep};
ghost use Rattle.rh_helping.specs.Next.StageOutcome.{On};
ghost use Rattle.rh_helping.specs.Requested.{requested};
ghost use Rattle.rh_helping.specs.Work.{Leads, MayEnd, Stands, kind_of_work};

use crate::machine::{At, Machine};
use crate::mark_row::{write_mark_desc, write_mark_entry, write_mark_serial};
use rh_carrier::Steps;
use rh_words::{Part, Reading, Request, Shape, Side};

impl Machine {
    /// Makes the step of such a stage.
    #[inline(always)]
    pub(crate) fn make_kept<T: Steps>(
        &mut self,
        at: At,
        shape: &Shape,
        table: &mut T,
        side: &mut Side,
    )
        requires relies { Relies T.shows T.serves shape.now table.old side.old.known.view }
        requires kept { IsKept (work_at at self.old) }
        requires stands { Stands shape.now side.old.known.view (work_at at self.old) }
        ensures made { HasMadeStep T.shows T.made shape.now
            (kind_of_work (work_at at self.old)) table.old
            side.old.known.view table.new side.new.known.view }
        ensures leads { (opens : Option OwnDesc) → KnowsOwn side.old.known.view opens
            → Leads shape.now side.new.known.view opens (On (work_of self.new)) }
        ensures ends { MayEnd side.new.known.view (work_at at self.old) (On (work_of self.new)) }
    {
        let request = self.kept_request(at, shape, side);
        let found = table.make(shape, side, request);
        self.keep(at, found);
    }

    /// The step that is asked for.
    #[inline(always)]
    fn kept_request(&self, at: At, shape: &Shape, side: &Side) -> Request
        requires knows { Knows shape.now side.now.known.view }
        requires kept { IsKept (work_at at self.now) }
        requires stands { Stands shape.now side.now.known.view (work_at at self.now) }
        ensures { step_asked result ≡ requested side.now.known.view (work_at at self.now) }
    {
        let desc = self.task.desc;
        let entry = self.task.entry;
        match at {
            At::Length => Request::Read(Reading::Length(desc)),
            At::EntryCell => Request::Read(Reading::EntryCell { desc, entry }),
            At::EntryOld => Request::Read(Reading::EntryOld { desc, entry }),
            At::EntryNew => Request::Read(Reading::EntryNew { desc, entry }),
            At::MarkSerial => write_mark_serial(side),
            At::MarkDesc => write_mark_desc(shape, side, desc),
            At::MarkEntry => write_mark_entry(side, entry),
            At::WriteReason => Request::Write {
                part: Part::Reason {
                    worker: side.worker,
                    owner: desc.worker,
                },
                word: entry as u64,
            },
            _ => unreachable!(),
        }
    }

    /// Keeps the word that was found, where it was read, and goes on to the next stage.
    #[inline(always)]
    fn keep(&mut self, at: At, found: u64)
        ensures { work_of self.new ≡ kept (work_at at self.old) found }
    {
        match at {
            At::Length => {
                self.task.size = found as usize;
                self.at = At::LengthSerial;
            }
            At::EntryCell => {
                self.change.cell = found as usize;
                self.at = At::EntryOld;
            }
            At::EntryOld => {
                self.change.old = found;
                self.at = At::EntryNew;
            }
            At::EntryNew => {
                self.change.new = found;
                self.at = At::EntrySerial;
            }
            At::MarkSerial => self.at = At::MarkDesc,
            At::MarkDesc => self.at = At::MarkEntry,
            At::MarkEntry => self.at = At::Place,
            At::WriteReason => self.at = At::Fail,
            _ => self.at = at,
        }
    }
}
