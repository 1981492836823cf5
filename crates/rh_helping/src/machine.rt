//! How one worker goes about descriptors, step by step, as a machine that is changed in place.

ghost use Rattle.std.specs.Prelude.{◌≡◌};
ghost use Rattle.rh_helping.specs.Goal.{owed_of, piece_of};
ghost use Rattle.rh_helping.specs.Held.{held_by};
ghost use Rattle.rh_helping.specs.Machine.{goal_of, work_of};
ghost use Rattle.rh_helping.specs.Next.{Work};
ghost use Rattle.rh_helping.specs.Work.{kind_of_work};

use crate::goal::{Owed, Task};
use crate::settling::Settling;
use rh_layout::Entry;
use rh_tagword::State;
use rh_words::{Piece, Ref, StepKind};

/// How an own descriptor ended.
#[derive(Clone, Copy, Debug, PartialEq, Eq)]
pub enum Ended {
    Succeeded,
    /// No mark was left for it.
    Withdrawn,
    /// The cell of this entry, counted from 0, held another value.
    Failed { entry: u64 },
}

/// Which step a machine makes next.
#[derive(Clone, Copy, PartialEq, Eq)]
pub enum At {
    /// Read of the descriptor's control.
    Control,
    /// Read of the number of its entries.
    Length,
    /// Read of the serial number in its row: what was read there is so of it only where the row is
    /// still of it.
    LengthSerial,
    /// Read of the next entry's cell.
    EntryCell,
    /// Read of its old value.
    EntryOld,
    /// Read of its new value.
    EntryNew,
    /// Read of the serial number in its row, after the words of the entry.
    EntrySerial,
    /// Write of the next own mark's number into the mark row.
    MarkSerial,
    /// Write of its descriptor.
    MarkDesc,
    /// Write of its entry.
    MarkEntry,
    /// Place of the mark.
    Place,
    /// A step of settling another mark that stands in the entry's cell.
    Settle,
    /// Read of the descriptor's control once the mark is placed.
    MarkControl,
    /// Settle of the mark to its descriptor.
    Promote,
    /// Settle of the mark to the old value, as the descriptor is decided, or it is stale.
    Demote,
    /// Read of the descriptor's control once it stands in the cell, if it came to stand there.
    Recheck,
    /// Write of the next entry, which did not hold its old value, as the own reason to the owner.
    WriteReason,
    /// Decide that it failed there.
    Fail,
    /// Decide that it succeeded.
    Succeed,
    /// Decide that the own open descriptor is withdrawn, as no mark is left.
    Withdraw,
    /// Read of the decider's reason: at which entry the own open descriptor failed.
    ReadReason,
    /// Release of an entry.
    Release,
    /// Release of the one entry whose cell is owed, to its old value, as the descriptor is stale.
    GiveBack,
}

/// What a worker that goes about a descriptor has learned, and which step is next. A step changes
/// what it teaches, and nothing is copied from step to step. So a field means something only at the
/// stages that are named here: `work_at` says the same for contracts.
#[derive(Clone, Copy)]
pub struct Machine {
    pub at: At,
    /// The descriptor, at each stage, and how far the worker has come there: nothing of it at
    /// `Control` and `Withdraw`, its state at `Length`, its size too at `LengthSerial`, its entry
    /// alone at `GiveBack`, and at the others all.
    pub task: Task,
    /// The cell of the task's entry, the word that it is to find there, and the one that it is to
    /// put there. At `EntryOld` the cell, at `EntryNew` and `GiveBack` the first word too, and all
    /// from `EntrySerial` to `Recheck` and at `Release`.
    pub change: Entry,
    /// The own mark that is placed for the entry: at `MarkControl`, `Promote` and `Demote`.
    pub mark: Ref,
    /// The other mark that is settled: at `Settle`, and where a look settles one.
    pub settling: Settling,
    /// How the descriptor was decided while the own mark was placed, or none where it is stale: at
    /// `Demote`.
    pub decided: Option<State>,
    /// Whether the descriptor came to stand in the cell: at `Recheck`.
    pub promoted: bool,
    /// Who decided that the own open descriptor failed: at `ReadReason`.
    pub decider: usize,
}

/// What a step leads to. Which one is next stands in the machine.
#[derive(Clone, Copy)]
pub enum Progress {
    /// The next step.
    On,
    /// The descriptor is released, or left as it is stale. No own descriptor is open, and nothing
    /// is owed.
    Over,
    /// The own descriptor that was open ended so, and is released.
    Closed(Ended),
    /// No mark is left, and no own descriptor is open.
    Spent,
}

impl Machine {
    /// One that is to read the control of this descriptor.
    #[inline(always)]
    pub fn about(desc: Ref) -> Machine
        ensures { work_of result ≡ Work.Control desc }
    {
        Machine {
            at: At::Control,
            task: Task::new(desc, 0, State::Undecided),
            change: Entry {
                cell: 0,
                old: 0,
                new: 0,
            },
            mark: desc,
            settling: Settling::met(desc, 0),
            decided: None,
            promoted: false,
            decider: 0,
        }
    }

    /// From now on it goes about this descriptor.
    #[inline(always)]
    pub fn go_about(&mut self, desc: Ref)
        ensures { work_of self.new ≡ Work.Control desc }
    {
        self.task.desc = desc;
        self.at = At::Control;
    }

    /// The kind of the next step.
    #[inline(always)]
    pub fn kind(&self) -> StepKind
        ensures { result ≡ kind_of_work (work_of self.now) }
    {
        match self.at {
            At::MarkSerial | At::MarkDesc | At::MarkEntry | At::WriteReason => StepKind::Write,
            At::Place => StepKind::Place,
            At::Settle => self.settling.kind(),
            At::Promote | At::Demote => StepKind::Settle,
            At::Fail | At::Succeed | At::Withdraw => StepKind::Decide,
            At::Release | At::GiveBack => StepKind::Release,
            _ => StepKind::Read,
        }
    }

    /// The cell where an own mark stands that is not settled yet, or where its descriptor may stand
    /// by the worker's doing.
    pub fn owed_cell(&self) -> Option<Owed>
        ensures { result ≡ held_by (work_of self.now) }
    {
        match self.at {
            At::EntryCell
            | At::EntryOld
            | At::EntryNew
            | At::EntrySerial
            | At::ReadReason
            | At::Release => self.task.owed,
            At::MarkControl | At::Promote | At::Demote | At::Recheck | At::GiveBack => {
                Some(self.as_owed())
            }
            _ => None,
        }
    }

    /// The entry, with its descriptor and its cell.
    #[inline(always)]
    pub(crate) fn piece(&self) -> Piece
        ensures { result ≡ piece_of (goal_of self.now) }
    {
        Piece {
            desc: self.task.desc,
            entry: self.task.entry,
            cell: self.change.cell,
        }
    }

    /// Its cell, as one that the worker owes.
    #[inline(always)]
    pub(crate) fn as_owed(&self) -> Owed
        ensures { result ≡ owed_of (goal_of self.now) }
    {
        Owed {
            piece: self.piece(),
            old: self.change.old,
        }
    }
}
