//! Holding an entry: an own mark is placed in its cell and settled there (RDCSS of Harris, Fraser
//! and Pratt 2002).

ghost use Rattle.rh_helping.specs.declared.machine.At.TheVariants as stage;

use crate::goal::OpenDesc;
use crate::machine::{At, Machine, Progress};
use crate::reading::{CellContent, state_by, what_stands};
use crate::settling::Settling;
use crate::stage::Stage;
use rh_carrier::Steps;
use rh_words::{Reading, Ref, Request, Shape, Side, mark_word};

/// Places the mark, and goes by what stood in the cell.
pub struct Place;

impl<T: Steps> Stage<T> for Place {
    ghost at = { stage.Place };

    #[inline(always)]
    fn request(machine: &Machine) -> Request {
        Request::Place {
            piece: machine.piece(),
            old: machine.change.old,
        }
    }

    #[inline(always)]
    fn after(
        machine: &mut Machine,
        shape: &Shape,
        table: &mut T,
        side: &Side,
        opens: Option<OpenDesc<'_>>,
        found: u64,
    ) -> Progress {
        if found == machine.change.old {
            machine.mark = Ref {
                worker: side.worker,
                number: side.marks_used - 1,
            };
            machine.at = At::MarkControl;
            return Progress::On;
        }
        match what_stands(found) {
            CellContent::Value => {
                machine.at = At::WriteReason;
                Progress::On
            }
            CellContent::Mark(mark) => {
                machine.settling = Settling::met(mark, machine.change.cell);
                machine.at = At::Settle;
                Progress::On
            }
            CellContent::Desc(desc) => {
                if desc == machine.task.desc {
                    machine.task = machine.task.after();
                    machine.at_entry(shape, table, side, opens)
                } else {
                    machine.task.desc = desc;
                    machine.at = At::Control;
                    Progress::On
                }
            }
        }
    }
}

/// Goes on with a mark that was met, and then places the own one again.
pub(crate) struct Settle;

impl<T: Steps> Stage<T> for Settle {
    ghost at = { stage.Settle };

    #[inline(always)]
    fn request(machine: &Machine) -> Request {
        machine.settling.request()
    }

    #[inline(always)]
    fn after(
        machine: &mut Machine,
        _shape: &Shape,
        _table: &mut T,
        _side: &Side,
        _opens: Option<OpenDesc<'_>>,
        found: u64,
    ) -> Progress {
        if machine.settling.after(found) {
            machine.at = At::Settle;
        } else {
            machine.at = At::Place;
        }
        Progress::On
    }
}

/// Reads the control of the descriptor once the mark is placed: whether it is still undecided.
pub struct MarkControl;

impl<T: Steps> Stage<T> for MarkControl {
    ghost at = { stage.MarkControl };

    #[inline(always)]
    fn request(machine: &Machine) -> Request {
        Request::Read(Reading::MarkControl {
            mark: machine.mark,
            cell: machine.change.cell,
            desc: machine.task.desc,
        })
    }

    #[inline(always)]
    fn after(
        machine: &mut Machine,
        _shape: &Shape,
        _table: &mut T,
        _side: &Side,
        _opens: Option<OpenDesc<'_>>,
        found: u64,
    ) -> Progress {
        match state_by(machine.task.desc, found) {
            Some(state) => {
                if state.is_decided() {
                    machine.decided = Some(state);
                    machine.at = At::Demote;
                } else {
                    machine.at = At::Promote;
                }
            }
            None => {
                machine.decided = None;
                machine.at = At::Demote;
            }
        }
        Progress::On
    }
}

/// Swaps the mark for its descriptor.
pub struct Promote;

impl<T: Steps> Stage<T> for Promote {
    ghost at = { stage.Promote };

    #[inline(always)]
    fn request(machine: &Machine) -> Request {
        Request::Settle {
            mark: machine.mark,
            piece: machine.piece(),
            old: None,
        }
    }

    #[inline(always)]
    fn after(
        machine: &mut Machine,
        shape: &Shape,
        _table: &mut T,
        _side: &Side,
        _opens: Option<OpenDesc<'_>>,
        found: u64,
    ) -> Progress {
        machine.promoted = found == mark_word(shape, machine.mark);
        machine.at = At::Recheck;
        Progress::On
    }
}

pub(crate) struct Demote;

impl<T: Steps> Stage<T> for Demote {
    ghost at = { stage.Demote };

    #[inline(always)]
    fn request(machine: &Machine) -> Request {
        Request::Settle {
            mark: machine.mark,
            piece: machine.piece(),
            old: Some(machine.change.old),
        }
    }

    #[inline(always)]
    fn after(
        machine: &mut Machine,
        shape: &Shape,
        table: &mut T,
        side: &Side,
        opens: Option<OpenDesc<'_>>,
        _found: u64,
    ) -> Progress {
        match machine.decided {
            Some(state) => {
                machine.task = machine.task.as_decided(state, Some(machine.as_owed()));
                machine.begin(shape, table, side, opens)
            }
            None => {
                machine.at = At::GiveBack;
                Progress::On
            }
        }
    }
}

/// Reads the control once the mark is settled. Whatever a Settle found, its placer owes the cell
/// until it has released the descriptor there or read it as undecided: less would do in some cases,
/// but then what is owed would depend on what was found.
pub struct Recheck;

impl<T: Steps> Stage<T> for Recheck {
    ghost at = { stage.Recheck };

    #[inline(always)]
    fn request(machine: &Machine) -> Request {
        Request::Read(Reading::Control(machine.task.desc))
    }

    #[inline(always)]
    fn after(
        machine: &mut Machine,
        shape: &Shape,
        table: &mut T,
        side: &Side,
        opens: Option<OpenDesc<'_>>,
        found: u64,
    ) -> Progress {
        match state_by(machine.task.desc, found) {
            Some(state) => {
                if state.is_decided() {
                    machine.task = machine.task.as_decided(state, Some(machine.as_owed()));
                    machine.begin(shape, table, side, opens)
                } else if machine.promoted {
                    machine.task = machine.task.after();
                    machine.at_entry(shape, table, side, opens)
                } else {
                    machine.ready(shape, side, opens)
                }
            }
            None => {
                machine.at = At::GiveBack;
                Progress::On
            }
        }
    }
}
