//! The schedule of a play.

use rh_words::StepKind;

/// A line of the schedule.
#[derive(Clone, Copy, Debug, PartialEq, Eq)]
pub enum Order {
    /// So many turns of this worker.
    Turn { worker: u64, turns: u64 },
    /// Turns of this worker until one makes a step of this kind.
    Until { worker: u64, step: StepKind },
    /// Turns of each worker until none makes a step.
    Rest,
    /// The next round.
    Round,
    /// The words of the cells are told.
    Show,
}
