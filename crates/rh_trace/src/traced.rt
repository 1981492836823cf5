//! Records of steps.

use rh_recorder::Touched;
use rh_words::StepKind;

/// A step of a play as it was made.
#[derive(Clone, Copy)]
pub struct Traced {
    /// Which step of the play it is, from 1 on.
    pub number: u64,
    /// The worker that made it, counted from 0.
    pub worker: usize,
    pub kind: StepKind,
    pub touched: Touched,
}
