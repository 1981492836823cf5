//! Where lanes and moments stand.

ghost use Rattle.std.specs.Prelude.{◌≡◌};
ghost use Rattle.rh_draw.specs.Places.{lane_x, moment_y};

use crate::limits::{
    BAND, HEAD_RISE, HEAD_STEPS, LANE, LAST_MOMENT, LEFT, MAX_LANES, ROW, TEXT, TOP,
};

/// The middle of a worker's lane; of the worker after the last, where the columns begin.
pub(crate) fn lane_x(worker: u64) -> u64
    ensures { result ≡ lane_x worker }
{
    LEFT + LANE * worker.min(MAX_LANES)
}

/// The height of a moment: as many steps from the window's first one on as its number says were
/// made. The heads that stand again after some of them have room of their own.
pub(crate) fn moment_y(moment: u64) -> u64
    ensures { result ≡ moment_y moment }
{
    let moment = moment.min(LAST_MOMENT);
    TOP + ROW * moment + BAND * (moment.saturating_sub(1) / HEAD_STEPS)
}

/// The height of the heads that are told for this time, the first of them as time 0.
pub(crate) fn head_y(time: u64) -> u64 {
    if time == 0 {
        TOP - HEAD_RISE
    } else {
        moment_y(time.saturating_mul(HEAD_STEPS)) + ROW + TEXT
    }
}
