//! The outline of each kind of step, round the point 0 0.

ghost use Rattle.std.specs.Prelude.{◌≡◌};
ghost use Rattle.rh_svg.specs.Outlines.{outline, reference};

use rh_words::StepKind;

/// A square, a door, a ring, a triangle, a diamond, a star, a triangle on its tip, and a cross.
pub(crate) fn outline(kind: StepKind) -> &'static str
    ensures { result.now ≡ outline kind }
{
    match kind {
        StepKind::Write => "M-5-5H5V5H-5Z",
        StepKind::Open => "M-6 7V-2A6 6 0 0 1 6-2V7Z",
        StepKind::Read => "M-5 0A5 5 0 0 1 5 0A5 5 0 0 1-5 0Z",
        StepKind::Place => "M0-8L8 6H-8Z",
        StepKind::Settle => "M0-9L8 0L0 9L-8 0Z",
        StepKind::Decide => "M0-11L3-4L11-4L5 1L7 9L0 4L-7 9L-5 1L-11-4L-3-4Z",
        StepKind::Release => "M0 8L8-6H-8Z",
        StepKind::Claim => "M-3-8H3V-3H8V3H3V8H-3V3H-8V-3H-3Z",
    }
}

/// How an element names it.
pub(crate) fn reference(kind: StepKind) -> &'static str
    ensures { result.now ≡ reference kind }
{
    match kind {
        StepKind::Write => "#write",
        StepKind::Open => "#open",
        StepKind::Read => "#read",
        StepKind::Place => "#place",
        StepKind::Settle => "#settle",
        StepKind::Decide => "#decide",
        StepKind::Release => "#release",
        StepKind::Claim => "#claim",
    }
}
