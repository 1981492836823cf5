//! What a picture is made from.

ghost use Rattle.std.specs.Prelude.{◌≡◌, ◌≤◌, IsTrue, length};
ghost use Rattle.rh_draw.specs.Places.{moment_of};
ghost use Rattle.rh_draw.specs.Records.{count_from, is_before, is_drawn};

use rh_trace::Traced;
use rh_words::Shape;

/// What happened in a play.
#[derive(Clone, Copy)]
pub enum Record {
    Step(Traced),
    /// A further round began, before the step of this number. What it changes in the rows, the
    /// steps that follow write anew.
    Round { next: u64 },
}

/// What a picture is drawn from.
#[derive(Clone, Copy)]
pub struct Recording<'a> {
    pub shape: &'a Shape,
    /// The words of the table's cells before the first record.
    pub cells: &'a [u64],
    pub records: &'a [Record],
    /// Where they are known, the keys that the steps do, in the order of their numbers.
    pub keys: &'a [Option<u64>],
}

/// Which steps are drawn: so many, from this number on.
#[derive(Clone, Copy, Debug, PartialEq, Eq)]
pub struct Window {
    pub from: u64,
    pub steps: u64,
}

impl Window {
    pub(crate) fn has(self, number: u64) -> bool
        ensures { result ≡ is_drawn self number }
    {
        number >= self.from && number - self.from < self.steps
    }

    /// Whether the step comes after those that are drawn.
    pub(crate) fn is_before(self, number: u64) -> bool {
        number >= self.from && number - self.from >= self.steps
    }

    /// Whether the moment before this step is drawn: it is one before a step of the window or after
    /// one.
    pub(crate) fn has_before(self, next: u64) -> bool
        ensures { result ≡ is_before self next }
    {
        next >= self.from && next - self.from <= self.steps
    }

    /// The moment after a step of the window: so many steps are made by then.
    pub(crate) fn moment(self, number: u64) -> u64
        requires { IsTrue (is_drawn self number) }
        ensures { result ≡ moment_of self number }
    {
        number - self.from + 1
    }
}

/// How many steps a picture from this number on would have.
pub fn steps_from(records: &[Record], from: u64) -> usize
    ensures { result ≡ count_from from records.now }
{
    let mut count = 0;
    for record in records {
        if let Record::Step(step) = record {
            if step.number >= from {
                count += 1;
            }
        }
    }
    count
}

/// How many steps the picture of a window has.
pub(crate) fn steps_drawn(records: &[Record], window: Window) -> usize
    ensures { result ≤ length records.now }
{
    let mut count = 0;
    for record in records {
        if let Record::Step(step) = record {
            if window.has(step.number) {
                count += 1;
            }
        }
    }
    count
}
