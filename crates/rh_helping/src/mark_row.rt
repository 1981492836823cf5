//! The writes of the mark row, in the order in which they are made before its mark is placed.
//! Whoever meets the mark reads them.

ghost use Rattle.std.specs.Prelude.{◌≡◌};
ghost use Rattle.rh_words.specs.Requests.{step_asked};
ghost use Rattle.rh_words.specs.Steps.{IsDesc, Step};
ghost use Rattle.rh_words.specs.Words.{desc_number, ref_of};
ghost use Rattle.rh_words.specs.declared.shape.Part.TheVariants as part;

use rh_words::{Part, Ref, Request, Shape, Side, desc_word};

/// Write of the next own mark's number: before all else, since whoever meets an older mark must see
/// that it is stale.
#[inline(always)]
pub fn write_mark_serial(side: &Side) -> Request
    ensures { step_asked result ≡ Step.writes (part.MarkSerial side.now.known.view.worker)
        side.now.known.view.marks_used }
{
    Request::Write {
        part: Part::MarkSerial {
            worker: side.worker,
        },
        word: side.marks_used,
    }
}

/// Write of its descriptor.
#[inline(always)]
pub fn write_mark_desc(shape: &Shape, side: &Side, desc: Ref) -> Request
    requires { IsDesc shape.now (ref_of desc) }
    ensures { step_asked result ≡ Step.writes (part.MarkDesc side.now.known.view.worker)
        (desc_number (ref_of desc)) }
{
    Request::Write {
        part: Part::MarkDesc {
            worker: side.worker,
        },
        word: desc_word(shape, desc),
    }
}

/// Write of its entry.
#[inline(always)]
pub fn write_mark_entry(side: &Side, entry: usize) -> Request
    ensures { step_asked result ≡ Step.writes (part.MarkEntry side.now.known.view.worker) entry }
{
    Request::Write {
        part: Part::MarkEntry {
            worker: side.worker,
        },
        word: entry as u64,
    }
}
