//! The seats of a table.

ghost use Rattle.std.specs.Prelude.{◌≡◌, ◌<◌, [], ◌∷◌};
ghost use Rattle.rh_rule.specs.Seats.{Spans, sitter};
ghost use Rattle.rh_shared.specs.Traces.{trace_in};

use crate::table::Inner;
use rh_words::{Piece, Ref, Side};

/// A mark that a worker placed: for which entry it is, and the old value in whose place it stands.
#[derive(Clone, Copy)]
pub struct OwnMark {
    pub mark: Ref,
    pub piece: Piece,
    pub old: u64,
}

/// The seat of `count` workers of a table, from `side.worker` on. Only the seat of one worker makes
/// steps: it has the worker's own state beside what the table keeps of it, and the last mark that
/// it placed by `place`, if any. For more workers the counts in `side` mean nothing.
#[derive(Drop)]
pub struct Seat {
    pub inner: Inner,
    pub side: Side,
    pub count: usize,
    pub placed: Option<OwnMark>,
    pub ghost some: { 0 < count },
    pub ghost spans: { Spans inner.me.0 side.worker count },
    pub ghost empty: { inner.me.1 ≡ [] },
    pub ghost alone: { count ≡ 1 →
        inner.me ≡ (sitter side.known.view (trace_in inner.me.0) ∷ [], []) },
}

/// The state of nobody, which stands in the seat of more than one worker, of whom this is the
/// first.
pub fn unused_side(worker: usize) -> Side
    ensures { result.worker ≡ worker }
{
    Side::new(worker, &[])
}
