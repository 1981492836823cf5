//! What stands where at a moment, and how a picture is laid out.

ghost use Rattle.std.specs.Prelude.{◌≡◌, IfOk, length};
ghost use Rattle.rh_words.specs.Parts.{cell_count};
ghost use Rattle.rh_draw.specs.Changing.{Leaves, opening};

use crate::changes::follow_values;
use crate::records::Window;
use crate::words::{all_words, follow_words};
use rh_trace::Touched;
use rh_words::Shape;
use std::alloc::{AllocError, Global};

/// How a picture is laid out.
#[derive(Drop)]
pub(crate) struct PictureLayout {
    pub(crate) shape: Shape,
    pub(crate) window: Window,
    /// For each cell, whether it has a column: 0 if not.
    pub(crate) flags: Vec<u64>,
    /// For each cell, how wide its column is, and where its left side stands.
    pub(crate) widths: Vec<u64>,
    pub(crate) sides: Vec<u64>,
    /// The right side of the last column.
    pub(crate) right: u64,
    /// The moment at which it ends: the one after the last step.
    pub(crate) end: u64,
}

/// What stands where at a moment.
#[derive(Drop)]
pub(crate) struct Sight {
    /// The words of the table.
    pub(crate) words: Vec<u64>,
    /// The words that the cells stand for.
    pub(crate) values: Vec<u64>,
    /// For each cell, the moment since which its word and its value are these.
    pub(crate) since: Vec<u64>,
    /// The key that the next step does, where it is known.
    pub(crate) key: Option<u64>,
}

impl Sight {
    /// What stands where before the first record: each cell stands for its own word.
    pub(crate) fn new(alloc: Global, shape: &Shape, cells: &[u64]) -> Result<Sight, AllocError>
        requires { length cells.now ≡ cell_count shape.now }
        ensures { IfOk result (λ sight. sight.words.items ≡ opening shape.now cells.now) }
    {
        Ok(Sight {
            words: all_words(alloc, shape, cells)?,
            values: Vec::from_slice(alloc, cells)?,
            since: vec![in alloc; 0; cells.len()]?,
            key: None,
        })
    }

    /// Goes on to what stands after a step.
    pub(crate) fn follow(&mut self, shape: &Shape, touched: Touched)
        ensures { Leaves shape.now self.old.words.items touched self.new.words.items }
    {
        follow_values(shape, &self.words, &mut self.values, touched);
        follow_words(shape, &mut self.words, touched);
    }
}
