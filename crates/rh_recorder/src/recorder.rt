//! The words that record.

ghost use Rattle.std.specs.Prelude.{◌≡◌};

use crate::part::part_at;
use rh_carrier::Steps;
use rh_words::{Part, Request, Shape, Side};

/// What a step touched: one word, which it found so and left so.
#[derive(Clone, Copy)]
pub struct Touched {
    pub part: Part,
    pub found: u64,
    pub left: u64,
}

/// The words of a table, and what the last step on them touched, if one was made. One thread makes
/// the steps. It records whether steps are told or not: what makes a step is what knows it, and no
/// worker has to tell more.
#[derive(Drop)]
pub struct Recorder {
    pub words: Vec<u64>,
    pub last: Option<Touched>,
}

impl Steps for Recorder {
    ghost use Rattle.rh_recorder.specs.Records.{Records};
    ghost use Rattle.rh_carrier.specs.Relies.{Serves, Shows};

    ghost shows = { λ z t v. Shows z t.words.items v };

    ghost serves = { λ z t v. Serves z t.words.items v };

    ghost made = { λ z s t v word then next. Records then.last z s t.words.items v word
        then.words.items next };

    fn make(&mut self, shape: &Shape, side: &mut Side, request: Request) -> u64 {
        let index = request.index(shape, side);
        let found = self.words.make(shape, side, request);
        self.last = Some(Touched {
            part: part_at(shape, index),
            found,
            left: self.words[index],
        });
        found
    }

    fn own_word(&mut self, shape: &Shape, _side: &Side, part: Part) -> u64 {
        self.words[shape.index(part)]
    }
}
