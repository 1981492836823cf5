//! The steps on a list of words, by one thread.

ghost use Rattle.std.specs.Prelude.{◌≡◌};

use crate::steps::Steps;
use rh_words::{Part, Request, Shape, Side, make_step};

impl Steps for Vec<u64> {
    ghost use Rattle.rh_words.specs.Steps.{StepsTo};
    ghost use Rattle.rh_carrier.specs.Relies.{Serves, Shows};

    ghost shows = { λ z t v. Shows z t.items v };

    ghost serves = { λ z t v. Serves z t.items v };

    ghost made = { λ z s t v word then next. StepsTo z s t.items v word then.items next };

    fn make(&mut self, shape: &Shape, side: &mut Side, request: Request) -> u64 {
        make_step(shape, self.as_mut_slice(), side, request)
    }

    fn own_word(&mut self, shape: &Shape, _side: &Side, part: Part) -> u64 {
        self[shape.index(part)]
    }
}
