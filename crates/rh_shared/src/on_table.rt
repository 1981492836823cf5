//! A table that threads share as a carrier of one worker's steps.

ghost use Rattle.std.specs.Prelude.{◌≡◌};

use crate::steps::{count, exchange, load, look, swap};
use crate::table::{Inner, Table};
use rh_carrier::Steps;
use rh_words::{Effect, Part, Reading, Request, Shape, Side};
use std::marker::Brand;

/// One worker's seat at a table, lent for some steps.
#[derive(Drop)]
pub struct OnTable<'a> {
    pub table: &'a Table,
    pub seat: &'a mut Inner,
}

impl<'a> Steps for OnTable<'a> {
    ghost use Rattle.rh_shared.specs.Sits.{Sits, SeatSteps};

    ghost shows = { Sits };

    ghost serves = { Sits };

    ghost made = { λ z s t v word then next. SeatSteps z s t v word then next };

    #[inline(always)]
    fn make(&mut self, shape: &Shape, side: &mut Side, request: Request) -> u64 {
        let at = request.index(shape, side);
        let word = match request.effect(shape, side) {
            Effect::Keep => load::<Brand>(self, side, request, at),
            Effect::Put(new) => exchange::<Brand>(self, side, request, at, new),
            Effect::Swap { old, new } => swap::<Brand>(self, side, request, at, old, new),
            Effect::Count => count::<Brand>(self, side, request, at),
        };
        side.note(shape, request, word);
        word
    }

    #[inline(always)]
    fn own_word(&mut self, shape: &Shape, side: &Side, part: Part) -> u64 {
        let at = shape.index(part);
        look::<Brand>(self, side, Request::Read(Reading::Word(at)), at)
    }
}
