//! The single steps of one worker's seat: each is one load, swap, compare-and-swap or increment of
//! one word of the table.

ghost use Rattle.std.specs.Prelude.{◌+◌, ◌%◌, ◌^◌};
ghost use Rattle.rh_words.specs.Steps.{swapped};
ghost use Rattle.rh_shared.specs.Sits.{IsReading, Looks, Ready, Stays, Tells};

use crate::on_table::OnTable;
use atomic_table::Play;
use rh_rule::Sitter;
use rh_words::{Request, Side};
use std::collections::LinkedList;
use std::marker::{Brand, PhantomData};

/// Which step a call makes, and of whom this is kept before it. Each call in the program picks it,
/// by its arguments alone: so the functions below are given the side and the step too.
pub(crate) trait Call {
    ghost use Rattle.rh_words.specs.declared.shape.Shape.{Shape};
    ghost use Rattle.rh_words.specs.Steps.{Step};
    ghost use Rattle.rh_words.specs.View.{View};

    ghost shape: { Shape };

    ghost view: { View };

    ghost step: { Step };
}

impl Call for Brand {
    ghost use Rattle.std.specs.Prelude.{[]};
    ghost use Rattle.rh_words.specs.Steps.Step.{claims};
    ghost use Rattle.rh_words.specs.View.{new_view};
    ghost use Rattle.rh_shared.specs.Least.{least_shape};

    ghost shape = { least_shape };

    ghost view = { new_view [] 0 };

    ghost step = { claims };
}

struct Making<B> {
    of: PhantomData<B>,
}

impl<B: Call> Play<(), LinkedList<Sitter>> for Making<B> {
    ghost then = { λ _ was word me. Tells B.shape B.view B.step was word me };
}

#[inline(always)]
pub(crate) fn load<B: Call>(here: &mut OnTable<'_>, _side: &Side, _ask: Request, at: usize) -> u64
    requires { Ready here.old B.shape B.view B.step at (λ n. n) }
    ensures stays { Stays here.old here.new }
    ensures tells { Tells B.shape B.view B.step here.old.seat.now.me result here.new.seat.now.me }
{
    let shared = &here.table.inner.shared;
    shared.load::<Making<B>>(&mut *here.seat, at)
}

struct Looking<B> {
    of: PhantomData<B>,
}

impl<B: Call> Play<(), LinkedList<Sitter>> for Looking<B> {
    ghost then = { λ _ was word me. Looks B.shape B.view B.step was word me };
}

/// A look at a word, which is no step: the trace stays as it is.
#[inline(always)]
pub(crate) fn look<B: Call>(here: &mut OnTable<'_>, _side: &Side, _ask: Request, at: usize) -> u64
    requires reads { IsReading B.step }
    requires ready { Ready here.old B.shape B.view B.step at (λ n. n) }
    ensures stays { Stays here.old here.new }
    ensures looks { Looks B.shape B.view B.step here.old.seat.now.me result here.new.seat.now.me }
{
    let shared = &here.table.inner.shared;
    shared.load::<Looking<B>>(&mut *here.seat, at)
}

/// A swap and no store, since only a swap tells what it found: so each step is recorded alike.
#[inline(always)]
pub(crate) fn exchange<B: Call>(
    here: &mut OnTable<'_>,
    _side: &Side,
    _ask: Request,
    at: usize,
    new: u64,
) -> u64
    requires { Ready here.old B.shape B.view B.step at (λ _. new) }
    ensures stays { Stays here.old here.new }
    ensures tells { Tells B.shape B.view B.step here.old.seat.now.me result here.new.seat.now.me }
{
    let shared = &here.table.inner.shared;
    shared.swap::<Making<B>>(&mut *here.seat, at, new)
}

#[inline(always)]
pub(crate) fn swap<B: Call>(
    here: &mut OnTable<'_>,
    _side: &Side,
    _ask: Request,
    at: usize,
    old: u64,
    new: u64,
) -> u64
    requires { Ready here.old B.shape B.view B.step at (swapped old new) }
    ensures stays { Stays here.old here.new }
    ensures tells { Tells B.shape B.view B.step here.old.seat.now.me result here.new.seat.now.me }
{
    let shared = &here.table.inner.shared;
    shared.compare_exchange::<Making<B>>(&mut *here.seat, at, old, new)
}

#[inline(always)]
pub(crate) fn count<B: Call>(here: &mut OnTable<'_>, _side: &Side, _ask: Request, at: usize) -> u64
    requires { Ready here.old B.shape B.view B.step at (λ n. (n + 1) % 2 ^ 64) }
    ensures stays { Stays here.old here.new }
    ensures tells { Tells B.shape B.view B.step here.old.seat.now.me result here.new.seat.now.me }
{
    let shared = &here.table.inner.shared;
    shared.fetch_add::<Making<B>>(&mut *here.seat, at, 1)
}
