//! The state of one worker. When it runs it has its number, its counts and a control; what it has
//! done and knows is kept for contracts alone.

ghost use Rattle.std.specs.Prelude.{◌≡◌};
ghost use Rattle.rh_words.specs.Requests.{step_asked};
ghost use Rattle.rh_words.specs.Steps.{Allowed, control_seen, noted};
ghost use Rattle.rh_words.specs.View.{new_view, round_view};
ghost use Rattle.rh_words.specs.Words.{ref_of};

use crate::known::{Change, First, Known};
use crate::reference::{Reading, Ref};
use crate::shape::Shape;
use crate::steps::Request;
use crate::words::decided_word;
use rh_tagword::{State, pack_control};

/// One worker's state: what it counts, and what it has done and knows, for contracts.
#[derive(Drop)]
pub struct Side {
    /// Its number, from 0.
    pub worker: usize,
    /// The serial number of its next descriptor.
    pub next_number: u64,
    /// The control of its last descriptor, as it was last seen: the next one is opened in its
    /// place.
    pub control: u64,
    /// How many of its marks are used up.
    pub marks_used: u64,
    pub known: Known,
    pub ghost same_worker: { known.view.worker ≡ worker },
    pub ghost same_number: { known.view.next_number ≡ next_number },
    pub ghost same_control: { known.view.control ≡ control },
    pub ghost same_marks: { known.view.marks_used ≡ marks_used },
}

struct Made;

impl First<(usize, &[u64])> for Made {
    ghost first = { λ a. new_view a.1.now a.0 };
}

struct Renewed;

impl Change<&[u64]> for Renewed {
    ghost after = { λ v a. round_view a.now v };
}

struct Noted;

impl Change<(Shape, Request, u64)> for Noted {
    ghost after = { λ v a. noted a.0 v (step_asked a.1) a.2 };
}

impl Side {
    /// A worker of a table that is made with these cells, given as words.
    pub fn new(worker: usize, cells: &[u64]) -> Side
        ensures worker { result.worker ≡ worker }
        ensures known { result.known.view ≡ new_view cells.now worker }
    {
        Side {
            worker,
            next_number: 0,
            control: 0,
            marks_used: 0,
            known: Known::start::<Made, (usize, &[u64])>(&(worker, cells)),
        }
    }

    /// A round begins with these cells, given as words: all is new but what the Claims found.
    pub fn begin_round(&mut self, cells: &[u64])
        ensures worker { self.new.worker ≡ self.old.worker }
        ensures known { self.new.known.view ≡ round_view cells.now self.old.known.view }
    {
        self.next_number = 0;
        self.control = 0;
        self.marks_used = 0;
        self.known = Known::next::<Renewed, &[u64]>(&self.known, &cells);
    }

    /// Notes a step that was made and found this word.
    #[inline(always)]
    pub fn note(&mut self, shape: &Shape, request: Request, word: u64)
        requires { Allowed shape.now self.old.known.view (step_asked request) }
        ensures { self.new.known.view ≡ noted shape.now self.old.known.view
            (step_asked request) word }
    {
        let control = self.control_after(shape, request, word);
        let known = Known::next::<Noted, (Shape, Request, u64)>(
            &self.known,
            &(*shape, request, word),
        );
        match request {
            Request::Open { .. } => self.next_number += 1,
            Request::Place { old, .. } => {
                if word == old {
                    self.marks_used += 1;
                }
            }
            _ => {}
        }
        self.control = control;
        self.known = known;
    }

    // The own control as the step shows it.
    #[inline(always)]
    fn control_after(&self, shape: &Shape, request: Request, word: u64) -> u64
        requires { Allowed shape.now self.now.known.view (step_asked request) }
        ensures { result ≡ (noted shape.now self.now.known.view (step_asked request) word).control }
    {
        let _ = shape;
        match request {
            Request::Open { .. } => pack_control(self.next_number, State::Undecided),
            Request::Read(Reading::Control(desc)) => self.control_seen(desc, word),
            Request::Read(Reading::MarkControl { desc, .. }) => self.control_seen(desc, word),
            Request::Decide { desc, state } => self.control_seen(
                desc,
                decided_word(desc, state, word),
            ),
            _ => self.control,
        }
    }

    // The own control, once the control of this descriptor was seen.
    #[inline(always)]
    fn control_seen(&self, desc: Ref, word: u64) -> u64
        ensures { result ≡ control_seen self.now.known.view (ref_of desc) word }
    {
        let newest = self.next_number > 0 && desc.number == self.next_number - 1;
        if desc.worker == self.worker && newest {
            word
        } else {
            self.control
        }
    }
}
