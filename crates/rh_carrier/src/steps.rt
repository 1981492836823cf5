//! What carries out the steps of a worker.

ghost use Rattle.std.specs.Prelude.{◌≡◌, ℕ};
ghost use Rattle.rh_words.specs.Requests.{step_asked};
ghost use Rattle.rh_words.specs.Steps.{Allowed, row_of, row_word};
ghost use Rattle.rh_rule.specs.Represents.{IsOwn};
ghost use Rattle.rh_carrier.specs.Relies.{Relies, Trusts, Went};

use rh_words::{Part, Request, Shape, Side};

/// A carrier of a worker's steps: it makes them one at a time, and shows what the worker wrote into
/// its own rows. The protocol of a worker asks for no more, so that it runs on each carrier alike.
pub trait Steps {
    ghost use Rattle.rh_words.specs.declared.shape.Shape.{Shape};
    ghost use Rattle.rh_words.specs.Steps.{Step};
    ghost use Rattle.rh_words.specs.View.{View};

    // The carrier has what a worker wrote into its rows.
    ghost shows: { Shape → Self → View → Type 0 };
    // A worker of whom this is kept may make its next step on it.
    ghost serves: { Shape → Self → View → Type 0 };
    // The step was made between the two, and found this word.
    ghost made: { Shape → Step → Self → View → ℕ → Self → View → Type 0 };

    /// Makes a step, and answers the word that it found.
    /// Of a Write too, of which nothing is noted: so one contract does for all kinds of step.
    fn make(&mut self, shape: &Shape, side: &mut Side, request: Request) -> u64
        requires relies { Relies shows serves shape.now self.old side.old.known.view }
        requires allowed { Allowed shape.now side.old.known.view (step_asked request) }
        ensures { Went shows made shape.now (step_asked request) self.old side.old.known.view
            result self.new side.new.known.view };

    /// A word of an own row. That is no step, though a shared table loads it: nobody else writes
    /// there.
    fn own_word(&mut self, shape: &Shape, side: &Side, part: Part) -> u64
        requires trusts { Trusts shows shape.now self.old side.now.known.view }
        requires own { IsOwn shape.now side.now.known.view.worker part }
        ensures word { result ≡ row_word side.now.known.view.written (row_of shape.now part) }
        ensures same { self.new ≡ self.old };
}
