//! What is asked of lists of numbers.

ghost use Rattle.std.specs.Prelude.{◌≡◌, ℕ, List, All, IfOk, length, map};
ghost use Rattle.rh_layout.specs.Key.{IsKey};
ghost use Rattle.rh_combine.specs.Combine.{answer as made, meant};
ghost use Rattle.rh_combine.proofs.RangeLaws.{answer_of};
ghost use Rattle.rh_combine.proofs.Rising.{rising_increase};
ghost use Rattle.rh_combine_workers.specs.Questions.{IsByNumber};

use rh_combine::{How, combine};
use std::alloc::{AllocError, Global};

/// A question that is asked of lists of numbers. Its answer is numbers of them, each once, in
/// rising order; and whether a number is one depends on no other number. So lists may be cut into
/// parts, and each part be asked by itself.
pub trait Question {
    /// The numbers that are the answer.
    ghost answer: { Self → List (List ℕ) → List ℕ };

    /// It can be asked of so many lists.
    ghost takes: { Self → ℕ → Type 0 };

    /// Asks it of lists, which may be of any length, with repeats, in any order. `AllocError` comes
    /// only for want of memory.
    fn ask(&self, alloc: Global, lists: &[&[u64]]) -> Result<Vec<u64>, AllocError>
        requires takes { takes self.now (length lists.now) }
        requires keys { All (λ l. All IsKey l.now) lists.now }
        ensures { IfOk result (λ v. v.items ≡ answer self.now (map (λ l. l.now) lists.now)) };

    ghost by_number: { (question : Self) → IsByNumber (answer question) };
}

/// The law of a question, for who starts threads: it does nothing.
pub(crate) fn by_number<Q: Question>(question: &Q)
    ensures { IsByNumber (Q.answer question.now) }
{
    let _ = question;
}

impl Question for How {
    ghost answer = { made };

    ghost takes = { λ how lists. Unit {0} };

    ghost by_number = { λ how. record {
      of_part = λ passes. answer_of passes how;
      rises = λ lists. rising_increase (meant how lists);
    } };

    fn ask(&self, alloc: Global, lists: &[&[u64]]) -> Result<Vec<u64>, AllocError> {
        combine(alloc, *self, lists)
    }
}
