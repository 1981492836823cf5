//! What is known of a worker, for contracts alone.

ghost use Rattle.std.specs.Prelude.{◌≡◌};
ghost use base.Fml.{ftrue};
ghost use Rattle.rh_words.specs.View.{View};

use std::marker::Model;

/// What a worker has done and knows. It takes no bytes, and no run of a program reads it.
pub struct Known {
    pub ghost view: { View },
}

impl Model for Known {
    ghost also_owns = { λ _. ftrue };
}

/// How a step changes what is known, by data of the program.
pub(crate) trait Change<A> {
    ghost after: { View → A → View };
}

/// What is known at first, by data of the program. It is for contracts alone, so that any view may
/// be picked: it says something of a worker only where a seat of a table, or a list of words, has
/// it.
pub trait First<A> {
    ghost first: { A → View };
}

impl Known {
    /// What is known at first.
    pub fn start<M: First<A>, A>(about: &A) -> Known
        ensures { result.view ≡ M.first about.now }
    {
        let _ = about;
        Known {}
    }

    /// What is known next.
    #[inline(always)]
    pub(crate) fn next<M: Change<A>, A>(old: &Known, about: &A) -> Known
        ensures { result.view ≡ M.after old.now.view about.now }
    {
        let _ = old;
        let _ = about;
        Known {}
    }
}

impl Drop for Known {
    fn drop(self) {
        let Self {} = self;
    }
}

unsafe impl Send for Known {}
