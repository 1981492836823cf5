//! The numbers of a list, part by part.

ghost use Rattle.std.specs.Prelude.{◌≡◌, ◌≢◌, ℕ, [], ◌∷◌, ◌++◌, ◌<◌, IfOk, OnOk, get_or, length};

use std::alloc::{AllocError, Global};
use std::marker::Model;

/// The numbers of a piece of a list, part by part. Contracts see the list of the parts.
#[derive(Drop)]
pub struct Parts {
    parts: Vec<Vec<u64>>,
}

impl Model for Parts {
    ghost use Rattle.std.specs.Prelude.{ℕ, List, map};

    ghost Value = { List (List ℕ) };

    ghost view = { λ s. map (λ v. v.items) s.parts.items };
}

impl Parts {
    /// Empty parts, with so much room.
    pub(crate) fn with_room(alloc: Global, counts: &[usize]) -> Result<Parts, AllocError>
        ensures len { IfOk result (λ parts. length parts ≡ length counts.now) }
        ensures empty { IfOk result (λ parts. (p : ℕ) → get_or parts p [] ≡ []) }
    {
        let mut parts = Vec::with_capacity(alloc, counts.len())?;
        for many in counts {
            parts.push(Vec::with_capacity(alloc, *many)?)?;
        }
        Ok(Parts { parts })
    }

    /// Puts a number behind those of a part.
    pub(crate) fn put(&mut self, part: usize, number: u64) -> Result<(), AllocError>
        requires { part < length self.old }
        ensures len { length self.new ≡ length self.old }
        ensures there { OnOk result (get_or self.new part []
            ≡ get_or self.old part [] ++ number ∷ []) }
        ensures others { (p : ℕ) → p ≢ part → get_or self.new p [] ≡ get_or self.old p [] }
    {
        let there = &mut self.parts[part];
        there.push(number)?;
        Ok(())
    }

    /// The numbers of a part.
    pub fn part(&self, part: usize) -> &[u64]
        requires { part < length self.now }
        ensures { result.now ≡ get_or self.now part [] }
    {
        self.parts[part].as_slice()
    }
}
