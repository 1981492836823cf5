//! A text on the way: what was found in it, and how its line goes on.

ghost use Rattle.std.specs.Prelude.{All};
ghost use Rattle.rh_layout.specs.Key.{IsKey};

use crate::found::{Found, ShownLine};
use crate::limits::SHOWN_LINES;
use rh_cutting::KeyList;
use rh_numbers::{BadLine, Excerpt, LineSoFar};
use std::alloc::{AllocError, Global};

/// What was found in a text so far, and how its line goes on.
#[derive(Drop)]
pub(crate) struct Walk {
    keys: Vec<u64>,
    bad: Vec<ShownLine>,
    more: u64,
    /// The number of the line, from 1 on.
    line: u64,
    /// What the line has said so far.
    so_far: LineSoFar,
    /// Its first bytes: they come once, from a pipe too.
    text: Excerpt,
    ghost in_range: { All IsKey keys.items },
}

impl Walk {
    ghost use Rattle.std.specs.Prelude.{◌≡◌, ◌≤◌, ◌<◌, ◌+◌, ◌^◌, ◌++◌, ◌∷◌, [], ℕ, List, IfOk, OnOk, length};
    ghost use Rattle.rh_layout.specs.Key.{IsKey};
    ghost use Rattle.rh_numbers.specs.Chunks.{in_line};
    ghost use Rattle.rh_numbers.specs.Excerpt.{held_by, shown, without_return};
    ghost use Rattle.rh_numbers.specs.declared.line_so_far.LineSoFar.TheVariants.{Start};
    ghost use Rattle.rh_checks.specs.Lists.{findings_in};
    ghost use Rattle.rh_checks.specs.Walk.{line_ends, findings_from, findings_on, findings_so_far, with_bad};
    ghost use Rattle.rh_checks.specs.Lines.{findings};

    /// Nothing was read yet. A byte order mark is no part of the text.
    pub(crate) fn new(alloc: Global) -> Walk
        ensures on { (rest : List ℕ) → findings_on result rest ≡ findings_from (findings [] []) 1 Start [] rest }
        ensures line { result.line ≡ 1 }
        ensures few { result.more ≡ 0 }
    {
        Walk {
            keys: Vec::new(alloc),
            bad: Vec::new(alloc),
            more: 0,
            line: 1,
            so_far: LineSoFar::Start,
            text: Excerpt::new(),
        }
    }

    /// Reads the next bytes.
    pub(crate) fn read(&mut self, bytes: &[u8]) -> Result<(), AllocError>
        requires line { self.old.line + length bytes.now < 2 ^ 64 }
        requires few { self.old.more < self.old.line }
        ensures line { OnOk result (self.new.line ≤ self.old.line + length bytes.now) }
        ensures few { OnOk result (self.new.more < self.new.line) }
        ensures on { OnOk result ((rest : List ℕ) →
            findings_on self.old (bytes.now ++ rest) ≡ findings_on self.new rest) }
    {
        for b in bytes {
            self.step(*b)?;
        }
        Ok(())
    }

    /// Reads the next byte.
    #[tactic(auto, unfolding(crate::specs::Walk::findings_from))]
    fn step(&mut self, b: u8) -> Result<(), AllocError>
        requires line { self.old.line + 1 < 2 ^ 64 }
        requires few { self.old.more < self.old.line }
        ensures line { OnOk result (self.new.line ≤ self.old.line + 1) }
        ensures few { OnOk result (self.new.more < self.new.line) }
        ensures on { OnOk result ((rest : List ℕ) →
            findings_on self.old (b ∷ rest) ≡ findings_on self.new rest) }
    {
        if b == b'\n' {
            self.end_line()?;
            self.line += 1;
            self.so_far = LineSoFar::Start;
            self.text = Excerpt::new();
            return Ok(());
        }
        self.so_far = self.so_far.next(b);
        self.text.push(b);
        Ok(())
    }

    /// Takes what the line said, which ends here.
    fn end_line(&mut self) -> Result<(), AllocError>
        requires { self.old.more < self.old.line }
        ensures line { self.new.line ≡ self.old.line }
        ensures few { OnOk result (self.new.more ≤ self.old.more + 1) }
        ensures ends { OnOk result (findings_so_far self.new
            ≡ line_ends (findings_so_far self.old) self.old.line self.old.so_far (held_by self.old.text)) }
    {
        match self.so_far.end() {
            Ok(None) => Ok(()),
            Ok(Some(key)) => {
                self.keys.push(key)?;
                Ok(())
            }
            Err(bad) => self.take_bad(bad),
        }
    }

    /// Takes the line, which is bad: to be shown, or to be counted.
    fn take_bad(&mut self, bad: BadLine) -> Result<(), AllocError>
        requires { self.old.more < self.old.line }
        ensures line { self.new.line ≡ self.old.line }
        ensures few { OnOk result (self.new.more ≤ self.old.more + 1) }
        ensures takes { OnOk result (findings_so_far self.new ≡ with_bad (findings_so_far self.old)
            (in_line self.old.line bad, shown (without_return (held_by self.old.text)))) }
    {
        if self.bad.len() >= SHOWN_LINES {
            self.more += 1;
            return Ok(());
        }
        let (line, text) = (self.line, self.text.without_return());
        self.bad.push(ShownLine { line, bad, text })?;
        Ok(())
    }

    /// What was found in a text that ends here. No more memory is kept than its keys take.
    #[tactic(auto, unfolding(crate::specs::Walk::findings_from))]
    pub(crate) fn end(self, alloc: Global) -> Result<Found, AllocError>
        requires { self.more < self.line }
        ensures { IfOk result (λ found. findings_in found ≡ findings_on self []) }
    {
        let mut walk = self;
        walk.end_line()?;
        let Walk {
            keys: mut piece,
            bad,
            more,
            ..
        } = walk;
        piece.shrink_to_fit();
        let mut keys = KeyList::new(alloc);
        keys.push(piece)?;
        Ok(Found { keys, bad, more })
    }
}
