//! Who shares work out among them.

ghost use Rattle.std.specs.Prelude.{◌<◌};

use std::alloc::Global;

/// A number of workers: at least one. Some dozens are meant, as the stack of who starts their
/// threads may grow with it.
#[derive(Clone, Copy, Debug, PartialEq, Eq)]
pub struct Workers {
    pub count: usize,
    ghost some: { 0 < count },
}

impl Workers {
    ghost use Rattle.std.specs.Prelude.{◌≡◌, ◌+◌, MatchOption};

    /// Both halves of them, where they are several.
    pub fn halves(self) -> Option<(Workers, Workers)>
        ensures { MatchOption result (self.count ≡ 1)
            (λ halves. halves.0.count + halves.1.count ≡ self.count) }
    {
        if self.count == 1 {
            return None;
        }
        let first = self.count / 2;
        let others = self.count - first;
        Some((Workers { count: first }, Workers { count: others }))
    }

    /// All but one of them, where they are several.
    pub fn others(self) -> Option<Workers>
        ensures { MatchOption result (self.count ≡ 1)
            (λ others. others.count + 1 ≡ self.count) }
    {
        if self.count == 1 {
            return None;
        }
        Some(Workers {
            count: self.count - 1,
        })
    }
}

/// So many workers, what starts their threads, and where what they make is held.
#[derive(Drop)]
pub struct Team<'a, T> {
    pub rt: &'a T,
    pub alloc: Global,
    pub workers: Workers,
}

impl<'a, T> Team<'a, T> {
    ghost use Rattle.std.specs.Prelude.{◌≡◌};

    /// One worker of the team.
    pub fn alone(&self) -> Team<'a, T>
        ensures { result.workers.count ≡ 1 }
    {
        Team {
            rt: self.rt,
            alloc: self.alloc,
            workers: Workers { count: 1 },
        }
    }
}
