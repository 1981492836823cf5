//! Keys that look random.

ghost use Rattle.std.specs.Prelude.{◌<◌};

use std::alloc::{AllocError, Global};

/// A linear congruence, with the constants of Knuth's MMIX.
#[derive(Drop)]
pub struct Random {
    state: u64,
}

impl Random {
    pub fn new(seed: u64) -> Random {
        Random { state: seed }
    }

    /// A number below this one, which is at most 2^31.
    pub fn below(&mut self, end: u64) -> u64
        requires { 0 < end }
        ensures { result < end }
    {
        self.state = self
            .state
            .wrapping_mul(6_364_136_223_846_793_005)
            .wrapping_add(1_442_695_040_888_963_407);
        (self.state >> 33) % end
    }

    /// So many keys below this one, which is at most 2^31.
    pub fn keys(&mut self, alloc: Global, many: u64, end: u64) -> Result<Vec<u64>, AllocError>
        requires { 0 < end }
    {
        let mut keys = Vec::with_capacity(alloc, many as usize)?;
        for _ in 0..many {
            let key = self.below(end);
            keys.push(key)?;
        }
        Ok(keys)
    }
}
