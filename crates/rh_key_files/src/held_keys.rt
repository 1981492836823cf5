//! Keys in memory that come in batches.

ghost use Rattle.std.specs.Prelude.{All};
ghost use Rattle.rh_layout.specs.Key.{IsKey};

use crate::fault::KeyFault;
use crate::source::KeySource;

/// A list of keys in memory. It never fails.
#[derive(Clone, Copy, Debug)]
pub struct HeldKeys<'a> {
    rest: &'a [u64],
    ghost in_range: { All IsKey rest.now },
}

impl<'a> HeldKeys<'a> {
    ghost use Rattle.std.specs.Prelude.{◌≡◌};
    ghost use Rattle.rh_key_files.specs.HeldKeys.{rest_of};

    pub fn new(keys: &'a [u64]) -> HeldKeys<'a>
        requires { All IsKey keys.now }
        ensures { rest_of result ≡ keys.entry.now }
    {
        HeldKeys { rest: keys }
    }
}

impl KeySource for HeldKeys<'_> {
    ghost use Rattle.std.specs.Prelude.{None, Some, Ok, length};
    ghost use Rattle.rh_key_files.specs.HeldKeys.{rest_of};

    ghost coming = { λ held. Some (Ok (rest_of held)) };

    ghost left_of = { λ held. length (rest_of held) };

    ghost failed_with = { λ _. None };

    fn keys_left(&self) -> u64 {
        self.rest.len() as u64
    }

    fn next_keys(&mut self, batch: &mut [u64]) -> Result<usize, KeyFault> {
        let n = batch.len().min(self.rest.len());
        let (front, rest) = self.rest.split_at(n);
        batch[..n].copy_from_slice(front);
        self.rest = rest;
        Ok(n)
    }
}
