//! Keys that come in batches.

ghost use Rattle.std.specs.Prelude.{◌≡◌, ◌≤◌, ◌<◌, ◌+◌, ℕ, All, IfErr, IfOk, OnOk, Option, Some, length, take};
ghost use Rattle.rh_layout.specs.Key.{IsKey};
ghost use Rattle.rh_key_files.specs.Source.{Coming, Gives};
ghost use Rattle.rh_key_files.specs.declared.fault.KeyFault.{KeyFault};

use crate::fault::KeyFault;

/// A list of keys that comes in batches: from a key file, or from memory.
pub trait KeySource {
    /// The keys still to come, or the fault that comes before their end, where that is known.
    ghost coming: { Self → Coming };

    /// How many keys are still to come, if no fault does.
    ghost left_of: { Self → ℕ };

    /// The fault that it told, if it told one.
    ghost failed_with: { Self → Option KeyFault };

    fn keys_left(&self) -> u64
        ensures { result ≡ left_of self.now };

    /// Puts the next keys at the front of the batch and answers how many they are: 0 only at the
    /// end of the list.
    fn next_keys(&mut self, batch: &mut [u64]) -> Result<usize, KeyFault>
        requires { 0 < length batch.old }
        ensures gives { Gives (coming self.old) (coming self.new) batch.new result }
        ensures told { IfErr result (λ e. failed_with self.new ≡ Some e) }
        ensures fine { OnOk result (failed_with self.new ≡ failed_with self.old) }
        ensures room { IfOk result (λ n. n ≤ length batch.new) }
        ensures left { IfOk result (λ n. left_of self.old ≡ left_of self.new + n) }
        ensures ends { IfOk result (λ n. n ≡ 0 → left_of self.old ≡ 0) }
        ensures in_range { IfOk result (λ n. All IsKey (take n batch.new)) };
}
