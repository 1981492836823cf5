//! The keys of a key file, read in batches.

ghost use Rattle.std.specs.Prelude.{◌≡◌, ◌≤◌, ◌≢◌, Some};
ghost use Rattle.rh_bytes.specs.Counting.{failures_of};
ghost use Rattle.rh_key_files.specs.declared.fault.KeyFault.TheVariants.{Memory, Read as ReadFailed};
ghost use Rattle.rh_layout.specs.declared.limits.TheConstants.{MAX_KEYS};
ghost use Rattle.rh_key_files.specs.declared.stream.State.TheVariants.{Failed};
ghost use Rattle.rh_key_files.specs.State.{fault_in};

use crate::batch::read_batch;
use crate::fault::KeyFault;
use crate::source::KeySource;
use crate::version::Version;
use rh_bytes::Counted;
use rh_layout::MAX_KEYS;
use std::io::Read;

/// Whether a stream goes on, and if not what it answers from now on.
#[derive(Clone, Copy)]
pub(crate) enum State {
    Open,
    Ended,
    Failed(KeyFault),
}

/// The keys of a key file whose header was read.
#[derive(Drop)]
pub struct KeyStream<'a, R> {
    pub(crate) reader: &'a mut Counted<R>,
    pub(crate) version: Version,
    pub(crate) count: u64,
    pub(crate) taken: u64,
    pub(crate) state: State,
    ghost within: { taken ≤ count },
    ghost few: { count ≤ MAX_KEYS },
    ghost no_memory: { state ≢ Failed Memory },
    ghost blamed: { fault_in state ≡ Some ReadFailed → failures_of reader.now ≢ 0 },
}

impl<R: Read> KeyStream<'_, R> {
    ghost use Rattle.std.specs.Prelude.{◌≡◌, ◌≢◌, ◌⊎◌, ◌<◌, length, IfOk, IsErrOf};
    ghost use Rattle.rh_key_files.specs.State.{fault_in};
    ghost use Rattle.std.specs.Prelude.{All, take, drop};
    ghost use Rattle.rh_layout.specs.Key.{IsKey};
    ghost use Rattle.rh_bytes.specs.Counting.{Rose, failures_of};
    ghost use Rattle.rh_key_files.specs.Limits.{NoKeyReadFailed};
    ghost use Rattle.rh_bytes.specs.Input.{fault_of};
    ghost use Rattle.rh_key_files.specs.Stream.{GivesBatch, StaysOver, count_of, header_of};
    ghost use Rattle.rh_key_files.specs.Stream.{lender_of, reader_of, state_of};

    /// The reader that it took on loan. It has failed where the stream told so.
    pub fn reader(&self) -> &Counted<R>
        ensures value { result.now ≡ reader_of self.now }
        ensures blamed { fault_in (state_of self.now) ≡ Some KeyFault.Read →
            failures_of result.now ≢ 0 }
    {
        self.reader
    }

    /// The header's number of keys.
    pub fn count(&self) -> u64
        ensures value { result ≡ count_of self.now }
        ensures few { result ≤ MAX_KEYS }
    {
        self.count
    }

    /// Puts the next keys at the front of the batch and answers how many they are. Where none is
    /// left, it tests the end, and answers 0. After that 0, or a fault, it answers the same again
    /// and reads nothing.
    pub fn next_batch(&mut self, batch: &mut [u64]) -> Result<usize, KeyFault>
        requires { 0 < length batch.old }
        ensures same_reference { lender_of self.new ≡ lender_of self.old }
        ensures same_header { header_of self.new ≡ header_of self.old }

        ensures open { state_of self.old ≡ State.Open →
            GivesBatch R.remaining self.old self.new batch.new result }
        ensures over { state_of self.old ≢ State.Open →
            StaysOver self.old self.new batch.old batch.new result }
        ensures in_range { IfOk result (λ n. All IsKey (take n batch.new)) }
        ensures rest { IfOk result (λ n. drop n batch.new ≡ drop n batch.old) }
        ensures read { IsErrOf result KeyFault.Read →
            (state_of self.old ≡ State.Failed KeyFault.Read)
            ⊎ Rose (failures_of (reader_of self.old)) (failures_of (reader_of self.new)) }
        ensures no_memory { IsErrOf result KeyFault.Memory → ⊥ }
        ensures fine { NoKeyReadFailed (fault_of result) →
            failures_of (reader_of self.new) ≡ failures_of (reader_of self.old) }
    {
        match self.state {
            State::Ended => return Ok(0),
            State::Failed(fault) => return Err(fault),
            State::Open => {}
        }
        let left = self.count - self.taken;
        let outcome = read_batch(self.reader, self.version, self.taken, left, batch);
        match outcome {
            Ok(0) => self.state = State::Ended,
            Ok(n) => self.taken += n as u64,
            Err(fault) => self.state = State::Failed(fault),
        }
        outcome
    }
}

impl<R: Read> KeySource for KeyStream<'_, R> {
    ghost use Rattle.rh_key_files.specs.State.{fault_in};
    ghost use Rattle.rh_key_files.specs.Stream.{coming_of, left_in, left_of, state_of};

    ghost coming = { coming_of R.remaining };

    ghost left_of = { λ s. left_in (state_of s) (left_of s) };

    ghost failed_with = { λ s. fault_in (state_of s) };

    fn keys_left(&self) -> u64 {
        match self.state {
            State::Open => self.count - self.taken,
            State::Ended | State::Failed(_) => 0,
        }
    }

    fn next_keys(&mut self, batch: &mut [u64]) -> Result<usize, KeyFault> {
        self.next_batch(batch)
    }
}
