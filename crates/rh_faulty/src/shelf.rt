//! A shelf in memory that fails once.

ghost use Rattle.std.specs.Prelude.{◌≡◌, ◌≢◌, ◌↔◌, Some, IfOk, IsErrOf, IsTrue, OnErr, OnOk};
ghost use Rattle.std.specs.Bool.{OnFalse, OnTrue};
ghost use Rattle.rh_bytes.specs.Counting.{Rose};
ghost use Rattle.rh_shelf.specs.Kinds.{files_of};
ghost use Rattle.rh_shelf.specs.Shelf.{GivesFile, TakesFile};
ghost use Rattle.rh_faulty.specs.Shelf.{inner_shelf, failure_of, calls_of, next_call, readers_of};
ghost use Rattle.rh_faulty.specs.Shelf.{next_reader, own_failures_in, known_bytes, read_that_fails};
ghost use Rattle.rh_faulty.specs.Shelf.{state_of};
ghost use Rattle.rh_faulty.specs.Streams.{fails_in, unread_of};

use crate::reader::FaultyReader;
use rh_shelf::{MemShelf, Shelf, ShelfFault};
use std::alloc::Global;

/// Which call fails. Calls are counted from 1, and so are readers and the reads of each.
#[derive(Clone, Copy, Debug, PartialEq, Eq)]
pub enum ShelfFailure {
    /// The shelf's call of this number, of `fetch` and `put` together.
    Call(u64),
    /// A read of the reader of this number among those that the shelf gave.
    Read { reader: u64, read: u64 },
}

/// A shelf in memory of which one call fails once, or one read of one of its readers. It counts its
/// failures, want of memory too.
#[derive(Drop)]
pub struct FaultyShelf {
    shelf: MemShelf,
    failure: ShelfFailure,
    calls: u64,
    readers: u64,
    failures: u64,
}

impl FaultyShelf {
    pub fn new(shelf: MemShelf, failure: ShelfFailure) -> FaultyShelf
        ensures shelf { inner_shelf result ≡ shelf }
        ensures failure { failure_of result ≡ failure }
        ensures no_call { calls_of result ≡ 0 }
        ensures no_reader { readers_of result ≡ 0 }
        ensures no_failure { own_failures_in result ≡ 0 }
    {
        FaultyShelf {
            shelf,
            failure,
            calls: 0,
            readers: 0,
            failures: 0,
        }
    }

    /// Counts a call, and its failure where it is to fail.
    fn fails_now(&mut self) -> bool
        ensures counts { calls_of self.new ≡ next_call self.old }
        ensures fails { IsTrue result
            ↔ (failure_of self.old ≡ ShelfFailure.Call (next_call self.old)) }
        ensures told { OnTrue result (Rose (own_failures_in self.old) (own_failures_in self.new)) }
        ensures fine { OnFalse result (own_failures_in self.new ≡ own_failures_in self.old) }
        ensures same_failure { failure_of self.new ≡ failure_of self.old }
        ensures same_readers { readers_of self.new ≡ readers_of self.old }
        ensures same_shelf { inner_shelf self.new ≡ inner_shelf self.old }
    {
        self.calls = self.calls.saturating_add(1);
        let fails = self.failure == ShelfFailure::Call(self.calls);
        if fails {
            self.failures = self.failures.saturating_add(1);
        }
        fails
    }

    /// Counts a call for which memory was refused.
    fn count<T>(&mut self, outcome: &Result<T, ShelfFault>)
        ensures told { IsErrOf outcome.now ShelfFault.Memory →
            Rose (own_failures_in self.old) (own_failures_in self.new) }
        ensures fine { (IsErrOf outcome.now ShelfFault.Memory → ⊥) →
            own_failures_in self.new ≡ own_failures_in self.old }
        ensures same_calls { calls_of self.new ≡ calls_of self.old }
        ensures same_failure { failure_of self.new ≡ failure_of self.old }
        ensures same_readers { readers_of self.new ≡ readers_of self.old }
        ensures same_shelf { inner_shelf self.new ≡ inner_shelf self.old }
    {
        if let Err(ShelfFault::Memory) = outcome {
            self.failures = self.failures.saturating_add(1);
        }
    }
}

impl Shelf for FaultyShelf {
    type Reader = FaultyReader<Vec<u8>>;

    ghost files = { λ s. Some (files_of (inner_shelf s)) };

    ghost failures = { own_failures_in };

    fn fetch(&mut self, alloc: Global, path: &str) -> Result<FaultyReader<Vec<u8>>, ShelfFault>
        ensures gives { GivesFile (unread_of known_bytes) (state_of self.old) (state_of self.new)
            path.now result }

        // Which call fails, and which reader.
        ensures counts { calls_of self.new ≡ next_call self.old }
        ensures fails { failure_of self.old ≡ ShelfFailure.Call (next_call self.old) →
            IsErrOf result ShelfFault.Missing }
        ensures fails_once { failure_of self.old ≢ ShelfFailure.Call (next_call self.old) →
            (IsErrOf result ShelfFault.Memory → ⊥) →
            own_failures_in self.new ≡ own_failures_in self.old }
        ensures given { OnOk result (readers_of self.new ≡ next_reader self.old) }
        ensures not_given { OnErr result (readers_of self.new ≡ readers_of self.old) }
        ensures reader { IfOk result (λ r.
            fails_in r ≡ read_that_fails (failure_of self.old) (next_reader self.old)) }
        ensures same_failure { failure_of self.new ≡ failure_of self.old }
    {
        if self.fails_now() {
            return Err(ShelfFault::Missing);
        }
        let bytes = self.shelf.copy_of(alloc, path);
        self.count(&bytes);
        let bytes = bytes?;
        self.readers = self.readers.saturating_add(1);
        let fails_at = match self.failure {
            ShelfFailure::Read { reader, read } if reader == self.readers => read,
            _ => 0,
        };
        Ok(FaultyReader::new(bytes, fails_at))
    }

    fn put(&mut self, alloc: Global, path: &str, bytes: &[u8]) -> Result<(), ShelfFault>
        ensures takes { TakesFile (state_of self.old) (state_of self.new) path.now bytes.now
            result }
        ensures refused { OnErr result (files_of (inner_shelf self.new)
            ≡ files_of (inner_shelf self.old)) }

        // Which call fails.
        ensures counts { calls_of self.new ≡ next_call self.old }
        ensures fails { failure_of self.old ≡ ShelfFailure.Call (next_call self.old) →
            IsErrOf result ShelfFault.Write }
        ensures fails_once { failure_of self.old ≢ ShelfFailure.Call (next_call self.old) →
            (IsErrOf result ShelfFault.Memory → ⊥) →
            own_failures_in self.new ≡ own_failures_in self.old }
        ensures same_readers { readers_of self.new ≡ readers_of self.old }
        ensures same_failure { failure_of self.new ≡ failure_of self.old }
    {
        if self.fails_now() {
            return Err(ShelfFault::Write);
        }
        let outcome = self.shelf.put(alloc, path, bytes);
        self.count(&outcome);
        outcome
    }
}
