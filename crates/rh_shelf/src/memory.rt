//! A shelf in memory.

ghost use Rattle.std.specs.Prelude.{◌≡◌, None, Some, IfErr, IfOk, IsErrOf, OnErr, OnOk};
ghost use Rattle.rh_bytes.specs.Counting.{Rose};
ghost use Rattle.rh_shelf.specs.Shelf.{TakesFile, with_file};
ghost use Rattle.rh_shelf.specs.Kinds.{failures_in, files_of, in_memory};

use crate::shelf::{Shelf, ShelfFault};
use std::alloc::Global;
use std::collections::BTreeMap;
use std::io::Cursor;

/// Files whose paths and bytes stand in memory. It fails for want of memory alone, and then the
/// files are as they were.
#[derive(Drop)]
pub struct MemShelf {
    files: BTreeMap<String, Vec<u8>>,
    failures: u64,
}

impl MemShelf {
    /// A shelf without files.
    pub fn new(alloc: Global) -> MemShelf
        ensures empty { files_of result ≡ (λ _. None) }
        ensures none { failures_in result ≡ 0 }
    {
        MemShelf {
            files: BTreeMap::new(alloc),
            failures: 0,
        }
    }

    /// The bytes of the path, as a vector of their own.
    pub fn copy_of(&self, alloc: Global, path: &str) -> Result<Vec<u8>, ShelfFault>
        ensures found { IfOk result (λ v. files_of self.now path.now ≡ Some v.items) }
        ensures missing { IsErrOf result ShelfFault.Missing →
            files_of self.now path.now ≡ None }
        ensures no_write { IsErrOf result ShelfFault.Write → ⊥ }
    {
        let bytes = self.files.get(path).ok_or(ShelfFault::Missing)?;
        copy_bytes(alloc, bytes)
    }

    /// Counts a call that memory was refused.
    fn count<T>(&mut self, outcome: &Result<T, ShelfFault>)
        ensures counts { IsErrOf outcome.now ShelfFault.Memory →
            Rose (failures_in self.old) (failures_in self.new) }
        ensures others { (IsErrOf outcome.now ShelfFault.Memory → ⊥) →
            failures_in self.new ≡ failures_in self.old }
        ensures same_files { files_of self.new ≡ files_of self.old }
    {
        if let Err(ShelfFault::Memory) = outcome {
            self.failures = self.failures.saturating_add(1);
        }
    }

    fn insert(&mut self, alloc: Global, path: &str, bytes: &[u8]) -> Result<(), ShelfFault>
        ensures put { OnOk result (files_of self.new
            ≡ with_file (files_of self.old) path.now bytes.now) }
        ensures refused { OnErr result (files_of self.new ≡ files_of self.old) }
        ensures memory { IfErr result (λ fault. fault ≡ ShelfFault.Memory) }
        ensures same_failures { failures_in self.new ≡ failures_in self.old }
    {
        let path = String::from_str(alloc, path)?;
        let bytes = copy_bytes(alloc, bytes)?;
        self.files.insert(path, bytes)?;
        Ok(())
    }
}

impl Shelf for MemShelf {
    type Reader = Cursor<Vec<u8>>;

    ghost files = { λ s. Some (files_of s) };

    ghost failures = { failures_in };

    fn fetch(&mut self, alloc: Global, path: &str) -> Result<Cursor<Vec<u8>>, ShelfFault> {
        let bytes = self.copy_of(alloc, path);
        self.count(&bytes);
        Ok(Cursor::new(bytes?))
    }

    fn put(&mut self, alloc: Global, path: &str, bytes: &[u8]) -> Result<(), ShelfFault>
        ensures takes { TakesFile (in_memory self.old) (in_memory self.new) path.now
            bytes.now result }
        ensures refused { OnErr result (files_of self.new ≡ files_of self.old) }
        ensures memory { IfErr result (λ fault. fault ≡ ShelfFault.Memory) }
    {
        let outcome = self.insert(alloc, path, bytes);
        self.count(&outcome);
        outcome
    }
}

fn copy_bytes(alloc: Global, bytes: &[u8]) -> Result<Vec<u8>, ShelfFault>
    ensures copy { IfOk result (λ v. v.items ≡ bytes.now) }
    ensures memory { IfErr result (λ fault. fault ≡ ShelfFault.Memory) }
{
    let mut copy = Vec::new(alloc);
    copy.extend_from_slice(bytes)?;
    Ok(copy)
}
