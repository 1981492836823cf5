//! Tables of another size.

ghost use Rattle.std.specs.Prelude.{◌≡◌, ◌+◌, ◌^◌, ◌<◌, Ok, IsOk, IfOk, IfErr};
ghost use Rattle.std.specs.FinSet as finset;
ghost use Rattle.rh_layout.specs.Layout.{IsLayout, keys_of};
ghost use Rattle.rh_operations.specs.Size.{size_for};
ghost use Rattle.rh_operations.specs.Refusals.{IsOfPhase, RefusedBy};
ghost use Rattle.rh_operations.specs.Refusals.{MemoryFails};

use crate::cause::Cause;
use rh_edit::SeqSet;
use rh_grow::{bits_for, grow};
use rh_runner::Scratch;
use std::alloc::{AllocError, Global};

/// A copy of the set's table that takes `more` keys too. Its bits are the least that do, and none
/// fewer.
#[tactic(auto, using(crate::proofs::SizeLemmas::size_found))]
pub(crate) fn grow_table(alloc: Global, set: &SeqSet, more: u64) -> Result<Scratch, Cause>
    ensures size { IfOk result
        (λ t. size_for set.now.bits (finset.len set.now.keys + more) ≡ Ok t.bits) }
    ensures layout { IfOk result (λ t. IsLayout t.bits t.cells.items) }
    ensures keys { IfOk result (λ t. keys_of t.cells.items ≡ set.now.keys) }
    ensures room { IfOk result (λ t. finset.len set.now.keys + more < 2 ^ t.bits) }
    ensures refused { IfErr result
        (RefusedBy (size_for set.now.bits (finset.len set.now.keys + more)) MemoryFails) }
    ensures memory { IfErr result (λ cause. cause ≡ Cause.Memory →
        IsOk (size_for set.now.bits (finset.len set.now.keys + more))) }
    ensures own { IfErr result IsOfPhase }
    ensures no_thread { IfErr result (λ cause. cause ≡ Cause.NoThread → ⊥) }
{
    let Some(size) = bits_for(set.bits(), set.len() as u64, more) else {
        return Err(Cause::TooLarge);
    };
    if size == set.bits() {
        return Ok(copy_table(alloc, set)?);
    }
    let cells = grow(alloc, set.bits(), set.cells(), size)?;
    Ok(Scratch { bits: size, cells })
}

/// A copy of the set's table as it is.
pub(crate) fn copy_table(alloc: Global, set: &SeqSet) -> Result<Scratch, AllocError>
    ensures bits { IfOk result (λ t. t.bits ≡ set.now.bits) }
    ensures layout { IfOk result (λ t. IsLayout t.bits t.cells.items) }
    ensures keys { IfOk result (λ t. keys_of t.cells.items ≡ set.now.keys) }
    ensures room { IfOk result (λ t. finset.len set.now.keys < 2 ^ t.bits) }
{
    let mut cells = Vec::new(alloc);
    cells.extend_from_slice(set.cells())?;
    let bits = set.bits();
    Ok(Scratch { bits, cells })
}
