//! What is put at the front of a slice.

ghost use Rattle.std.specs.Prelude.{◌≡◌, IfErr, IfOk, OnErr, length};
ghost use Rattle.rh_set.specs.Putting.{IsPutInFront, LacksRoom};

use crate::fault::PutFault;

/// Copies the items to the front of the slice, and answers how many they are.
pub(crate) fn put<T: Copy>(items: &[T], into: &mut [T]) -> Result<usize, PutFault>
    ensures front { IfOk result (IsPutInFront items.now into.old into.new) }
    ensures why { IfErr result (LacksRoom (length items.now) (length into.old)) }
    ensures unchanged { OnErr result (into.new ≡ into.old) }
{
    let count = items.len();
    if into.len() < count {
        return Err(PutFault::NoRoom { count });
    }
    into[..count].copy_from_slice(items);
    Ok(count)
}
