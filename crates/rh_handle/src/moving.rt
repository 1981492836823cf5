//! Sets put into handles, and taken out.

ghost use Rattle.std.specs.Prelude.{◌≡◌, IfOk, None, OnErr, OnOk, Some, option_map};
ghost use Rattle.rh_handle.specs.Holding.{set_in};

use crate::handle::Handle;
use crate::loose::Loose;
use rh_set::Set;
use std::alloc::{AllocError, Global};
use std::mem::replace;

/// Takes the set out of the handle, if there is one.
pub(crate) fn take(alloc: Global, handle: &mut Handle) -> Option<Box<Set, Global>>
    ensures taken { option_map (λ b. b.value) result ≡ handle.old.held }
    ensures left { handle.new.held ≡ None }
{
    let whole = replace(handle, Handle::empty());
    whole.into_loose(alloc).map(Loose::into_box)
}

/// Takes the set out of the handle, or makes an empty one where there is none.
pub(crate) fn open(alloc: Global, handle: &mut Handle) -> Result<Box<Set, Global>, AllocError>
    ensures opened { IfOk result (λ b. b.value ≡ set_in handle.old.held) }
    ensures left { handle.new.held ≡ None }
    ensures refused { OnErr result (handle.old.held ≡ None) }
{
    match take(alloc, handle) {
        Some(set) => Ok(set),
        None => Ok(Box::new(alloc, Set::new(alloc)?)?),
    }
}

/// Puts the set into the handle. What was there is freed.
pub(crate) fn put(alloc: Global, handle: &mut Handle, set: Box<Set, Global>)
    ensures { handle.new.held ≡ Some set.value }
{
    let before = replace(handle, Handle::of(Loose::of(set)));
    drop(before.into_loose(alloc).map(Loose::into_box));
}
