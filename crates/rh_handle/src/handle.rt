//! What C keeps.

ghost use Rattle.std.specs.Prelude.{◌≡◌, Option, Some, None, option_map};
ghost use Rattle.rh_edit.specs.Held.{Held};
ghost use Rattle.rh_handle.specs.Holding.{held_coded, holds};

use crate::loose::Loose;
use rh_set::Set;
use std::alloc::Global;
use std::marker::Model;

/// A set in a block of its own, or none: C keeps it as `struct rhset_set`, a pointer that is null
/// where there is none.
#[repr(C)]
pub struct Handle {
    // C knows no `Set`, and the toolchain lets no pointer to one cross.
    at: *mut u8,
    pub ghost held: { Option Held } by { held_coded },
}

impl Model for Handle {
    ghost also_owns = { λ h. holds h.at h.held };
}

impl Handle {
    /// A handle of no set.
    pub fn empty() -> Handle
        ensures { result.held ≡ None }
    {
        Handle {
            at: std::ptr::null_mut(),
        }
    }

    pub(crate) fn of(loose: Loose<Set, Global>) -> Handle
        ensures { result.held ≡ Some loose.value }
    {
        let Loose { at, alloc: _ } = loose;
        Handle { at: at as *mut u8 }
    }

    pub(crate) fn into_loose(self, alloc: Global) -> Option<Loose<Set, Global>>
        ensures { option_map (λ l. l.value) result ≡ self.held }
    {
        let Handle { at } = self;
        if at.is_null() {
            return None;
        }
        let at = at as *mut Set;
        Some(Loose { at, alloc })
    }
}

// It owns its set alone, and the C library frees a block in whichever thread.
unsafe impl Send for Handle {}
