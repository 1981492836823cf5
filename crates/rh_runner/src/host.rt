//! What a run takes from outside beside its devices.

use std::alloc::Global;

/// What starts threads, and where what is made is held.
#[derive(Drop)]
pub struct Host<'a, T> {
    pub rt: &'a T,
    pub alloc: Global,
}
