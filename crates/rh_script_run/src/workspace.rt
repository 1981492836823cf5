//! What there is between two commands.

use rh_edit::SeqSet;
use rh_operations::KeyList;

/// The set that is held, and the lists that have a name, in the order in which they were given.
#[derive(Drop)]
pub(crate) struct Workspace<'a> {
    pub(crate) set: SeqSet,
    pub(crate) lists: Vec<KeyList<'a>>,
}
