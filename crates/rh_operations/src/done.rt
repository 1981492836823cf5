//! What a command on the keys of a list has to tell.

use rh_report::Change;

/// How the held keys changed, or which keys of the list are held.
#[derive(Drop)]
pub enum Done {
    Changed(Change),
    /// Of each position of the list, whether its key is held.
    Asked(Vec<bool>),
}
