//! The operations of a script on the set that is held and on lists of keys.
//!
//! `rh_script_run` stands on it. What a command does stands here; what it means in a script stands
//! there.
//!
//! Proved:
//!
//! - `operate`: what an action (`add`, `drop`, `keep`, `flip`, `ask`) makes of the table that is
//!   held, and what there is to tell. That is a function of the table and of the keys that the list
//!   gave (`means` of `specs/Actions.antt`), for every runner. A refused action leaves the set as
//!   it was.
//! - An action is refused by the first of: its file's header, another count, for `add` the size,
//!   then the keys; `keep` and `flip` find the size after all keys.
//! - `use_file`: how many keys a key file has, of which all were read. `save`: a key file in
//!   memory of the held keys in rising order.
//! - `put_snapshot`, `restore`: the bytes spell the one layout of the table, or are read back to
//!   it.
//! - Any other cause comes from outside: want of memory, or a shelf, a reader or a runner that
//!   failed, which was counted. A failed read is told of a file only where the shelf was shown a
//!   reader of which one failed, and with any other cause it was shown none.
//! - Want of memory is told only where the shelf counted a failure, or the file was found to have
//!   as many keys as before. For `add` a table is then large enough, too. Of `use_file` it is told
//!   only where the shelf counted one. A refused start is told as that and as nothing else.
//! - `one_size`: the size of a table for so many keys is the least that they fit, also as found one
//!   by one.
#![tactic(auto)]

mod cause;
mod done;
mod key_lists;
mod laws;
mod opening;
mod operations;
mod sets;
mod size;
mod snapshots;

pub use cause::Cause;
pub use done::Done;
pub use key_lists::{KeyList, Source};
pub use laws::one_size;
pub use operations::{operate, save, use_file};
pub use snapshots::{put_snapshot, restore};
