//! Lists of keys of any length: texts of numbers and key files, read by several workers, from one
//! reader or from the files and the input of a command.
//!
//! `rh_checks`, `rh_list_commands`, `rh_keys_program` and `rh_pack_program` stand on it.
//!
//! ```text
//! let mut blocks = Blocks::new(alloc);
//! let list = read_list(&team, &mut blocks, &mut Counted::new(file), &mut Nobody)?;
//! for piece in list.pieces() { .. }
//! ```
//!
//! Proved, of every reader whose bytes are known:
//!
//! - `read_list`: where it answers `Ok`, the bytes are a key file, or else a text of numbers, of
//!   exactly the keys of the list, in order, and none is left. Else the fault is the first in the
//!   bytes; of a text it tells the line, of a key file the index of the key. No number of workers
//!   and no size of a block stands in this.
//! - Of want of memory, of a failed read and of a text of 2^63 bytes or more nothing is told of the
//!   bytes. `Read` comes only where the reader's count of failures rose, `TooLong` only of so many
//!   bytes.
//! - Bytes that came before a failed read hold no bad line, nor behind a header a bad key; but
//!   before its fourth byte a list is not known to be a text. Want of memory for a key file
//!   comes only behind a header that can be read, and behind good keys.
//! - `Skipping`: it gives the bytes of its reader with spaces in place of the first lines, so many as
//!   are asked for, and of a key file all bytes.
//! - `lists_agree`: what two readings of the same bytes answer is the same, but for these.
//! - `read_paths`, for every shelf and reader whose bytes are known: where it answers `Ok`, the files
//!   and the input were lists of exactly these numbers; of a file that is a text with `skip` blank
//!   lines in place of its first ones. Else the fault is the first of the first list that has one, and
//!   memory runs out only behind a list that was read. A list of a file with a fault takes nothing of
//!   the input. A file is told as missing only where there is none, or the shelf failed; a failed read
//!   of the input only where one failed, behind good lines and keys, and of a file only where the shelf
//!   was shown one. Else it was shown none.
//!
//! Memory: 8 bytes for each key and 24 for each piece, of which a text has one for each worker and
//! block; twice as much for the pieces that are being read; and two blocks of 16 MB at the most,
//! which all lists of a caller share (`Blocks`).
//!
//! For other readers no more than safety, and that count, is claimed. That the reading ends sooner
//! by several workers is measured and not proved.
#![tactic(auto)]

mod ahead;
mod blanks;
mod blocks;
mod fault;
mod laws;
mod limits;
mod part;
mod paths;
mod reading;
mod skipping;
mod text;
mod workers;

pub use blocks::Blocks;
pub use fault::{CommandFault, FileFault, ListFault};
pub use laws::lists_agree;
pub use limits::BLOCK_BYTES;
pub use paths::{INPUT, read_paths};
pub use reading::read_list;
pub use skipping::Skipping;
