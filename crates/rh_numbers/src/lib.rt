//! Texts of numbers: keys in decimal digits, one a line.
//!
//! `rh_key_texts`, `rh_splitting`, `rh_lists` and `rh_combine_workers` stand on it.
//!
//! Proved:
//!
//! - `read_numbers`: a text of keys is read to them, in order and with repeats. Other texts are
//!   refused by the first fault of their first faulty line, with its number.
//! - `Read` comes only where the reader's count of failures rose, and `text too long` only of a
//!   text of 2^63 bytes or more.
//! - Where a text is refused, all that was taken but for a last part of at most 8,192 bytes holds
//!   no fault. Want of memory is told only before such a part is read, and a failed read only
//!   behind good lines: then nothing that was taken holds a fault.
//! - `Reading::read_part`: of the next 8,192 bytes the keys were added, in order, up to the first
//!   fault, and the line goes on after the part. So texts of any length are read by whoever clears
//!   the keys. Where memory is refused nothing is read. `new`, `keys` and `clear` are exact.
//! - `read_chunk`: a chunk of a text, cut at any byte, is read to its keys and to how it ends,
//!   whatever stands before it and comes after it. So texts are read by several workers.
//! - `write_numbers`: the text of the numbers, one a line, or a front of it where the writer
//!   failed.
//! - `one_meaning`: what the grammar calls a text of these keys is read to them, what is read is
//!   such a text, and so is what is written of keys.
//! - `first_fault`: after whole lines of keys, a line that the grammar does not know gives
//!   `NotAKey` with its number. A number above the greatest key gives `OutOfRange`. A key after a
//!   million gives `TooMany`.
//! - `any_length`: both laws hold of texts of any length, without that limit. A text with a byte
//!   order mark at its head says what it says without it.
//! - `text_in_chunks`: a text whose front is whole lines says what the front says, and then what
//!   the lines of the rest say, so many lines later.
//! - `line_at`: of a reader whose bytes are known, what it answers is shown as their line with this
//!   number: at most 40 bytes of it in quotes, printable ASCII as it is, any other byte as `\xEF`. It
//!   answers `None` only where there is no such line or a read failed, or of 2^63 bytes or more.
//! - `fixed_numbers`: a text of 2^63 bytes is too long, and it is read in parts of 8,192.
#![tactic(auto)]

mod chunk;
mod excerpt;
mod fault;
mod laws;
mod limits;
mod line_so_far;
mod plain;
mod reading;
mod search;
mod shown_byte;
mod text;
mod writing;

pub use chunk::{Chunk, ChunkEnd, read_chunk};
pub use excerpt::{Excerpt, HELD_BYTES, SHOWN_BYTES};
pub use fault::TextFault;
pub use laws::{any_length, first_fault, fixed_numbers, one_meaning, text_in_chunks};
pub use limits::{MAX_BYTES, MAX_READS, PART_BYTES};
pub use line_so_far::{BadLine, LineSoFar};
pub use reading::Reading;
pub use search::{behind_mark, line_at};
pub use text::read_numbers;
pub use writing::{append_numbers, write_numbers};
