//! Splitting a list of any length into parts by a hash of its keys.
//!
//! `rh_keys_program` stands on it.
//!
//! Proved:
//!
//! - `split_text`: where it answers `Ok`, the bytes read were a text of some keys, however many.
//!   Each part was given exactly those that stand in it, in the order of the text. They were
//!   written one after the other as in a key file, and counted.
//! - Else the parts were given the keys before the fault: the first fault of the text, the first
//!   key whose part has as many as it takes, or a key whose write failed. That last part got no
//!   more than a front of the key, and its count of failures rose.
//! - All that was taken but for a last part of at most 8,192 bytes holds no fault. Want of memory
//!   is told only before such a part is read, and a failed read only behind good lines: then the
//!   parts were given the keys of all that was taken.
//! - `split_file`: the same of a key file, of which a refused one gives no part a key.
//!   `split_keys`: of keys in memory. `split_source`: of either.
//! - `try_source`: its fault is that the input cannot be read, of which nothing was taken.
//! - `Part`: `new`, `count` and `into_writer` are exact; `begin` leaves room for the header, and
//!   takes 1,000,000 keys. `whole_part`: the header of as many keys as a part of a list has, and
//!   these keys, are its key file.
//! - `counting_parts`: parts that take as many keys as can be counted. So a plan stops at no limit.
//! - `write_plan`: a line for each part, its number in three digits and its count, and one with all
//!   keys and the number of parts that would do; or a front of these where the writer failed.
//! - `parts_for`, `parts_chosen`: how many parts are to be made of so many keys, or of an input of
//!   so many bytes, exactly.
//! - `PartFiles::split`: where it answers `Ok`, the input was read to its end and gave a whole
//!   list; as many files as there are parts were made, made whole, and then put at their places.
//!   Else each that was made was removed again. Files are put at their places only once all are
//!   whole.
//! - Its fault is the first of the list, or its first key of which the part has 1,000,000 others,
//!   or one whose write failed. No byte is read where a file cannot be made; where one cannot be
//!   written, none or all.
//! - `is_name` is exact.
//! - `fixed_numbers`: how long a name is, and by how many keys and bytes parts are chosen.
//!
//! Of real files no contract says which bytes stand there, nor that the system removes one.
#![tactic(auto)]

mod fault;
mod files;
mod laws;
mod name;
mod number;
mod part;
mod plan;
mod source;
mod splitting;

pub use fault::{FilesFault, SplitFault};
pub use files::PartFiles;
pub use laws::{fixed_numbers, whole_part};
pub use name::{MAX_NAME_BYTES, is_name};
pub use number::{KEYS_A_PART, parts_chosen, parts_for};
pub use part::Part;
pub use plan::{counting_parts, write_plan};
pub use source::{Source, split_source, try_source};
pub use splitting::{split_file, split_keys, split_text};
