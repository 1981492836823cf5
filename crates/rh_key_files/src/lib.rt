//! Key files.
//!
//! `rh_runner`, `rh_operations`, `rh_commands`, `rh_key_texts`, `rh_splitting` and `rh_lists` stand
//! on it. It hands on what `rh_bytes` has for its callers.
//!
//! ```text
//! let mut writer = Counted::new(Vec::new(alloc));
//! write_keys(&[17, 1, 9], &mut writer)?;
//! let file = writer.into_inner();
//! let keys = read_keys(alloc, &mut Counted::new(file.as_slice()))?;    // 17, 1, 9
//! ```
//!
//! Proved:
//!
//! - `read_keys`, `open_keys`, `KeyStream`: a key file is read to its list, in one piece or in
//!   batches. Other bytes are refused by the first fault in them, unless a read fails first, or
//!   memory for the keys of a good header.
//! - A stream tells a key out of range that was read whole before a failed read, and not that read:
//!   where it tells `Read`, the bytes that it took hold no fault but their early end. So do
//!   `read_keys`, `read_long_keys` and `read_pieces`, and the latter two before they tell want of
//!   memory: behind a header that can be read, no key that they took is out of range.
//! - After its end or a fault a stream answers the same and reads nothing. It never tells want of
//!   memory.
//! - Of a reader whose bytes are known each takes no more than its answer rests on, and never more
//!   than 8,000,013 bytes. Another magic takes four bytes, and too many keys the header. A key out
//!   of range takes its part of 4,096 keys, a file that goes on one byte more.
//! - `read_long_keys`: a key file of any number of keys is read to its list, in pieces of 65,536
//!   keys, or refused by the first fault in it. It takes no more bytes than its answer rests on
//!   either: of a key out of range its part of 4,096 keys, and where memory is refused no byte
//!   behind the keys. `read_pieces` does so behind the magic, where `Version::of_magic` tells the
//!   version.
//! - `any_spelling`: what the grammar spells of any number of keys is read, and what is read is
//!   spelled so.
//! - `one_spelling`: what the grammar spells is read, and what is read is spelled so.
//! - `write_keys`: a key file, which `one_spelling` takes back to its list. `write_header`: what
//!   stands before its keys.
//! - `HeldKeys`: keys in memory, which never fail.
//! - `fixed_numbers`: a key file has at most 1,000,000 keys.
#![tactic(auto)]

mod batch;
mod encoding;
mod fault;
mod header;
mod held_keys;
mod keys;
mod laws;
mod numbers;
mod open;
mod parts;
mod pieces;
mod source;
mod stream;
mod version;

pub use batch::PART_KEYS;
pub use encoding::{append_keys, write_header, write_keys};
pub use fault::KeyFault;
pub use held_keys::HeldKeys;
pub use keys::read_keys;
pub use laws::{any_spelling, fixed_numbers, one_spelling};
pub use numbers::decode_numbers;
pub use open::open_keys;
pub use pieces::{PIECE_KEYS, read_long_keys, read_pieces};
pub use rh_bytes::{Counted, WriteFault, fill, write_texts};
pub use rh_layout::MAX_KEYS;
pub use source::KeySource;
pub use stream::KeyStream;
pub use version::Version;
