//! Files of keys and of tables, whole: key files, which are read at once or in batches, dumps and
//! sealed snapshots. Beside them stand the devices by which tests let a read, a write or a shelf
//! fail.
//!
//! ```text
//! let mut file = Counted::new(Vec::new(alloc));                 // or any other `Write`
//! write_keys(&[17, 9, 4], &mut file)?;                          // a key file
//! let keys = read_keys(alloc, &mut Counted::new(Cursor::new(file.into_inner())))?;
//! ```
//!
//! It hands on what `rh_key_files`, `rh_dump`, `rh_snapshot` and `rh_faulty` do, with their
//! contracts. What is read is what the file says or its first fault, unless a read fails or memory
//! is refused first. A key file or a snapshot that was written is read back. `rh_planner` hands on
//! what carries out scripts over such files.
#![tactic(auto)]

pub use rh_dump::write_dump;
pub use rh_faulty::{FaultyReader, FaultyShelf, FaultyWriter, Refusal, ShelfFailure};
pub use rh_key_files::{
    Counted, HeldKeys, KeyFault, KeySource, KeyStream, MAX_KEYS, Version, WriteFault, open_keys,
    read_keys, write_keys,
};
pub use rh_snapshot::{SnapFault, Snapshot, read_snapshot, write_snapshot};
