//! Where the files of a script stand: in memory (`MemShelf`), or real ones (`FileShelf`).
//!
//! `rh_operations`, `rh_set_program`, `rh_splitting`, `rh_key_texts`, `rh_lists` and
//! `rh_keys_program` stand on it.
//!
//! Proved:
//!
//! - `MemShelf` is a map from paths to bytes.
//! - `FileShelf` is real files, of which no contract tells the bytes. Each answer that a file could
//!   not be opened or written has raised its count, and an answer without a fault leaves it.
//! - Want of memory raises the count of either.
//! - A file is put where the system finds a plain file or nothing (`is_free`). That nothing else is
//!   replaced is tested.
//! - `CountedShelf` counts the readers that it is shown of which a read failed, and nothing else.
//!   Each `Shelf` may stand in its place (`Lender`), as one that counts none.
#![tactic(auto)]

mod beside;
mod file;
mod lender;
mod memory;
mod place;
mod shelf;

pub use beside::{BESIDE, create_beside};
pub use file::FileShelf;
pub use lender::{CountedShelf, Lender};
pub use memory::MemShelf;
pub use shelf::{Shelf, ShelfFault};
