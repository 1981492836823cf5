//! A table that threads share.

ghost use Rattle.std.specs.Prelude.{◌≡◌};
ghost use Rattle.rh_words.specs.Parts.{word_count};

use rh_rule::{RowRule, Sitter, TableKey};
use rh_words::Shape;
use std::alloc::Global;
use std::collections::LinkedList;

/// A seat of it, whose view is the list of what is kept of its workers. It has no bytes.
pub type Inner = atomic_table::Seat<(), LinkedList<Sitter>>;

/// A table under the rule of rows, and its shape, by which each worker finds the words.
#[derive(Drop)]
pub struct Table {
    pub inner: atomic_table::Table<(), LinkedList<Sitter>, TableKey, RowRule, Global>,
    pub shape: Shape,
    pub ghost same: { inner.shared.key.shape ≡ shape },
    pub ghost sized: { inner.shared.table_id.words ≡ word_count shape },
    pub ghost bare: { inner.shared.table_id.slots ≡ 0 },
}
