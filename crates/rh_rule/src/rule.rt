//! The rule of a table of words that several workers share.

ghost use Rattle.std.specs.Prelude.{List};
ghost use base.Fml.{ftrue};
ghost use Rattle.rh_words.specs.View.{View};
ghost use Rattle.rh_rule.specs.Traces.{Touch};

use atomic_table::TableRule;
use rh_words::Shape;
use std::collections::LinkedList;
use std::marker::Model;
use std::snapshot::Snapshot;

/// What a table is made with: its shape, and for contracts alone the words of its cells.
#[derive(Drop)]
pub struct TableKey {
    pub shape: Shape,
    pub cells: Snapshot<Vec<u64>>,
}

/// What a seat has of one worker: what that has done and knows, and the steps that it made in this
/// round, the newest first. It takes no bytes.
pub struct Sitter {
    pub ghost view: { View },
    pub ghost trace: { List Touch },
}

impl Model for Sitter {
    ghost also_owns = { λ _. ftrue };
}

impl Drop for Sitter {
    fn drop(self) {
        let Self {} = self;
    }
}

unsafe impl Send for Sitter {}

/// The rule of a table whose seats have views of what is kept of their workers. It has no slots.
pub struct RowRule;

impl TableRule<(), LinkedList<Sitter>, TableKey> for RowRule {
    ghost use Rattle.rh_rule.specs.Seats.{RuleHolds, first_view};

    ghost holds = { λ o. RuleHolds o.shape };

    ghost first = { λ o. first_view o.shape o.cells.value.items };
}
