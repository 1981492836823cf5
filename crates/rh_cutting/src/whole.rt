//! Whole lists, cut into parts.

ghost use Rattle.std.specs.Prelude.{map};
ghost use Rattle.rh_cutting.specs.Borders.{IsCutOf};

use crate::borders::Borders;
use crate::parts::Parts;

/// Lists in pieces, each piece in parts, and the borders of these.
#[derive(Drop)]
pub struct CutLists {
    pub borders: Borders,
    pub lists: Vec<Vec<Parts>>,
    /// How many keys they have, repeats counted.
    pub keys: usize,
    ghost of_lists: { ∥ IsCutOf borders.values.items (map (λ l. l.items) lists.items) ∥₁ },
}

impl CutLists {
    ghost use Rattle.std.specs.Prelude.{◌≡◌, ◌+◌, length};

    /// How many parts there are.
    pub fn parts(&self) -> usize
        ensures { result + 1 ≡ length self.now.borders.values.items }
    {
        self.borders.values.len() - 1
    }
}
