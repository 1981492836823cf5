//! The step from a key to what a cell holds of it, and back.

ghost use Rattle.std.specs.Prelude.{◌≡◌, ◌+◌, ◌≤◌, MatchOption};
ghost use Rattle.rh_layout.specs.Key.{IsKey, cell_of};

/// What a cell holds of a key: 0 is an empty cell, so the key plus 1.
pub fn cell_of(key: u64) -> u64
    requires { IsKey key }
    ensures { result ≡ cell_of key }
{
    key + 1
}

/// The key that a cell holds, or `None` where the cell is empty.
pub fn key_in(cell: u64) -> Option<u64>
    ensures { MatchOption result (cell ≡ 0) (λ k. cell ≡ cell_of k) }
{
    cell.checked_sub(1)
}
