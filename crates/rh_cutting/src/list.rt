//! A list of keys in memory.

ghost use Rattle.std.specs.Prelude.{All};
ghost use Rattle.rh_layout.specs.Key.{IsKey};

use std::alloc::{AllocError, Global};

/// A list of keys in pieces, so that it is never copied into one.
#[derive(Drop)]
pub struct KeyList {
    pieces: Vec<Vec<u64>>,
    ghost in_range: { All (λ piece. All IsKey piece.items) pieces.items },
}

impl KeyList {
    ghost use Rattle.std.specs.Prelude.{◌≡◌, ◌++◌, [], All, OnOk};
    ghost use Rattle.std.specs.List.{flat_map};
    ghost use Rattle.rh_layout.specs.Key.{IsKey};
    ghost use Rattle.rh_cutting.specs.Pieces.{keys_in};

    /// The list of no key.
    pub fn new(alloc: Global) -> KeyList
        ensures { keys_in result ≡ [] }
    {
        KeyList {
            pieces: Vec::new(alloc),
        }
    }

    /// The list of these pieces.
    pub fn of(pieces: Vec<Vec<u64>>) -> KeyList
        requires { All (λ piece. All IsKey piece.items) pieces.items }
        ensures { keys_in result ≡ flat_map (λ piece. piece.items) pieces.items }
    {
        KeyList { pieces }
    }

    /// Adds a piece at the end.
    pub fn push(&mut self, piece: Vec<u64>) -> Result<(), AllocError>
        requires { All IsKey piece.items }
        ensures { OnOk result (keys_in self.new ≡ keys_in self.old ++ piece.items) }
    {
        self.pieces.push(piece)?;
        Ok(())
    }

    /// Adds the other list at the end.
    pub fn append(&mut self, other: KeyList) -> Result<(), AllocError>
        ensures { OnOk result (keys_in self.new ≡ keys_in self.old ++ keys_in other) }
    {
        let KeyList { mut pieces } = other;
        self.pieces.append(&mut pieces)?;
        Ok(())
    }

    /// The pieces of the list, one after the other.
    pub fn pieces(&self) -> &[Vec<u64>]
        ensures keys { flat_map (λ piece. piece.items) result.now ≡ keys_in self.now }
        ensures in_range { All (λ piece. All IsKey piece.items) result.now }
    {
        &self.pieces
    }
}
