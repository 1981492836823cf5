//! What a scan from a key's home on leads to.

/// What the insertion of a key asks for.
#[derive(Clone, Copy, Debug, PartialEq, Eq)]
pub enum Insertion {
    /// Nothing: the key is there.
    Held,
    /// An act of so many entries, which puts the key in.
    PutsIn(usize),
    /// More cells have to be seen.
    More,
}

/// What the removal of a key asks for.
#[derive(Clone, Copy, Debug, PartialEq, Eq)]
pub enum Removal {
    /// An act of so many entries, which takes the key out.
    TakesOut(usize),
    /// An act of so many entries, which changes nothing and shows that the key is not there.
    ShowsAbsent(usize),
    /// More cells have to be seen.
    More,
}
