//! What a command does with the keys of its list.

/// What becomes of the held keys by those of a list.
#[derive(Clone, Copy)]
pub enum Action {
    /// The keys of the list are held too.
    Add,
    /// They are held no more.
    Drop,
    /// Of the keys that are held, those of the list stay.
    Keep,
    /// Those that are held are held no more, and the others are.
    Flip,
    /// Nothing: they are looked up.
    Ask,
}
