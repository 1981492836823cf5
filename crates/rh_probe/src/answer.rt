//! What a scan for a key tells.

/// What consecutive cells from a key's home on tell of the key. Offsets count from the first
/// of them.
#[derive(Clone, Copy, Debug, PartialEq, Eq)]
pub enum Look {
    /// The key stands at this offset.
    Here(usize),
    /// The key is not held, and this is where it goes.
    Goes(usize),
    /// No offset decides: more cells have to be seen.
    More,
}
