//! Into how many parts a list is split.

ghost use Rattle.std.specs.Prelude.{◌≡◌, ◌≤◌, ◌<◌};
ghost use Rattle.rh_parts.specs.declared.part.TheConstants.{MAX_PARTS};
ghost use Rattle.rh_splitting.specs.Number.{parts_chosen, parts_for};

use crate::source::Source;
use rh_parts::MAX_PARTS;

/// How many keys a part is to have: about three quarters of those that the largest table is made
/// for, so that a list of each part, and some keys more, fit it.
pub const KEYS_A_PART: u64 = 150_000;

/// How many bytes a key of a text takes, at the least: a million numbers that differ take as many
/// with their line feeds.
const BYTES_A_LINE: u64 = 7;

/// How many bytes a key of a key file takes.
const BYTES_A_KEY: u64 = 8;

/// The least number of parts of which each has at most `KEYS_A_PART` of so many keys, where they
/// are as large as one another.
pub fn parts_for(keys: u128) -> u128
    ensures { result ≡ parts_for keys }
{
    keys.saturating_sub(1) / u128::from(KEYS_A_PART) + 1
}

/// How many parts are made of an input of so many bytes.
pub fn parts_chosen(source: Source, bytes: u64) -> u64
    ensures chosen { result ≡ parts_chosen source bytes }
    ensures some { 0 < result }
    ensures few { result ≤ MAX_PARTS }
{
    let keys = match source {
        Source::Text => bytes / BYTES_A_LINE,
        Source::Keys => bytes / BYTES_A_KEY,
    };
    parts_for(u128::from(keys)).min(u128::from(MAX_PARTS)) as u64
}
