//! The part in which a key stands.

ghost use Rattle.std.specs.Prelude.{◌≡◌, ◌<◌, ◌≤◌};
ghost use Rattle.rh_parts.specs.Parts.{mixed, part_of};
ghost use Rattle.rh_parts.specs.declared.part.TheConstants.{MAX_PARTS};

/// The most parts that keys are split into.
pub const MAX_PARTS: u64 = 1_000;

// That of degski's mixer of 64 bits.
const MULTIPLIER: u64 = 0xD6E8_FEB8_6659_FD93;

/// The part of so many in which the key stands, counted from 0.
///
/// It goes by a hash of the key, so that parts are about as large as one another, whatever the keys
/// are. The home of a key in a table is the high bits of another product, so that the keys of a
/// part stand all over their table.
#[tactic(auto, using(crate::proofs::Parts::is_part), unfolding(crate::specs::Parts::part_of))]
pub fn part_of(parts: u64, key: u64) -> u64
    requires some { 0 < parts }
    requires few { parts ≤ MAX_PARTS }
    ensures part { result ≡ part_of parts key }
    ensures within { result < parts }
{
    (mix(key) % (1 << 32) * parts) >> 32
}

/// The key, of which each bit depends on many others.
#[tactic(auto, unfolding(crate::specs::Parts::mixed))]
fn mix(key: u64) -> u64
    ensures { result ≡ mixed key }
{
    let spread = (key ^ (key >> 32)).wrapping_mul(MULTIPLIER);
    spread ^ (spread >> 32)
}
