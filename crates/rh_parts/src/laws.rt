//! Laws of parts. They do nothing when they run.

ghost use Rattle.std.specs.Prelude.{◌≡◌, ◌<◌, ℕ, List};
ghost use Rattle.std.specs.List.{Contains};
ghost use Rattle.rh_parts.specs.Parts.{in_part, part_of};
ghost use Rattle.rh_parts.specs.declared.part.TheConstants.{MAX_PARTS, MULTIPLIER};

/// Each key stands in one part that there is, and of a list that is split each key stands in its
/// part and in no other one.
pub fn one_part_each(parts: u64)
    requires { 0 < parts }
    ensures within { (k : ℕ) → part_of parts k < parts }
    ensures there { (keys : List ℕ) (k : ℕ) → Contains keys k →
        Contains (in_part parts (part_of parts k) keys) k }
    ensures no_other { (keys : List ℕ) (part k : ℕ) → Contains (in_part parts part keys) k →
        (Contains keys k) × (part_of parts k ≡ part) }
{
    let _ = parts;
}

/// The numbers that the split of a list fixes, on each machine.
pub fn fixed_numbers()
    ensures parts { MAX_PARTS ≡ 1000 }
    ensures multiplier { MULTIPLIER ≡ 15485907386658061715 }
{}
