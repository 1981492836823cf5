//! The law of sizes. It does nothing when it runs.

ghost use Rattle.std.specs.Prelude.{◌≡◌, ℕ, Ok, Err};
ghost use Rattle.rh_grow.specs.Growth.{Fits, IsCapacity};
ghost use Rattle.rh_layout.specs.Key.{IsBits};
ghost use Rattle.rh_layout.specs.declared.limits.TheConstants.{MAX_BITS};
ghost use Rattle.rh_operations.specs.Size.{size_for};
ghost use Rattle.rh_operations.specs.declared.cause.Cause.TheVariants.{TooLarge};

#[tactic(auto, using(crate::proofs::SizeLemmas::sized, crate::proofs::SizeLemmas::not_sized))]
/// The size of a table for so many keys is one, whether it is told as the least that they fit or
/// found by trying one after the other.
pub fn one_size(bits: u32)
    requires { IsBits bits }
    ensures found { (n size : ℕ) → IsCapacity bits n size → size_for bits n ≡ Ok size }
    ensures none { (n : ℕ) → ¬ Fits MAX_BITS n → size_for bits n ≡ Err TooLarge }
{
    let _ = bits;
}
