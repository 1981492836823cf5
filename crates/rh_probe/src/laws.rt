//! Laws of scans on a layout. They do nothing when they run.

ghost use Rattle.std.specs.Prelude.{◌≡◌, ℕ, ◌^◌, IsTrue, false};
ghost use Rattle.std.specs.FinSet.{contains};
ghost use Rattle.rh_layout.specs.Key.{IsKey};
ghost use Rattle.rh_layout.specs.Order.{home_of};
ghost use Rattle.rh_layout.specs.Layout.{Keys, Layout};
ghost use Rattle.rh_probe.specs.Look.{Finds};
ghost use Rattle.rh_probe.specs.declared.answer.Look.TheVariants.{Here, Goes};
ghost use Rattle.rh_probe.specs.Segment.{IsFront};

/// On a layout, `Here` means that the key is held, and `Goes` that it is not.
pub fn look_tells(bits: u32, cells: &[u64], key: u64, seen: &[u64])
    ensures here { (S : Keys) (i : ℕ) → Layout cells.now bits S →
        IsFront (2 ^ bits) (home_of bits key) cells.now seen.now →
        Finds bits key seen.now (Here i) → IsTrue (contains S key) }
    ensures goes { (S : Keys) (i : ℕ) → Layout cells.now bits S →
        IsFront (2 ^ bits) (home_of bits key) cells.now seen.now →
        Finds bits key seen.now (Goes i) → contains S key ≡ false }
{
    let _ = bits;
    let _ = cells;
    let _ = key;
    let _ = seen;
}
