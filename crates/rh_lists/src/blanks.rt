//! Lines of a text that are made blank.

ghost use Rattle.std.specs.Prelude.{◌≡◌, ◌++◌, ◌∷◌, ℕ, List};
ghost use Rattle.rh_lists.specs.Blanks.{blanked};

/// Puts spaces in place of the next lines that are to be passed by.
pub(crate) fn blank(lines: &mut u64, bytes: &mut [u8])
    ensures { (rest : List ℕ) →
        blanked lines.old (bytes.old ++ rest) ≡ bytes.new ++ blanked lines.new rest }
{
    // Most lists have none, and then their bytes are not gone through.
    if *lines == 0 {
        return;
    }
    for b in bytes.iter_mut() {
        *b = blank_byte(lines, *b);
    }
}

/// What stands in place of the next byte.
fn blank_byte(lines: &mut u64, b: u8) -> u8
    ensures { (rest : List ℕ) →
        blanked lines.old (b ∷ rest) ≡ result ∷ blanked lines.new rest }
{
    if *lines == 0 {
        return b;
    }
    if b != b'\n' {
        return b' ';
    }
    *lines -= 1;
    b
}
