//! Laws of splits. They do nothing when they run.

ghost use Rattle.std.specs.Prelude.{◌≡◌, ◌≤◌, ◌++◌, ℕ, List, All, length};
ghost use Rattle.rh_layout.specs.Key.{IsKey};
ghost use Rattle.rh_key_files.specs.KeyFile.{KeyFile, header, spelled_keys};
ghost use Rattle.rh_layout.specs.declared.limits.TheConstants.{MAX_KEYS};
ghost use Rattle.rh_key_files.specs.declared.version.Version.TheVariants.{Second};
ghost use Rattle.rh_parts.specs.Parts.{in_part};
ghost use Rattle.rh_shelf.specs.declared.beside.TheConstants.{NAMES};
ghost use Rattle.rh_splitting.specs.declared.name.TheConstants.{MAX_NAME_BYTES};
ghost use Rattle.rh_splitting.specs.declared.number.TheConstants.{BYTES_A_KEY, BYTES_A_LINE, KEYS_A_PART};

/// The header of as many keys as a part of a list has, and these keys, are the key file of the
/// part.
pub fn whole_part(parts: u64, part: u64)
    ensures { (keys : List ℕ) → All IsKey keys →
        length (in_part parts part keys) ≤ MAX_KEYS →
        KeyFile Second (header Second (length (in_part parts part keys))
        ++ spelled_keys (in_part parts part keys)) (in_part parts part keys) }
{
    let _ = (parts, part);
}

/// The numbers of a split: how long a name may be, how many names beside a part's place are tried,
/// and by how many keys and bytes parts are chosen.
pub fn fixed_numbers()
    ensures names { (MAX_NAME_BYTES ≡ 200) × (NAMES ≡ 10000) }
    ensures chosen { (KEYS_A_PART ≡ 150000) × (BYTES_A_LINE ≡ 7) × (BYTES_A_KEY ≡ 8) }
{}
