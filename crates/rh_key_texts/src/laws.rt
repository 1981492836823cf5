//! The laws of packing and listing, as functions that do nothing.

ghost use Rattle.std.specs.Prelude.{◌≡◌, ℕ, List, Option, Ok, Result, Some, []};
ghost use Rattle.rh_key_files.specs.KeyFile.{KeyFile};
ghost use Rattle.rh_key_files.specs.declared.version.Version.TheVariants.{Second};
ghost use Rattle.rh_numbers.specs.Grammar.{IsKeyText};
ghost use Rattle.rh_numbers.specs.Writing.{text_of};
ghost use Rattle.rh_key_texts.specs.Pack.{Packs, packed};
ghost use Rattle.rh_key_texts.specs.List.{Lists, listed};

/// What was packed from a text of keys is listed as the text of the same keys, which is a text of
/// exactly these.
pub fn listed_again(text: &[u8], file: &[u8], again: &[u8])
    ensures { (keys : List ℕ) (left rest : Option (List ℕ)) →
        IsKeyText text.now keys →
        Packs (Some text.now) left (Some []) (Some file.now) packed →
        Lists (Some file.now) rest (Some []) (Some again.now) listed →
        (again.now ≡ text_of keys) × IsKeyText again.now keys }
{}

/// What was listed of a key file of the second version is packed to the same bytes.
pub fn packed_again(file: &[u8], text: &[u8], again: &[u8])
    ensures { (keys : List ℕ) (left rest : Option (List ℕ)) →
        KeyFile Second file.now keys →
        Lists (Some file.now) left (Some []) (Some text.now) listed →
        Packs (Some text.now) rest (Some []) (Some again.now) packed →
        again.now ≡ file.now }
{}
