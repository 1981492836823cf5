//! Laws of key files. They do nothing when they run.

ghost use Rattle.std.specs.Prelude.{◌≡◌, [], Ok};
ghost use Rattle.rh_key_files.specs.KeyFile.{KeyFile, IsKeyFile, IsLongKeyFile, LongKeyFile};
ghost use Rattle.rh_key_files.specs.Reading.{file_keys, long_file_keys};
ghost use Rattle.rh_layout.specs.declared.limits.TheConstants.{MAX_KEYS};

use crate::version::Version;

/// What is spelled as a key file is read to its keys, with no fault and nothing
/// left, and what is read so is spelled as one.
pub fn one_spelling(bytes: &[u8], keys: &[u64])
    ensures given { (version : Version) → KeyFile version bytes.now keys.now →
        file_keys bytes.now ≡ Ok (keys.now, []) }
    ensures read { file_keys bytes.now ≡ Ok (keys.now, []) → IsKeyFile bytes.now keys.now }
{}

/// The same of any number of keys.
pub fn any_spelling(bytes: &[u8], keys: &[u64])
    ensures given { (version : Version) → LongKeyFile version bytes.now keys.now →
        long_file_keys bytes.now ≡ Ok (keys.now, []) }
    ensures read { long_file_keys bytes.now ≡ Ok (keys.now, []) → IsLongKeyFile bytes.now keys.now }
{}

/// The number that the format fixes. The magics stand in the grammar.
pub fn fixed_numbers()
    ensures { MAX_KEYS ≡ 1000000 }
{}
