//! The versions of the key file.

ghost use Rattle.std.specs.Prelude.{◌≡◌, ◌↔◌, ◌++◌, ℕ, List, Err, IfSome, IsNone, IsTrue, Ok};
ghost use Rattle.rh_key_files.specs.KeyFile.{magic, least_key, IsKeyIn};
ghost use Rattle.rh_key_files.specs.declared.fault.KeyFault.{KeyFault};
ghost use Rattle.rh_key_files.specs.Reading.{is_key_in, version_at};

use rh_layout::MAX_KEY;

/// The versions of the key file: the second allows key 0.
#[derive(Clone, Copy, Debug, PartialEq, Eq)]
pub enum Version {
    First,
    Second,
}

impl Version {
    /// The first four bytes.
    pub(crate) fn magic(self) -> [u8; 4]
        ensures { result ≡ magic self }
    {
        match self {
            Version::First => *b"RHK1",
            Version::Second => *b"RHK2",
        }
    }

    /// The version whose first four bytes these are.
    pub fn of_magic(four: [u8; 4]) -> Option<Version>
        ensures some { IfSome result (λ version. (rest : List ℕ) →
            version_at (four ++ rest) ≡ Ok (version, rest)) }
        ensures none { IsNone result → (rest : List ℕ) →
            (fault : KeyFault) × (version_at (four ++ rest) ≡ Err fault) }
    {
        if four == Version::First.magic() {
            return Some(Version::First);
        }
        if four == Version::Second.magic() {
            return Some(Version::Second);
        }
        None
    }

    fn least_key(self) -> u64
        ensures { result ≡ least_key self }
    {
        match self {
            Version::First => 1,
            Version::Second => 0,
        }
    }

    /// Whether a file of this version may hold the key.
    pub(crate) fn allows(self, key: u64) -> bool
        ensures { result ≡ is_key_in self key }
    {
        self.least_key() <= key && key <= MAX_KEY
    }
}
