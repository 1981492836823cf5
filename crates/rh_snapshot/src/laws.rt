//! Laws of snapshots. They do nothing when they run.

ghost use Rattle.std.specs.Prelude.{◌≡◌, ℕ, List, [], Ok};
ghost use Rattle.rh_snapshot.specs.Snapshot.{IsSnapshot, SnapshotFile, Table, table_of};
ghost use Rattle.rh_snapshot.specs.Reading.{file_table};
ghost use Rattle.rh_snapshot.specs.declared.version.TheConstants.{FIRST_MAX_BITS};

use crate::version::Version;

/// What is spelled as a snapshot is read to its table, with no fault and nothing left, and what is
/// read so is spelled as one.
pub fn one_snapshot(bytes: &[u8])
    ensures given { (version : Version) (bits : ℕ) (numbers : List ℕ) →
        SnapshotFile version bytes.now bits numbers →
        file_table bytes.now ≡ Ok (table_of version bits numbers, []) }
    ensures read { (table : Table) → file_table bytes.now ≡ Ok (table, []) →
        IsSnapshot bytes.now table }
{}

/// The number that the format fixes. The magics stand in the grammar.
pub fn fixed_numbers()
    ensures { FIRST_MAX_BITS ≡ 16 }
{}
