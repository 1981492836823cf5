//! Numbers of a file, made the cells of a table and tested.

ghost use Rattle.std.specs.Prelude.{◌≡◌, ◌<◌, ℕ, IsTrue, MatchOption, false, length, map};
ghost use Rattle.std.specs.Prelude.{slice_index, true, IfSome, IsNone, IsSome};
ghost use Rattle.rh_layout.specs.Key.{IsBits};
ghost use Rattle.rh_layout.specs.declared.limits.TheConstants.{MAX_KEY};
ghost use Rattle.rh_snapshot.specs.Snapshot.{cell_of_first, cells_as, table_with};
ghost use Rattle.rh_snapshot.specs.Reading.{is_table, table_as};

use crate::header::Header;
use crate::snapshot::Snapshot;
use crate::version::Version;
use rh_layout::{MAX_KEY, cell_of, is_layout};

/// What a cell holds where a first version has this number, or `None` where it stands for no key.
fn cell_of_first(number: u64) -> Option<u64>
    ensures { MatchOption result (MAX_KEY < number) (λ cell. cell ≡ cell_of_first number) }
{
    if number > MAX_KEY {
        return None;
    }
    if number == 0 {
        return Some(0);
    }
    Some(cell_of(number))
}

/// Makes the numbers of a first version cells, in place. False: one stands for no key, and some may
/// be cells already.
/// They stay as they were read until the seal was tested: before that a number that stands for no
/// key is a damaged byte like any other.
fn make_cells(numbers: &mut [u64]) -> bool
    ensures made { IsTrue result → numbers.new ≡ map cell_of_first numbers.old }
    ensures refused { result ≡ false → (c : ℕ) × (c < length numbers.old)
        × (MAX_KEY < slice_index numbers.old c) }
{
    for number in numbers.iter_mut() {
        let Some(cell) = cell_of_first(*number) else {
            return false;
        };
        *number = cell;
    }
    true
}

/// Whether the numbers are those of a table with a free cell, as the header says. Where they are,
/// they are made its cells.
fn make_table(header: Header, numbers: &mut [u64]) -> bool
    requires { IsBits header.bits }
    ensures test { result ≡ is_table header numbers.old }
    ensures cells { IsTrue result → numbers.new ≡ cells_as header.version numbers.old }
{
    let count = numbers.iter().filter(|number| **number != 0).count() as u64;
    if count != header.count || count >= 1 << header.bits {
        return false;
    }
    let made = match header.version {
        Version::First => make_cells(numbers),
        Version::Second => true,
    };
    made && is_layout(header.bits, numbers)
}

/// The table of the numbers, where they are those of one.
pub(crate) fn table_in(header: Header, mut numbers: Vec<u64>, seal: [u8; 32]) -> Option<Snapshot>
    requires { IsBits header.bits }
    ensures refused { IsNone result → is_table header numbers.items ≡ false }
    ensures made { IsSome result → is_table header numbers.items ≡ true }
    ensures table { IfSome result (λ s. table_as s ≡ table_with header numbers.items seal) }
{
    if !make_table(header, &mut numbers) {
        return None;
    }
    Some(Snapshot {
        bits: header.bits,
        count: header.count,
        cells: numbers,
        seal,
    })
}
