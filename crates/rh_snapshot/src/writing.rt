//! Snapshots, written.

ghost use Rattle.std.specs.Prelude.{◌≡◌, ◌++◌, ◌<◌, ◌^◌, ℕ, [], List, Ok, OnErr, OnOk};
ghost use Rattle.std.specs.FinSet as set;
ghost use Rattle.rh_layout.specs.Key.{IsBits};
ghost use Rattle.rh_layout.specs.Layout.{IsLayout, keys_of};
ghost use Rattle.rh_snapshot.specs.Snapshot.{snap_header_of, spelled_header, spelled_numbers, snap_spelling};
ghost use Rattle.rh_snapshot.specs.Snapshot.{table_of};
ghost use Rattle.rh_snapshot.specs.Reading.{file_table};
ghost use Rattle.rh_snapshot.specs.declared.version.Version.TheVariants.{Second};

use crate::version::Version;
use byteorder::{BigEndian, ByteOrder};
use sha2::{Digest, Sha256};
use std::alloc::{AllocError, Global};

/// Appends a snapshot of the table, of the second version. `read_snapshot` takes it back to the
/// same cells. Where a growth of the vector was refused, the vector is as it was.
/// The allocator says that it takes memory: the vector has it already, and grows by it.
pub fn write_snapshot(
    _alloc: Global,
    bits: u32,
    cells: &[u64],
    out: &mut Vec<u8>,
) -> Result<(), AllocError>
    requires layout { IsLayout bits cells.now }
    requires free { set.len (keys_of cells.now) < 2 ^ bits }
    ensures appended { OnOk result
        (out.new.items ≡ out.old.items ++ snap_spelling Second bits cells.now) }
    ensures refused { OnErr result (out.new.items ≡ out.old.items) }
    ensures read_back { file_table (snap_spelling Second bits cells.now)
        ≡ Ok (table_of Second bits cells.now, []) }
{
    let before = out.len();
    let outcome = put_snapshot(bits, cells, out);
    if outcome.is_err() {
        out.truncate(before);
    }
    outcome
}

/// Appends the text and its seal.
fn put_snapshot(bits: u32, cells: &[u64], out: &mut Vec<u8>) -> Result<(), AllocError>
    requires { IsBits bits }
    ensures appended { OnOk result
        (out.new.items ≡ out.old.items ++ snap_spelling Second bits cells.now) }
    ensures longer { (part : List ℕ) × (out.new.items ≡ out.old.items ++ part) }
{
    let before = out.len();
    put_header(bits, cells, out)?;
    put_cells(cells, out)?;
    let seal = Sha256::digest(&out[before..]);
    out.extend_from_slice(&seal)
}

fn put_header(bits: u32, cells: &[u64], out: &mut Vec<u8>) -> Result<(), AllocError>
    requires { IsBits bits }
    ensures appended { OnOk result (out.new.items
        ≡ out.old.items ++ spelled_header (snap_header_of Second bits cells.now)) }
    ensures longer { (part : List ℕ) × (out.new.items ≡ out.old.items ++ part) }
{
    let mut count = [0; 8];
    BigEndian::write_u64(
        &mut count,
        cells.iter().filter(|cell| **cell != 0).count() as u64,
    );
    out.extend_from_slice(&Version::Second.magic())?;
    out.push(bits as u8)?;
    out.extend_from_slice(&count)
}

fn put_cells(cells: &[u64], out: &mut Vec<u8>) -> Result<(), AllocError>
    ensures appended { OnOk result (out.new.items ≡ out.old.items ++ spelled_numbers cells.now) }
    ensures longer { (part : List ℕ) × (out.new.items ≡ out.old.items ++ part) }
{
    for cell in cells {
        let mut eight = [0; 8];
        BigEndian::write_u64(&mut eight, *cell);
        out.extend_from_slice(&eight)?;
    }
    Ok(())
}
