//! The keys of a key file of any number of keys, in pieces.

ghost use Rattle.std.specs.Prelude.{◌≡◌, ◌<◌, ◌+◌, ◌*◌, ◌^◌, min, length, All, IfOk, IsErrOf};
ghost use Rattle.std.specs.List.{flat_map};
ghost use Rattle.rh_layout.specs.Key.{IsKey};
ghost use Rattle.rh_bytes.specs.Counting.{inner_of};
ghost use Rattle.rh_bytes.specs.Input.{fault_of};
ghost use Rattle.rh_key_files.specs.Limits.{TakesBehindMagic, TakesOfLongFile, keys_taken};
ghost use Rattle.rh_key_files.specs.Parts.{ReadsList, ReadsWholeList};
ghost use Rattle.rh_key_files.specs.Reading.{CutShort, IsLongReadFrom, header_behind, keys_at};
ghost use Rattle.rh_key_files.specs.Reading.{keys_behind, long_file_keys, long_header_at};

use crate::batch;
use crate::fault::KeyFault;
use crate::parts::read_version;
use crate::version::Version;
use rh_bytes::{Counted, Nobody, Progress, read_end, read_number};
use std::alloc::Global;
use std::io::Read;

/// The most keys of a piece. So much room is taken before its keys come.
pub const PIECE_KEYS: u64 = 65_536;

/// The keys of a key file of any number of keys, in its order. They come in pieces, none of which
/// is longer than `PIECE_KEYS`: so no more memory is taken than for the keys that came, and a
/// piece. `Memory` comes only where a growth was refused, and `TooMany` never.
pub fn read_long_keys<R: Read>(
    alloc: Global,
    reader: &mut Counted<R>,
) -> Result<Vec<Vec<u64>>, KeyFault>
    ensures list { ReadsWholeList R.remaining reader.old reader.new long_header_at long_file_keys
        TakesOfLongFile (λ pieces. flat_map (λ piece. piece.items) pieces.items) result }
    ensures spelled { IfOk result (λ pieces. IsLongReadFrom
        (R.remaining (inner_of reader.old)) (R.remaining (inner_of reader.new))
        (flat_map (λ piece. piece.items) pieces.items)) }
    ensures in_range { IfOk result (λ pieces. All (λ piece. All IsKey piece.items) pieces.items) }
{
    let version = read_version(reader)?;
    read_pieces(alloc, version, reader, &mut Nobody)
}

/// The same, where the magic was read before. After each piece it is told how many bytes that took.
pub fn read_pieces<R: Read, P: Progress>(
    alloc: Global,
    version: Version,
    reader: &mut Counted<R>,
    progress: &mut P,
) -> Result<Vec<Vec<u64>>, KeyFault>
    ensures list { ReadsWholeList R.remaining reader.old reader.new (header_behind version)
        (keys_behind version) TakesBehindMagic
        (λ pieces. flat_map (λ piece. piece.items) pieces.items) result }
    ensures in_range { IfOk result (λ pieces. All (λ piece. All IsKey piece.items) pieces.items) }
{
    let count = read_number::<_, KeyFault>(reader)?;
    let mut pieces = Vec::new(alloc);
    let mut taken = 0;
    while taken < count {
        let piece = read_piece(alloc, version, taken, count - taken, reader)?;
        taken += piece.len() as u64;
        progress.read(8 * piece.len());
        let Ok(()) = pieces.push(piece) else {
            return Err(KeyFault::Memory);
        };
    }
    read_end::<_, KeyFault>(reader)?;
    Ok(pieces)
}

/// The next piece of keys, of which the first has this index and so many are left.
fn read_piece<R: Read>(
    alloc: Global,
    version: Version,
    index: u64,
    left: u64,
    reader: &mut Counted<R>,
) -> Result<Vec<u64>, KeyFault>
    requires { index + left < 2 ^ 64 }
    ensures reads { ReadsList R.remaining reader.old reader.new
        (keys_at version index (min left PIECE_KEYS)) (λ piece. piece.items)
        (8 * keys_taken index (min left PIECE_KEYS) (fault_of result)) result }
    ensures many { IfOk result (λ piece. length piece.items ≡ min left PIECE_KEYS) }
    ensures in_range { IfOk result (λ piece. All IsKey piece.items) }
    ensures tested { IsErrOf result KeyFault.Read → CutShort (R.remaining (inner_of reader.old))
        (R.remaining (inner_of reader.new)) (keys_at version index (min left PIECE_KEYS)) }
    ensures memory { IsErrOf result KeyFault.Memory → reader.new ≡ reader.old }
{
    let many = left.min(PIECE_KEYS) as usize;
    let Ok(mut piece) = vec![in alloc; 0u64; many] else {
        return Err(KeyFault::Memory);
    };
    batch::read_keys(reader, version, index, &mut piece)?;
    Ok(piece)
}
