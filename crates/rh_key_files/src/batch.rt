//! Keys, read in parts.

ghost use Rattle.std.specs.Prelude.{◌≡◌, ◌≤◌, ◌<◌, ◌+◌, ◌*◌, ◌^◌, ℕ, min, length, take, drop};
ghost use Rattle.std.specs.Prelude.{All, IfOk, IsErrOf, IsNone, OnOk};
ghost use Rattle.std.specs.List.{position_from};
ghost use Rattle.rh_layout.specs.Key.{IsKey};
ghost use Rattle.rh_bytes.specs.Counting.{inner_of};
ghost use Rattle.rh_key_files.specs.Reading.{CutShort, batch_at, front_of, is_refused};
ghost use Rattle.rh_key_files.specs.Limits.{batch_bytes, keys_taken};
ghost use Rattle.rh_key_files.specs.Parts.{ReadsList, ReadsRun};
ghost use Rattle.rh_bytes.specs.Input.{always, fault_of};

use crate::fault::KeyFault;
use crate::numbers::decode_numbers;
use crate::version::Version;
use rh_bytes::{Counted, Filled, fill_front, read_end};
use std::io::Read;

/// How many keys are read at once: their bytes are a part, which lies on the stack.
pub const PART_KEYS: usize = 4_096;

const PART_BYTES: usize = 8 * PART_KEYS;

/// The index of the first key that the version does not allow, where the first of all has this one.
fn first_refused(version: Version, index: u64, keys: &[u64]) -> Option<u64>
    requires { index + length keys.now < 2 ^ 64 }
    ensures first { result ≡ position_from (is_refused version) index keys.now }
    ensures in_range { IsNone result → All IsKey keys.now }
{
    let mut at = index;
    for key in keys {
        if !version.allows(*key) {
            return Some(at);
        }
        at += 1;
    }
    None
}

/// Fills the slice with keys, of which the first has this index, from one part of the file. Where
/// the file ends within the part or a read fails, the whole keys before that are tested first.
fn read_part<R: Read>(
    reader: &mut Counted<R>,
    version: Version,
    index: u64,
    part: &mut [u8],
    keys: &mut [u64],
) -> Result<(), KeyFault>
    requires room { length part.old ≡ 8 * length keys.old }
    requires small { index + length keys.old < 2 ^ 64 }
    ensures run { ReadsRun R.remaining reader.old reader.new version index (length keys.new)
        (always keys.new) (8 * length keys.new) result }
    ensures in_range { OnOk result (All IsKey keys.new) }
{
    let Filled { count, failed } = fill_front(reader, part);
    decode_numbers(part, keys);
    if let Some(index) = first_refused(version, index, &keys[..count / 8]) {
        return Err(KeyFault::BadKey { index });
    }
    if failed {
        return Err(KeyFault::Read);
    }
    if count < part.len() {
        return Err(KeyFault::Short);
    }
    Ok(())
}

/// Fills the slice with keys, of which the first has this index.
pub(crate) fn read_keys<R: Read>(
    reader: &mut Counted<R>,
    version: Version,
    index: u64,
    batch: &mut [u64],
) -> Result<(), KeyFault>
    requires { index + length batch.old < 2 ^ 64 }
    ensures run { ReadsRun R.remaining reader.old reader.new version index (length batch.new)
        (always batch.new) (8 * keys_taken index (length batch.new) (fault_of result)) result }
    ensures in_range { OnOk result (All IsKey batch.new) }
{
    let mut part = [0u8; PART_BYTES];
    let mut done = 0;
    while done < batch.len() {
        let many = (batch.len() - done).min(PART_KEYS);
        let bytes = &mut part[..8 * many];
        let keys = &mut batch[done..done + many];
        read_part(reader, version, index + done as u64, bytes, keys)?;
        done += many;
    }
    Ok(())
}

/// The next keys, of which the first has this index and so many are left, and then the end.
pub(crate) fn read_batch<R: Read>(
    reader: &mut Counted<R>,
    version: Version,
    index: u64,
    left: u64,
    batch: &mut [u64],
) -> Result<usize, KeyFault>
    requires { index + left < 2 ^ 64 }
    ensures reads { ReadsList R.remaining reader.old reader.new
        (batch_at version index left (length batch.new)) (front_of batch.new)
        (batch_bytes index left (length batch.new) (fault_of result)) result }
    ensures tested { IsErrOf result KeyFault.Read → 0 < left →
        CutShort (R.remaining (inner_of reader.old)) (R.remaining (inner_of reader.new))
        (batch_at version index left (length batch.new)) }
    ensures rest { IfOk result (λ n. drop n batch.new ≡ drop n batch.old) }
    ensures many { IfOk result (λ n. n ≡ min (length batch.new) left) }
    ensures in_range { IfOk result (λ n. All IsKey (take n batch.new)) }
    ensures no_memory { IsErrOf result KeyFault.Memory → ⊥ }
{
    if left == 0 {
        read_end::<_, KeyFault>(reader)?;
        return Ok(0);
    }
    let many = batch.len().min(left as usize);
    read_keys(reader, version, index, &mut batch[..many])?;
    Ok(many)
}
