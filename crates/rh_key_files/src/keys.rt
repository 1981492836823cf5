//! All keys of a key file.

ghost use Rattle.std.specs.Prelude.{All, IfOk};
ghost use Rattle.rh_layout.specs.Key.{IsKey};
ghost use Rattle.rh_bytes.specs.Counting.{inner_of};
ghost use Rattle.rh_key_files.specs.Limits.{TakesOfFile};
ghost use Rattle.rh_key_files.specs.Parts.{ReadsWholeList};
ghost use Rattle.rh_key_files.specs.Reading.{IsReadFrom, file_keys, header_at};

use crate::batch;
use crate::fault::KeyFault;
use crate::parts::read_header;
use rh_bytes::{Counted, read_end};
use std::alloc::Global;
use std::io::Read;

/// The keys of a key file, in its order. The memory for them is taken at once, after the header and
/// before a key is read, and `Memory` comes only where that growth was refused.
pub fn read_keys<R: Read>(alloc: Global, reader: &mut Counted<R>) -> Result<Vec<u64>, KeyFault>
    ensures list { ReadsWholeList R.remaining reader.old reader.new header_at file_keys TakesOfFile
        (λ v. v.items) result }
    ensures spelled { IfOk result (λ v. IsReadFrom
        (R.remaining (inner_of reader.old)) (R.remaining (inner_of reader.new)) v.items) }
    ensures in_range { IfOk result (λ v. All IsKey v.items) }
{
    let header = read_header(reader)?;
    let Ok(mut keys) = vec![in alloc; 0u64; header.count as usize] else {
        return Err(KeyFault::Memory);
    };
    batch::read_keys(reader, header.version, 0, &mut keys)?;
    read_end::<_, KeyFault>(reader)?;
    Ok(keys)
}
