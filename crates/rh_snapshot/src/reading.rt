//! A whole snapshot, read and tested.

ghost use Rattle.std.specs.Prelude.{IfOk};
ghost use Rattle.rh_bytes.specs.Counting.{inner_of};
ghost use Rattle.rh_snapshot.specs.Parts.{ReadsSnapshot};
ghost use Rattle.rh_snapshot.specs.Reading.{IsSnapReadFrom, table_as};
ghost use Rattle.rh_snapshot.specs.Snapshot.{IsLaidOut};

use crate::cells::table_in;
use crate::fault::SnapFault;
use crate::parts::{read_header, read_numbers, read_seal};
use crate::snapshot::Snapshot;
use rh_bytes::{Counted, read_end};
use std::alloc::Global;
use std::io::Read;

/// The table of a snapshot of either version. The memory for its cells is taken at once, after the
/// header and before a cell is read, and `Memory` comes only where that growth was refused. The
/// bytes are tested as they come; the seal, then the cells and then the end are tested once the
/// seal was read.
pub fn read_snapshot<R: Read>(alloc: Global, reader: &mut Counted<R>) -> Result<Snapshot, SnapFault>
    ensures reads { ReadsSnapshot R.remaining reader.old reader.new result }
    ensures spelled { IfOk result (λ s. IsSnapReadFrom
        (R.remaining (inner_of reader.old)) (R.remaining (inner_of reader.new)) (table_as s)) }
    ensures laid_out { IfOk result (λ s. IsLaidOut (table_as s)) }
{
    let header = read_header(reader)?;
    let (numbers, digest) = read_numbers(alloc, reader, header)?;
    let seal = read_seal(reader)?;
    if digest != seal {
        return Err(SnapFault::Damaged);
    }
    let Some(snapshot) = table_in(header, numbers, seal) else {
        return Err(SnapFault::NotALayout);
    };
    read_end::<_, SnapFault>(reader)?;
    Ok(snapshot)
}
