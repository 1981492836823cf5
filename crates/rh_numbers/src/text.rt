//! A whole text of numbers.

ghost use Rattle.std.specs.Prelude.{◌≤◌, length, All, IfOk, IsErrOf, OnErr};
ghost use Rattle.rh_layout.specs.Key.{IsKey};
ghost use Rattle.rh_layout.specs.declared.limits.TheConstants.{MAX_KEYS};
ghost use Rattle.rh_bytes.specs.Counting.{Counts, inner_of};
ghost use Rattle.rh_bytes.specs.Input.{fault_of};
ghost use Rattle.rh_numbers.specs.Reading.{IsTextReadFrom, NoTextReadFailed, ReadsText};
ghost use Rattle.rh_numbers.specs.Reading.{TakesFew, TakesFewParts, TakesToFault};

use crate::fault::TextFault;
use crate::limits::MAX_READS;
use crate::reading::Reading;
use rh_bytes::Counted;
use std::alloc::Global;
use std::io::Read;

/// The keys of a text, in its order. No line is kept in memory: only the keys take some, and
/// `Memory` comes only where a growth was refused. That is so before a part of the text is read.
pub fn read_numbers<R: Read>(alloc: Global, reader: &mut Counted<R>) -> Result<Vec<u64>, TextFault>
    ensures known { ReadsText (R.remaining (inner_of reader.old))
        (R.remaining (inner_of reader.new))
        (λ v. v.items) result }
    ensures spelled { IfOk result (λ v. IsTextReadFrom
        (R.remaining (inner_of reader.old)) (R.remaining (inner_of reader.new)) v.items) }
    ensures in_range { IfOk result (λ v. All IsKey v.items) }
    ensures few { IfOk result (λ v. length v.items ≤ MAX_KEYS) }
    ensures takes { OnErr result (TakesToFault (R.remaining (inner_of reader.old))
        (R.remaining (inner_of reader.new))) }
    ensures tested { IsErrOf result TextFault.Read →
        TakesFew (R.remaining (inner_of reader.old)) (R.remaining (inner_of reader.new)) }
    ensures memory { IsErrOf result TextFault.Memory →
        TakesFewParts (R.remaining (inner_of reader.old)) (R.remaining (inner_of reader.new)) }
    ensures counts { Counts (IsErrOf result TextFault.Read) (NoTextReadFailed (fault_of result))
        reader.old reader.new }
{
    let mut reading = Reading::new(alloc);
    for _ in 0..MAX_READS {
        if !reading.read_part(reader)? {
            return Ok(reading.into_keys());
        }
    }
    Err(TextFault::TooLong)
}
