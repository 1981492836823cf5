//! The beginning of a key file.

ghost use Rattle.std.specs.Prelude.{◌≡◌, ◌≢◌, Err, IfErr, IfOk, IsErrOf, option_map};
ghost use Rattle.std.specs.Borrow.{sem, RestsIfErr};
ghost use Rattle.rh_bytes.specs.contracts.counted.Counted.{the_row};
ghost use Rattle.rh_bytes.specs.Counting.{Rose, failures_of, inner_of};
ghost use Rattle.rh_bytes.specs.Taking.{TakesAtMost};
ghost use Rattle.rh_bytes.specs.Input.{fault_of};
ghost use Rattle.rh_key_files.specs.Limits.{header_taken};
ghost use Rattle.rh_key_files.specs.Source.{FaultComes, keys_of_file};
ghost use Rattle.rh_key_files.specs.Stream.{IsOpened, ReadsHeader, lender_of};

use crate::fault::KeyFault;
use crate::header::Header;
use crate::parts::read_header;
use crate::stream::{KeyStream, State};
use rh_bytes::Counted;
use std::io::Read;

/// Reads the header: the version and the number of keys.
#[tactic(auto, using(crate::proofs::Coming::at_the_beginning))]
pub fn open_keys<R: Read>(reader: &mut Counted<R>) -> Result<KeyStream<'_, R>, KeyFault>
    ensures header { ReadsHeader R.remaining (inner_of reader.old) result }
    ensures opened { IfOk result (λ s. IsOpened R.remaining reader.old s) }
    ensures fault { IfErr result (λ e.
        FaultComes (option_map keys_of_file (R.remaining (inner_of reader.old))) e) }
    ensures no_memory { IsErrOf result KeyFault.Memory → ⊥ }

    // The stream holds the reader; a refusal gives it back.
    ensures same_reference { IfOk result (λ s. lender_of s ≡ reader.entry.ghost_name) }
    ensures* refused { sem 𝓛 (RestsIfErr (the_row R.row) reader.entry lender_of result (λ new.
        (IsErrOf result KeyFault.Read → Rose (failures_of reader.old) (failures_of new))
        × (result ≢ Err KeyFault.Read → failures_of new ≡ failures_of reader.old)
        × TakesAtMost (R.remaining (inner_of reader.old)) (R.remaining (inner_of new))
        (header_taken (fault_of result)))) }
{
    let Header { version, count } = read_header(reader)?;
    Ok(KeyStream {
        reader,
        version,
        count,
        taken: 0,
        state: State::Open,
    })
}
