//! The streams of a command, each behind a buffer, and how it ends.

ghost use Rattle.std.specs.Prelude.{◌≡◌, ◌⊎◌, [], IfOk, IfErr};
ghost use Rattle.std.specs.Io.Buffered.{reader_buffer, reader_capacity, reader_inner};
ghost use Rattle.std.specs.Io.Buffered.{writer_buffer, writer_capacity, writer_inner};
ghost use Rattle.rh_streams.specs.Finishing.{Finishes, status_by};

use rh_cli::{ProgramFault, Status};
use std::alloc::Global;
use std::fs::{self, Files};
use std::io::{BufReader, BufWriter, ErrorKind, Read, Write};

/// The file at the path, opened to be read.
pub fn open<F: Files>(files: &F, path: &str) -> Result<F::File, ProgramFault>
    ensures { IfErr result (λ f. (f ≡ ProgramFault.Memory) ⊎ (f ≡ ProgramFault.Open)) }
{
    match fs::open(files, path) {
        Ok(file) => Ok(file),
        Err(error) => Err(match error.kind() {
            ErrorKind::OutOfMemory => ProgramFault::Memory,
            _ => ProgramFault::Open,
        }),
    }
}

/// The reader behind an empty buffer of 8,192 bytes.
pub fn buffered_reader<R: Read + Drop>(
    alloc: Global,
    reader: R,
) -> Result<BufReader<R>, ProgramFault>
    ensures inner { IfOk result (λ b. reader_inner b ≡ reader) }
    ensures empty { IfOk result (λ b. reader_buffer b ≡ []) }
    ensures capacity { IfOk result (λ b. reader_capacity b ≡ 8192) }
    ensures fault { IfErr result (λ fault. fault ≡ ProgramFault.Memory) }
{
    match BufReader::new(alloc, reader) {
        Ok(buffered) => Ok(buffered),
        Err(_) => Err(ProgramFault::Memory),
    }
}

/// The writer behind an empty buffer of 8,192 bytes.
pub fn buffered_writer<W: Write + Drop>(
    alloc: Global,
    writer: W,
) -> Result<BufWriter<W>, ProgramFault>
    ensures inner { IfOk result (λ b. writer_inner b ≡ writer) }
    ensures empty { IfOk result (λ b. writer_buffer b ≡ []) }
    ensures capacity { IfOk result (λ b. writer_capacity b ≡ 8192) }
    ensures fault { IfErr result (λ fault. fault ≡ ProgramFault.Memory) }
{
    match BufWriter::new(alloc, writer) {
        Ok(buffered) => Ok(buffered),
        Err(_) => Err(ProgramFault::Memory),
    }
}

/// How a command ends whose work was told so. What the buffer still holds is written out, whatever
/// was told; that this failed is told as `unwritten`, behind a fault of the work.
pub fn finish<F: Drop, W: Write + Drop>(
    told: Result<(), F>,
    writer: BufWriter<W>,
    unwritten: F,
) -> (Result<Status, F>, BufWriter<W>)
    ensures { Finishes W.contents told unwritten writer result }
{
    let mut writer = writer;
    let written = match writer.flush() {
        Ok(()) => Ok(()),
        Err(_) => Err(unwritten),
    };
    (status_of(told, written), writer)
}

/// How a command ends whose work came to the one, and the writing out of what it had left in a
/// buffer to the other.
fn status_of<E: Drop>(told: Result<(), E>, written: Result<(), E>) -> Result<Status, E>
    ensures { result ≡ status_by told written }
{
    match told {
        Ok(()) => match written {
            Ok(()) => Ok(Status::Done),
            Err(fault) => Err(fault),
        },
        Err(fault) => Err(fault),
    }
}
