//! Key files, dumps, snapshots and test devices.

ghost use Rattle.rh_layout.specs.Layout.{HasFree, IsLayout};
ghost use Rattle.std.specs.Prelude.{length, ◌<◌};

use crate::layout::has_room;
use rh_files::{
    Counted, FaultyReader, FaultyWriter, KeyFault, KeyStream, Refusal, SnapFault, Snapshot,
    WriteFault,
};
use std::alloc::{AllocError, Global};
use std::io::{AsBytes, Read, Write};

pub fn read_keys<R: Read>(alloc: Global, reader: &mut Counted<R>) -> Result<Vec<u64>, KeyFault> {
    rh_files::read_keys(alloc, reader)
}

pub fn write_dump<W: Write>(
    bits: u32,
    cells: &[u64],
    writer: &mut Counted<W>,
) -> Result<(), WriteFault>
    requires { IsLayout bits cells.now }
{
    rh_files::write_dump(bits, cells, writer)
}

pub fn write_snapshot(
    _alloc: Global,
    bits: u32,
    cells: &[u64],
    out: &mut Vec<u8>,
) -> Result<(), AllocError>
    requires layout { IsLayout bits cells.now }
    requires free { HasFree cells.now }
{
    has_room(bits, cells);
    rh_files::write_snapshot(_alloc, bits, cells, out)
}

pub fn read_snapshot<R: Read>(
    alloc: Global,
    reader: &mut Counted<R>,
) -> Result<Snapshot, SnapFault> {
    rh_files::read_snapshot(alloc, reader)
}

pub fn open_keys<R: Read>(reader: &mut Counted<R>) -> Result<KeyStream<'_, R>, KeyFault> {
    rh_files::open_keys(reader)
}

pub fn key_stream_count<R: Read>(key_stream: &KeyStream<'_, R>) -> u64 {
    key_stream.count()
}

pub fn key_stream_next_batch<R: Read>(
    key_stream: &mut KeyStream<'_, R>,
    batch: &mut [u64],
) -> Result<usize, KeyFault>
    requires { 0 < length batch.old }
{
    key_stream.next_batch(batch)
}

pub fn counted_new<T>(inner: T) -> Counted<T> {
    Counted::new(inner)
}

pub fn counted_failures<T>(counted: &Counted<T>) -> u64 {
    counted.failures()
}

pub fn faulty_reader_new<T: AsBytes>(bytes: T, fails_at: u64) -> FaultyReader<T> {
    FaultyReader::new(bytes, fails_at)
}

pub fn faulty_writer_new(alloc: Global, fails_at: u64, refusal: Refusal) -> FaultyWriter {
    FaultyWriter::new(alloc, fails_at, refusal)
}

pub fn variants(keys: KeyFault, snapshot: SnapFault, write: WriteFault) {
    match keys {
        KeyFault::NotKeys
        | KeyFault::Short
        | KeyFault::TooMany
        | KeyFault::Long
        | KeyFault::Read
        | KeyFault::Memory => {}
        KeyFault::BadKey { index } => {
            let _: u64 = index;
        }
    }
    match snapshot {
        SnapFault::NotSnapshot
        | SnapFault::Short
        | SnapFault::BadBits
        | SnapFault::Damaged
        | SnapFault::NotALayout
        | SnapFault::Long
        | SnapFault::Read
        | SnapFault::Memory => {}
    }
    match write {
        WriteFault::Write => {}
    }
}

pub fn fields(bits: u32, count: u64, cells: Vec<u64>, seal: [u8; 32]) -> Snapshot {
    Snapshot {
        bits,
        count,
        cells,
        seal,
    }
}
