//! Tables as text.

ghost use Rattle.std.specs.Prelude.{◌<◌, ◌≤◌, ◌^◌, length};
ghost use Rattle.rh_layout.specs.Key.{IsBits};
ghost use Rattle.rh_layout.specs.Layout.{IsLayout};
ghost use Rattle.rh_bytes.specs.Counting.{Emits};
ghost use Rattle.rh_dump.specs.Dump.{line_of, head_of, lines_from, dump_text};

use itoa::Buffer;
use rh_bytes::{Counted, WriteFault, write_text, write_texts};
use rh_layout::{dist, key_in};
use std::io::Write;

/// Writes the line of a key and the cell that holds it.
fn put_line<W: Write>(
    writer: &mut Counted<W>,
    bits: u32,
    cell: usize,
    key: u64,
) -> Result<(), WriteFault>
    requires bits { IsBits bits }
    requires cell { cell < 2 ^ bits }
    ensures { Emits W.contents writer.old writer.new (line_of bits cell key) result }
{
    let (mut first, mut second, mut third) = (Buffer::new(), Buffer::new(), Buffer::new());
    let cell_digits = first.format(cell).as_bytes();
    let key_digits = second.format(key).as_bytes();
    let dist_digits = third.format(dist(bits, cell, key)).as_bytes();
    write_texts(
        writer,
        &[cell_digits, b" ", key_digits, b" ", dist_digits, b"\n"],
    )
}

fn put_head<W: Write>(writer: &mut Counted<W>, bits: u32, held: usize) -> Result<(), WriteFault>
    ensures { Emits W.contents writer.old writer.new (head_of bits held) result }
{
    let (mut first, mut second) = (Buffer::new(), Buffer::new());
    let bits_digits = first.format(bits).as_bytes();
    let held_digits = second.format(held).as_bytes();
    write_texts(writer, &[b"table ", bits_digits, b" ", held_digits, b"\n"])
}

/// Writes the line of each full cell, in rising cell order.
fn put_cells<W: Write>(writer: &mut Counted<W>, bits: u32, cells: &[u64]) -> Result<(), WriteFault>
    requires bits { IsBits bits }
    requires length { length cells.now ≤ 2 ^ bits }
    ensures { Emits W.contents writer.old writer.new (lines_from bits 0 cells.now) result }
{
    for (cell, value) in cells.iter().enumerate() {
        if let Some(key) = key_in(*value) {
            put_line(writer, bits, cell, key)?;
        }
    }
    Ok(())
}

/// Writes a table as text: `table BITS COUNT`, a line `CELL KEY DIST` for each full cell, and
/// `end`, each ended by LF. It takes no memory. Each number and each space is a write of its own,
/// so give it a writer with a buffer.
pub fn write_dump<W: Write>(
    bits: u32,
    cells: &[u64],
    writer: &mut Counted<W>,
) -> Result<(), WriteFault>
    requires { IsLayout bits cells.now }
    ensures { Emits W.contents writer.old writer.new (dump_text bits cells.now) result }
{
    let held = cells
        .iter()
        .filter(|value| key_in(**value).is_some())
        .count();
    put_head(writer, bits, held)?;
    put_cells(writer, bits, cells)?;
    write_text(writer, b"end\n")
}
