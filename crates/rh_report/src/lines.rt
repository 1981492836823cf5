//! Reports of one line. They take no memory, and each number and each word is a write of its own,
//! so give them a writer with a buffer.

ghost use Rattle.std.specs.Prelude.{◌++◌, List, ℕ, decimal};
ghost use Rattle.rh_bytes.specs.Counting.{Emits};
ghost use Rattle.rh_report.specs.Account.{Says, account_as, change_as};
ghost use Rattle.rh_report.specs.Texts.{front_text, line_text, numbers_as, table_numbers};

use itoa::Buffer;
use rh_bytes::{Counted, WriteFault, write_texts};
use std::io::Write;

/// How many keys are held, and the bits of their table.
#[derive(Clone, Copy)]
pub struct Table {
    pub held: u64,
    pub bits: u32,
}

/// How a command changed the keys that are held by those of its list.
#[derive(Clone, Copy)]
pub enum Change {
    /// So many were not held before.
    Added(u64),
    /// So many were held.
    Dropped(u64),
    /// So many positions of the list have a key that stays.
    Kept(u64),
    Flipped { removed: u64, added: u64 },
}

/// What a command has to report on one line. `read` is the length of its list, and `table` is what
/// the command left.
#[derive(Clone, Copy)]
pub enum Account<'a> {
    /// `use NAME COUNT`: a list was read.
    Used {
        name: &'a str,
        count: u64,
    },
    /// `save NAME COUNT`: the keys that are held became a list.
    Saved {
        name: &'a str,
        count: u64,
    },
    /// `add NAME read R added A held H bits B`, and so `drop`, `keep` and `flip` with their counts.
    Changed {
        name: &'a str,
        read: u64,
        change: Change,
        table: Table,
    },
    /// `clear`.
    Cleared,
    /// `snapshot PATH held H bits B`: the table was put under the path.
    Sealed {
        path: &'a str,
        table: Table,
    },
    /// `restore PATH held H bits B`: the table is that of the snapshot now.
    Restored {
        path: &'a str,
        table: Table,
    },
}

/// Writes the line that tells the account.
pub fn write_account<W: Write>(
    writer: &mut Counted<W>,
    account: &Account<'_>,
) -> Result<(), WriteFault>
    ensures { (text : List ℕ) × Says (account_as account.now) text ×
        Emits W.contents writer.old writer.new text result }
{
    match *account {
        Account::Used { name, count } => write_line(writer, "use ", name, &[(" ", count)]),
        Account::Saved { name, count } => write_line(writer, "save ", name, &[(" ", count)]),
        Account::Changed {
            name,
            read,
            change,
            table,
        } => write_change(writer, name, read, change, table),
        Account::Cleared => write_line(writer, "clear", "", &[]),
        Account::Sealed { path, table } => write_table_line(writer, "snapshot ", path, &[], table),
        Account::Restored { path, table } => write_table_line(writer, "restore ", path, &[], table),
    }
}

fn write_change<W: Write>(
    writer: &mut Counted<W>,
    name: &str,
    read: u64,
    change: Change,
    table: Table,
) -> Result<(), WriteFault>
    ensures { (text : List ℕ) × Says (change_as name.now read change table) text ×
        Emits W.contents writer.old writer.new text result }
{
    let read = (" read ", read);
    match change {
        Change::Added(added) => {
            write_table_line(writer, "add ", name, &[read, (" added ", added)], table)
        }
        Change::Dropped(removed) => {
            let numbers = [read, (" removed ", removed)];
            write_table_line(writer, "drop ", name, &numbers, table)
        }
        Change::Kept(found) => {
            write_table_line(writer, "keep ", name, &[read, (" found ", found)], table)
        }
        Change::Flipped { removed, added } => {
            let numbers = [read, (" removed ", removed), (" added ", added)];
            write_table_line(writer, "flip ", name, &numbers, table)
        }
    }
}

/// Writes a line of a word, a name and numbers with their labels.
pub(crate) fn write_line<W: Write>(
    writer: &mut Counted<W>,
    word: &str,
    name: &str,
    numbers: &[(&str, u64)],
) -> Result<(), WriteFault>
    ensures { Emits W.contents writer.old writer.new
        (line_text word.now name.now (numbers_as numbers.now)) result }
{
    write_front(writer, word, name, numbers)?;
    write_texts(writer, &[b"\n"])
}

/// Writes such a line that ends by the table.
fn write_table_line<W: Write>(
    writer: &mut Counted<W>,
    word: &str,
    name: &str,
    numbers: &[(&str, u64)],
    table: Table,
) -> Result<(), WriteFault>
    ensures { Emits W.contents writer.old writer.new
        (line_text word.now name.now
        (numbers_as numbers.now ++ table_numbers table.held table.bits)) result }
{
    write_front(writer, word, name, numbers)?;
    write_line(
        writer,
        "",
        "",
        &[(" held ", table.held), (" bits ", table.bits.into())],
    )
}

/// Writes a word, a name and numbers with their labels.
fn write_front<W: Write>(
    writer: &mut Counted<W>,
    word: &str,
    name: &str,
    numbers: &[(&str, u64)],
) -> Result<(), WriteFault>
    ensures { Emits W.contents writer.old writer.new
        (front_text word.now name.now (numbers_as numbers.now)) result }
{
    write_texts(writer, &[word.as_bytes(), name.as_bytes()])?;
    for (label, number) in numbers {
        write_number(writer, label, *number)?;
    }
    Ok(())
}

fn write_number<W: Write>(
    writer: &mut Counted<W>,
    label: &str,
    number: u64,
) -> Result<(), WriteFault>
    ensures { Emits W.contents writer.old writer.new (label.now ++ decimal number) result }
{
    let mut buffer = Buffer::new();
    let digits = buffer.format(number).as_bytes();
    write_texts(writer, &[label.as_bytes(), digits])
}
