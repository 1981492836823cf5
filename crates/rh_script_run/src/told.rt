//! What commands have to report.

ghost use Rattle.std.specs.Prelude.{◌≡◌, List, ℕ};
ghost use Rattle.rh_bytes.specs.Counting.{Emits};
ghost use Rattle.rh_report.specs.Account.{Says};
ghost use Rattle.rh_operations.specs.Actions.{telling};
ghost use Rattle.rh_script_run.specs.Told.{account_of, report_table, told_as};

use rh_bytes::{Counted, WriteFault};
use rh_dump::write_dump;
use rh_edit::SeqSet;
use rh_operations::{Done, KeyList};
use rh_report::{Account, Table, write_account, write_asked};
use std::io::Write;

/// What a command that was carried out has to report.
#[derive(Drop)]
pub(crate) enum Told<'a> {
    Line(Account<'a>),
    Answers { name: &'a str, answers: Vec<bool> },
    /// The table that is held.
    Dump,
}

/// What a command on a list, which left this set, has to report.
pub(crate) fn told_of<'a>(set: &SeqSet, list: &KeyList<'_>, name: &'a str, done: Done) -> Told<'a>
    ensures { told_as set.now result
        ≡ account_of name.now list.now.count set.now (telling done) }
{
    match done {
        Done::Changed(change) => {
            let read = list.count;
            let table = table_of(set);
            Told::Line(Account::Changed {
                name,
                read,
                change,
                table,
            })
        }
        Done::Asked(answers) => Told::Answers { name, answers },
    }
}

pub(crate) fn table_of(set: &SeqSet) -> Table
    ensures { result ≡ report_table set.now }
{
    let held = set.len() as u64;
    let bits = set.bits();
    Table { held, bits }
}

/// Writes the report of a command that left this set.
pub(crate) fn tell<W: Write>(
    writer: &mut Counted<W>,
    set: &SeqSet,
    told: &Told<'_>,
) -> Result<(), WriteFault>
    ensures { (text : List ℕ) × Says (told_as set.now told.now) text ×
        Emits W.contents writer.old writer.new text result }
{
    match told {
        Told::Line(account) => write_account(writer, account),
        Told::Answers { name, answers } => write_asked(writer, name, answers),
        Told::Dump => write_dump(set.bits(), set.cells(), writer),
    }
}
