//! Why a run that reads lists ends early, in the words that the user is told.

use crate::marked::Marked;
use rh_cli::ProgramFault;
use rh_expressions::SelectFault;
use rh_key_files::KeyFault;
use rh_numbers::{Excerpt, TextFault};
use rh_shelf::ShelfFault;
use std::fmt::{self, Display, Formatter, Write};
use thiserror::Error;

/// Why a run ends early, in the words that the user is told.
#[derive(Debug, Drop, Error)]
pub enum Fault {
    #[error(transparent)]
    Program(#[from] ProgramFault),
    /// What was read there has this fault.
    #[error("{place}{fault}{reason}{found}")]
    Input {
        place: Place,
        fault: InputFault,
        reason: Reason,
        found: Found,
    },
    #[error("standard input is named twice")]
    InputTwice,
    /// Of one list all but `union` would write its numbers.
    #[error("one FILE alone: name two at least, - is standard input; union sorts one")]
    OneList,
    #[error("--count and --packed are asked for at once")]
    TwoOutputs,
    /// In how many of so many lists a number shall stand is none of the numbers that it can be.
    #[error("K is a number from 1 to {lists}, the number of lists")]
    Least {
        lists: usize,
    },
    /// Of a number it is known of 64 lists whether it stands there.
    #[error("more than 64 lists: intersect, union, subtract and xor take them")]
    TooMany,
    /// A word that is to name a list for `select` has this fault.
    #[error("{word}: {fault}")]
    Word {
        word: String,
        fault: SelectFault,
    },
    /// The expression of `select` has this fault.
    #[error("{fault}{marked}")]
    Expression {
        fault: SelectFault,
        marked: Marked,
    },
}

/// What is wrong with a list that was read.
#[derive(Clone, Copy, Debug, PartialEq, Eq, Error)]
pub enum InputFault {
    /// Never `ShelfFault::Write`.
    #[error(transparent)]
    Open(ShelfFault),
    #[error(transparent)]
    Text(TextFault),
    #[error(transparent)]
    Keys(KeyFault),
}

/// What was read.
#[derive(Debug, Drop)]
pub enum Place {
    /// Standard input, which was not named.
    Input,
    /// The file at the path, or standard input, which was named `-`.
    File(String),
}

impl Display for Place {
    fn fmt<W: Write>(&self, f: &mut Formatter<W>) -> fmt::Result {
        match self {
            Place::Input => Ok(()),
            Place::File(path) => write!(f, "{path}: "),
        }
    }
}

/// What stands in a line that is no number, as far as it can be looked at again.
#[derive(Clone, Copy, Debug, Error)]
pub enum Found {
    /// Nothing is told: the fault is none of a line, or the file has changed.
    #[error("")]
    Nothing,
    #[error(": {0}")]
    Line(Excerpt),
    /// The first line begins with a name.
    #[error(": {0}; --skip 1 passes a heading by")]
    Heading(Excerpt),
    /// It came through a pipe, or on standard input.
    #[error("; it is read once: sed -n {line}p shows the line")]
    Once { line: u64 },
    /// The file begins as a gzip'd one.
    #[error(": gzip'd, try <(gzip -dc FILE)")]
    Zipped,
    #[error(": a snapshot, see rhkeys list --snapshot")]
    Snapshot,
    /// The file begins with a mark of UTF-16.
    #[error(": UTF-16, try <(iconv -f UTF-16 -t UTF-8 FILE)")]
    Wide,
}

/// What the system says of a file that was not opened or read.
#[derive(Clone, Copy, Debug, PartialEq, Eq, Error)]
pub enum Reason {
    #[error("")]
    Unknown,
    #[error(": no such file")]
    NoFile,
    #[error(": permission denied")]
    NoRight,
    #[error(": is a directory")]
    Folder,
}
