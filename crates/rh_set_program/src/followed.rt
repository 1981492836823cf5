//! The files of a script, of which it is told how much was read.

ghost use Rattle.rh_set_program.specs.Followed.{followed};

use rh_cli::{ProgressLine, size_of};
use rh_script::{Command, Script, Step};
use rh_shelf::{Shelf, ShelfFault};
use rh_streams::Followed;
use std::alloc::Global;
use std::cell::RefCell;
use std::fs::Files;
use std::io::Write;
use std::time::Clock;

/// A shelf of whose files it is told how much was read, and for which line of a script: the commands
/// that read a file do so once, one after the other.
#[derive(Drop)]
pub(crate) struct FollowedShelf<'a, 'b, S, R, E> {
    shelf: S,
    script: &'a Script,
    /// The commands behind the last one that has read a file.
    rest: &'a [Step],
    progress: &'a RefCell<ProgressLine<'b, R, E>>,
}

impl<'a, 'b, S, R: Clock, E: Write> FollowedShelf<'a, 'b, S, R, E> {
    ghost use Rattle.std.specs.Prelude.{◌≡◌};

    pub(crate) fn new(
        shelf: S,
        script: &'a Script,
        progress: &'a RefCell<ProgressLine<'b, R, E>>,
    ) -> FollowedShelf<'a, 'b, S, R, E>
        ensures { followed result ≡ shelf }
    {
        let rest = script.steps();
        FollowedShelf {
            shelf,
            script,
            rest,
            progress,
        }
    }

    pub(crate) fn get_ref(&self) -> &S
        ensures { result.now ≡ followed self.now }
    {
        &self.shelf
    }

    /// Tells that the next command that reads a file begins.
    fn begin(&mut self)
        ensures { followed self.new ≡ followed self.old }
    {
        let (script, rest) = (self.script, self.rest);
        let Some(at) = rest
            .iter()
            .position(|step| path_read(script, step).is_some())
        else {
            return;
        };
        self.rest = &rest[at + 1..];
        if let Ok(mut told) = self.progress.try_borrow_mut() {
            told.begin(rest[at].line);
        }
    }
}

impl<'a, 'b, S: Shelf, R: Clock, E: Write> Shelf for FollowedShelf<'a, 'b, S, R, E> {
    type Reader = Followed<'a, S::Reader, ProgressLine<'b, R, E>>;

    ghost files = { λ s. S.files (followed s) };

    ghost failures = { λ s. S.failures (followed s) };

    fn fetch(
        &mut self,
        alloc: Global,
        path: &str,
    ) -> Result<Followed<'a, S::Reader, ProgressLine<'b, R, E>>, ShelfFault> {
        self.begin();
        match self.shelf.fetch(alloc, path) {
            Ok(reader) => Ok(Followed::new(reader, self.progress)),
            Err(fault) => Err(fault),
        }
    }

    fn put(&mut self, alloc: Global, path: &str, bytes: &[u8]) -> Result<(), ShelfFault> {
        self.shelf.put(alloc, path, bytes)
    }
}

/// The path of the file that the command reads, if it reads one: a list that was saved is none.
fn path_read<'a>(script: &'a Script, step: &'a Step) -> Option<&'a str> {
    let given = match &step.command {
        Command::Act { .. } => script.steps().iter().find(|other| other.list == step.list)?,
        _ => step,
    };
    match &given.command {
        Command::Use { path, .. } | Command::Restore { path } => Some(path.as_str()),
        _ => None,
    }
}

/// How many bytes the commands of the script read, as large as their files are now, where these are
/// files.
pub(crate) fn bytes_of_lists(files: &impl Files, script: &Script) -> Option<u64> {
    let mut total = 0u64;
    for step in script.steps() {
        if let Some(path) = path_read(script, step) {
            total = total.saturating_add(size_of(files, path)?);
        }
    }
    Some(total)
}
