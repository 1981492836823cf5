//! The lists at several paths are read, one after the other.

ghost use Rattle.std.specs.Prelude.{◌≡◌, IfErr, length, map, string_bytes};
ghost use Rattle.rh_cutting.specs.Pieces.{keys_in};
ghost use Rattle.rh_lists.specs.Files.{AnswersFile, AnswersPath, seen, tells_failed_read};
ghost use Rattle.rh_lists.specs.Paths.{AnswersPaths, IsInside};

use crate::blocks::Blocks;
use crate::fault::{CommandFault, FileFault, ListFault};
use crate::reading::read_list;
use crate::skipping::Skipping;
use rh_bytes::{Counted, Progress};
use rh_cutting::KeyList;
use rh_forks::Team;
use rh_key_files::KeyFault;
use rh_numbers::TextFault;
use rh_shelf::Lender;
use std::io::Read;
use std::thread::Threads;

/// The path that stands for standard input.
pub const INPUT: &str = "-";

/// Reads the list in the file at the path, without so many lines of a text.
fn read_file<T: Threads + Sync, S: Lender, P: Progress>(
    team: &Team<'_, T>,
    shelf: &mut S,
    path: &str,
    skip: u64,
    blocks: &mut Blocks,
    progress: &mut P,
) -> Result<KeyList, FileFault>
    ensures { AnswersFile (seen skip (S.state shelf.old)) (seen skip (S.state shelf.new))
        path.now result }
{
    let file = shelf.lend(team.alloc, path)?;
    let mut reader = Counted::new(Skipping::new(skip, file));
    match read_list(team, blocks, &mut reader, progress) {
        Ok(list) => Ok(list),
        Err(fault) => {
            // Behind another fault a read may have failed too, but it is not told.
            if is_failed_read(fault) {
                shelf.blame(&reader);
            }
            Err(FileFault::List(fault))
        }
    }
}

/// Whether the fault tells a failed read.
fn is_failed_read(fault: ListFault) -> bool
    ensures { result ≡ tells_failed_read fault }
{
    matches!(
        fault,
        ListFault::Text(TextFault::Read) | ListFault::Keys(KeyFault::Read),
    )
}

/// Reads the list at the path, or on the input.
fn read_path<T: Threads + Sync, S: Lender, I: Read, P: Progress>(
    team: &Team<'_, T>,
    shelf: &mut S,
    path: &str,
    skip: u64,
    input: &mut Counted<I>,
    blocks: &mut Blocks,
    progress: &mut P,
) -> Result<KeyList, FileFault>
    ensures { AnswersPath I.remaining (seen skip (S.state shelf.old))
        (seen skip (S.state shelf.new)) path.now input.old input.new result }
{
    if path == INPUT {
        let list = read_list(team, blocks, input, progress)?;
        return Ok(list);
    }
    read_file(team, shelf, path, skip, blocks, progress)
}

/// Reads the lists at these paths, one after the other, up to the first that has a fault. `-` is
/// standard input, which is read once: what another `-` finds is nothing. All are read into the
/// same blocks.
///
/// The first `skip` lines of each file that is a text are read as blank ones. The input is read as
/// it is: whoever passes lines of it by too hands a `Skipping` over.
pub fn read_paths<T: Threads + Sync, S: Lender, I: Read, P: Progress>(
    team: &Team<'_, T>,
    shelf: &mut S,
    paths: &[String],
    skip: u64,
    input: &mut Counted<I>,
    progress: &mut P,
) -> Result<Vec<KeyList>, CommandFault>
    ensures lists { AnswersPaths (λ lists. map keys_in lists.items) I.remaining
        (seen skip (S.state shelf.old)) (seen skip (S.state shelf.new))
        (map string_bytes paths.now) input.old input.new result }
    ensures inside { IfErr result (IsInside (length paths.now)) }
{
    let mut blocks = Blocks::new(team.alloc);
    let mut lists = Vec::new(team.alloc);
    for index in 0..paths.len() {
        match read_path(
            team,
            shelf,
            &paths[index],
            skip,
            input,
            &mut blocks,
            progress,
        ) {
            Ok(list) => {
                let Ok(()) = lists.push(list) else {
                    return Err(CommandFault::Memory);
                };
            }
            Err(fault) => return Err(CommandFault::List { index, fault }),
        }
    }
    Ok(lists)
}
