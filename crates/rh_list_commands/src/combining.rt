//! The commands that make one list of several.

ghost use Rattle.std.specs.Prelude.{◌≡◌, ◌++◌, false, IfErr, length, map, string_bytes, vec_len};
ghost use Rattle.rh_bytes.specs.Counting.{Emits};
ghost use Rattle.rh_key_files.specs.KeyFile.{header, spelling};
ghost use Rattle.rh_key_files.specs.declared.version.Version.TheVariants.{Second};
ghost use Rattle.rh_cutting.specs.Pieces.{keys_in};
ghost use Rattle.rh_numbers.specs.Writing.{number_line, text_of};
ghost use Rattle.rh_list_commands.specs.Commands.{EndsCommand, WritesText, written};
ghost use Rattle.rh_lists.specs.Files.{seen};
ghost use Rattle.rh_lists.specs.Paths.{IsInside};

use rh_bytes::{Counted, Progress, WriteFault, write_text};
use rh_combine::Form;
use rh_combine_workers::{CombineFault, Question, write_answer};
use rh_cutting::KeyList;
use rh_forks::Team;
use rh_key_files::write_header;
use rh_lists::{CommandFault, read_paths};
use rh_numbers::write_numbers;
use rh_shelf::Lender;
use std::io::{Read, Write};
use std::thread::Threads;

/// What is asked for.
#[derive(Clone, Copy)]
pub struct Job<'a> {
    /// What is written of the numbers that are the answer.
    pub form: Form,
    /// Where the lists are. `-` is standard input, which is read once: what another `-` finds is
    /// nothing.
    pub paths: &'a [String],
    /// So many lines of each file that is a text are passed by.
    pub skip: u64,
}

/// Reads the lists at these paths, and writes what is answered of them. The input is read as it is:
/// whoever passes lines of it by too hands a `Skipping` over. Nothing is written before all are
/// read. Each write is a large one, so that no buffer is wanted, and before each what was told of
/// progress is taken away. What is written does not depend on how many workers the team has.
pub fn combine_files<
    T: Threads + Sync,
    Q: Question + Sync,
    S: Lender,
    I: Read,
    W: Write,
    P: Progress,
>(
    team: &Team<'_, T>,
    question: &Q,
    job: &Job<'_>,
    shelf: &mut S,
    input: &mut Counted<I>,
    writer: &mut Counted<W>,
    progress: &mut P,
) -> Result<(), CommandFault>
    requires takes { Q.takes question.now (length job.now.paths.now) }
    ensures command { EndsCommand (Q.answer question.now) job.now.form
        (map string_bytes job.now.paths.now)
        (seen job.now.skip (S.state shelf.old)) (seen job.now.skip (S.state shelf.new))
        I.remaining input.old input.new
        W.contents writer.old writer.new result }
    ensures inside { IfErr result (IsInside (length job.now.paths.now)) }
{
    let lists = read_paths(team, shelf, job.paths, job.skip, input, progress)?;
    match write_lists(team, question, job.form, lists, writer, progress) {
        Ok(()) => Ok(()),
        Err(CombineFault::Memory) => Err(CommandFault::Memory),
        Err(CombineFault::Write) => Err(CommandFault::Write),
    }
}

/// Writes what is answered of the lists.
fn write_lists<T: Threads + Sync, Q: Question + Sync, W: Write, P: Progress>(
    team: &Team<'_, T>,
    question: &Q,
    form: Form,
    lists: Vec<KeyList>,
    writer: &mut Counted<W>,
    progress: &mut P,
) -> Result<(), CombineFault>
    requires takes { Q.takes question.now (vec_len lists) }
    ensures { WritesText W.contents
        (written form (Q.answer question.now (map keys_in lists.items)))
        writer.old writer.new result }
{
    match form {
        Form::Lines => write_lines(team, question, lists, writer, progress),
        Form::Count => write_counted(team, question, lists, writer, progress),
        Form::Packed => write_packed(team, question, lists, writer, progress),
    }
}

/// Writes the numbers that are answered of the lists.
fn write_lines<T: Threads + Sync, Q: Question + Sync, W: Write, P: Progress>(
    team: &Team<'_, T>,
    question: &Q,
    lists: Vec<KeyList>,
    writer: &mut Counted<W>,
    progress: &mut P,
) -> Result<(), CombineFault>
    requires takes { Q.takes question.now (vec_len lists) }
    ensures { WritesText W.contents (text_of (Q.answer question.now (map keys_in lists.items)))
        writer.old writer.new result }
{
    match write_answer(team, question, Form::Lines, lists, writer, progress) {
        Ok(_) => Ok(()),
        Err(fault) => Err(fault),
    }
}

/// Writes how many numbers are answered of the lists.
fn write_counted<T: Threads + Sync, Q: Question + Sync, W: Write, P: Progress>(
    team: &Team<'_, T>,
    question: &Q,
    lists: Vec<KeyList>,
    writer: &mut Counted<W>,
    progress: &mut P,
) -> Result<(), CombineFault>
    requires takes { Q.takes question.now (vec_len lists) }
    ensures { WritesText W.contents
        (number_line (length (Q.answer question.now (map keys_in lists.items))))
        writer.old writer.new result }
{
    let count = write_answer(team, question, Form::Count, lists, writer, progress)?;
    progress.clear();
    write_count(count, writer, progress)?;
    Ok(())
}

/// Writes the number on a line. It may come to the terminal on which progress is told: nothing of
/// that stands there any more.
fn write_count<W: Write, P: Progress>(
    count: u64,
    writer: &mut Counted<W>,
    _progress: &P,
) -> Result<(), WriteFault>
    requires { P.stands _progress.now ≡ false }
    ensures { Emits W.contents writer.old writer.new (number_line count) result }
{
    write_numbers(&[count], writer)
}

/// Writes a key file of the numbers. They are held until all are there, as it begins with their
/// number.
fn write_packed<T: Threads + Sync, Q: Question + Sync, W: Write, P: Progress>(
    team: &Team<'_, T>,
    question: &Q,
    lists: Vec<KeyList>,
    writer: &mut Counted<W>,
    progress: &mut P,
) -> Result<(), CombineFault>
    requires takes { Q.takes question.now (vec_len lists) }
    ensures { WritesText W.contents
        (spelling Second (Q.answer question.now (map keys_in lists.items)))
        writer.old writer.new result }
{
    let mut held = Counted::new(Vec::new(team.alloc));
    let Ok(count) = write_answer(team, question, Form::Packed, lists, &mut held, progress) else {
        // Only memory can be wanting where a vector is written to.
        return Err(CombineFault::Memory);
    };
    progress.clear();
    write_file(count, held.get_ref(), writer, progress)?;
    Ok(())
}

/// Writes a key file of so many keys, which are spelled so, where nothing stands of what was told
/// of progress.
fn write_file<W: Write, P: Progress>(
    count: u64,
    keys: &[u8],
    writer: &mut Counted<W>,
    _progress: &P,
) -> Result<(), WriteFault>
    requires { P.stands _progress.now ≡ false }
    ensures { Emits W.contents writer.old writer.new (header Second count ++ keys.now) result }
{
    write_header(count, writer)?;
    write_text(writer, keys)
}
