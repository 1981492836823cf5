//! A list, checked.

ghost use Rattle.std.specs.Prelude.{◌≡◌, false};
ghost use Rattle.rh_bytes.specs.Counting.{Emits};
ghost use Rattle.rh_checks.specs.Checks.{AnswersCheck, TellsCheck};

use crate::fault::CheckFault;
use crate::finding::find_list;
use crate::found::Found;
use crate::report::Report;
use crate::sums::sums_of;
use rh_bytes::{Counted, Progress, WriteFault, write_text};
use rh_forks::Team;
use rh_lists::ListFault;
use rh_numbers::TextFault;
use std::io::{Read, Write};
use std::thread::Threads;

/// Checks a list: a key file of either version, which its first four bytes tell, or else a text of
/// numbers, of any length. No bad line of a text is a fault: all its lines are read. What is
/// answered does not depend on how many workers count.
pub fn check_list<T: Threads + Sync, R: Read, P: Progress>(
    team: &Team<'_, T>,
    reader: &mut Counted<R>,
    progress: &mut P,
) -> Result<Report, ListFault>
    ensures { AnswersCheck R.remaining reader.old reader.new result }
{
    let Found { keys, bad, more } = find_list(team.alloc, reader, progress)?;
    let Ok(sums) = sums_of(team, keys, progress) else {
        return Err(ListFault::Text(TextFault::Memory));
    };
    Ok(Report { bad, more, sums })
}

/// Checks a list and writes its report, each line of which begins by the place. It answers whether
/// no line is bad. The report is one write, so that no buffer is wanted, and what was told of
/// progress is taken away before it.
pub fn tell_list<T: Threads + Sync, R: Read, W: Write, P: Progress>(
    team: &Team<'_, T>,
    place: &str,
    reader: &mut Counted<R>,
    writer: &mut Counted<W>,
    progress: &mut P,
) -> Result<bool, CheckFault>
    ensures { TellsCheck place.now R.remaining reader.old reader.new
        W.contents writer.old writer.new result }
{
    let report = check_list(team, reader, progress)?;
    let Ok(text) = report.text(team.alloc, place) else {
        return Err(CheckFault::Memory);
    };
    progress.clear();
    let Ok(()) = write_report(text.as_bytes(), writer, progress) else {
        return Err(CheckFault::Write);
    };
    Ok(report.bad.is_empty())
}

/// Writes the text. It may come to the terminal on which progress is told: nothing of that stands
/// there any more.
fn write_report<W: Write, P: Progress>(
    text: &[u8],
    writer: &mut Counted<W>,
    _progress: &P,
) -> Result<(), WriteFault>
    requires { P.stands _progress.now ≡ false }
    ensures { Emits W.contents writer.old writer.new text.now result }
{
    write_text(writer, text)
}
