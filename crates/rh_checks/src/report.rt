//! What is told of a list.

ghost use Rattle.std.specs.Prelude.{◌≡◌, ◌==◌, ◌++◌, if◌then◌else◌, IfOk, OnOk, codes, string_bytes};
ghost use Rattle.rh_checks.specs.Texts.{bad_text, more_text, report_text, sums_text};

use crate::found::ShownLine;
use crate::sums::{Span, Sums};
use std::alloc::{AllocError, Global};
use std::fmt::Write;

/// What is told of a list.
#[derive(Drop)]
pub struct Report {
    /// The first bad lines of a text, 20 at the most.
    pub bad: Vec<ShownLine>,
    /// How many more there are.
    pub more: u64,
    /// What its numbers are: those of its good lines, or the keys of a key file.
    pub sums: Sums,
}

impl Report {
    /// The report as a text: a line for each bad line that is shown, one for those that are not, and
    /// one for the numbers. Each begins by the place of the list, as `ids.csv: `.
    pub fn text(&self, alloc: Global, place: &str) -> Result<String, AllocError>
        ensures { IfOk result (λ text. string_bytes text ≡ report_text place.now self.now) }
    {
        let mut text = String::new(alloc);
        for line in &self.bad {
            put_bad(&mut text, place, line)?;
        }
        put_more(&mut text, place, self.more)?;
        put_sums(&mut text, place, self.sums)?;
        Ok(text)
    }
}

fn put_bad(text: &mut String, place: &str, line: &ShownLine) -> Result<(), AllocError>
    ensures { OnOk result (string_bytes text.new
        ≡ string_bytes text.old ++ bad_text place.now line.now) }
{
    write!(text, "{place}{line}\n")
}

fn put_more(text: &mut String, place: &str, more: u64) -> Result<(), AllocError>
    ensures { OnOk result (string_bytes text.new
        ≡ string_bytes text.old ++ more_text place.now more) }
{
    if more == 0 {
        return Ok(());
    }
    let lines = if more == 1 { "line" } else { "lines" };
    write!(text, "{place}{more} more bad {lines}\n")
}

fn number_word(count: u128) -> &'static str
    ensures { result.now ≡ (if count == 1 then codes "number" else codes "numbers") }
{
    if count == 1 { "number" } else { "numbers" }
}

fn put_sums(text: &mut String, place: &str, sums: Sums) -> Result<(), AllocError>
    ensures { OnOk result (string_bytes text.new
        ≡ string_bytes text.old ++ sums_text place.now sums) }
{
    let Sums {
        count,
        different,
        span,
    } = sums;
    let numbers = number_word(count);
    let Some(Span { least, greatest }) = span else {
        return write!(text, "{place}{count} {numbers}\n");
    };
    write!(
        text,
        "{place}{count} {numbers}, {different} different, from {least} to {greatest}\n"
    )
}
