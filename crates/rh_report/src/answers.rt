//! The report of look-ups.

ghost use Rattle.std.specs.Prelude.{◌≡◌, ◌≤◌, ◌<◌, ◌++◌, codes, length, map};
ghost use Rattle.rh_bytes.specs.Counting.{Emits};
ghost use Rattle.rh_report.specs.Texts.{asked_head, asked_text, digit_of, digits_from};

use crate::lines::write_line;
use rh_bytes::{Counted, WriteFault, write_texts};
use std::io::Write;

/// How many answers stand on a full line.
pub const ANSWERS_PER_LINE: usize = 64;

/// `ask NAME read R found F`, and the answers as digits 1 and 0, 64 on a line.
pub fn write_asked<W: Write>(
    writer: &mut Counted<W>,
    name: &str,
    answers: &[bool],
) -> Result<(), WriteFault>
    ensures { Emits W.contents writer.old writer.new (asked_text name.now answers.now) result }
{
    write_head(writer, name, answers)?;
    write_answers(writer, answers)
}

fn write_head<W: Write>(
    writer: &mut Counted<W>,
    name: &str,
    answers: &[bool],
) -> Result<(), WriteFault>
    ensures { Emits W.contents writer.old writer.new (asked_head name.now answers.now) result }
{
    let found = answers.iter().filter(|answer| **answer).count();
    let numbers = [(" read ", answers.len() as u64), (" found ", found as u64)];
    write_line(writer, "ask ", name, &numbers)
}

/// Writes the answers line by line.
fn write_answers<W: Write>(writer: &mut Counted<W>, answers: &[bool]) -> Result<(), WriteFault>
    ensures { Emits W.contents writer.old writer.new (digits_from 0 answers.now) result }
{
    let mut rest = answers;
    while !rest.is_empty() {
        let (line, after) = rest.split_at(rest.len().min(ANSWERS_PER_LINE));
        write_answer_line(writer, line)?;
        rest = after;
    }
    Ok(())
}

fn write_answer_line<W: Write>(writer: &mut Counted<W>, answers: &[bool]) -> Result<(), WriteFault>
    requires { length answers.now ≤ ANSWERS_PER_LINE }
    ensures { Emits W.contents writer.old writer.new (map digit_of answers.now ++ codes "\n")
        result }
{
    let mut line = [0; ANSWERS_PER_LINE];
    let digits = &mut line[..answers.len()];
    put_digits(answers, digits);
    write_texts(writer, &[digits, b"\n"])
}

#[tactic(auto, using(crate::proofs::AnswerLemmas::digit_list))]
fn put_digits(answers: &[bool], digits: &mut [u8])
    requires { length digits.old ≡ length answers.now }
    ensures { digits.new ≡ map digit_of answers.now }
{
    for (place, answer) in answers.iter().enumerate() {
        digits[place] = if *answer { b'1' } else { b'0' };
    }
}
