//! The lines, each appended whole. Where a growth was refused, the text is as it was.

ghost use Rattle.std.specs.Prelude.{◌≡◌, ◌++◌};
ghost use Rattle.rh_play_text.specs.Appending.{Prints};
ghost use Rattle.rh_trace.specs.Phrases.{phrase_text};
ghost use Rattle.rh_trace.specs.Telling.{change_text, step_line, step_text, word_text};

use crate::phrase::{Phrase, digits};
use crate::traced::Traced;
use crate::words::{part_phrase, word_phrase};
use itoa::Buffer;
use rh_play_text::{kind_word, push_texts};
use rh_recorder::Touched;
use rh_words::Part;
use std::alloc::AllocError;

/// `STEP WORKER KIND PART found WORD`, and ` now WORD` where the word changed.
pub fn push_step(out: &mut Vec<u8>, step: &Traced) -> Result<(), AllocError>
    ensures { Prints out.old.items out.new.items (step_line step.now) result }
{
    push_line(out, step, b"\n")
}

/// The same with no line feed.
pub fn push_step_text(out: &mut Vec<u8>, step: &Traced) -> Result<(), AllocError>
    ensures { Prints out.old.items out.new.items (step_text step.now) result }
{
    push_line(out, step, b"")
}

/// What a word of this part says.
pub fn push_word(out: &mut Vec<u8>, part: Part, word: u64) -> Result<(), AllocError>
    ensures { Prints out.old.items out.new.items (word_text part word) result }
{
    let phrase = word_phrase(part, word);
    let (mut first, mut second) = (Buffer::new(), Buffer::new());
    let before = phrase.before.as_bytes();
    let first = digits(&mut first, phrase.first);
    let between = phrase.between.as_bytes();
    let second = digits(&mut second, phrase.second);
    let after = phrase.after.as_bytes();
    push_texts(out, &[before, first, between, second, after])
}

fn push_line(out: &mut Vec<u8>, step: &Traced, end: &'static [u8]) -> Result<(), AllocError>
    ensures { Prints out.old.items out.new.items (step_text step.now ++ end.entry.now) result }
{
    let Traced {
        number,
        worker,
        kind,
        touched,
    } = *step;
    let part = part_phrase(touched.part);
    let found = word_phrase(touched.part, touched.found);
    let (now, left) = change_phrase(touched);
    let (mut first, mut second) = (Buffer::new(), Buffer::new());
    let (mut part_first, mut part_second) = (Buffer::new(), Buffer::new());
    let (mut found_first, mut found_second) = (Buffer::new(), Buffer::new());
    let (mut left_first, mut left_second) = (Buffer::new(), Buffer::new());
    let number = first.format(number).as_bytes();
    let worker = second.format(worker as u64).as_bytes();
    let kind = kind_word(kind).as_bytes();
    let part_before = part.before.as_bytes();
    let part_first = digits(&mut part_first, part.first);
    let part_between = part.between.as_bytes();
    let part_second = digits(&mut part_second, part.second);
    let part_after = part.after.as_bytes();
    let found_before = found.before.as_bytes();
    let found_first = digits(&mut found_first, found.first);
    let found_between = found.between.as_bytes();
    let found_second = digits(&mut found_second, found.second);
    let found_after = found.after.as_bytes();
    let now = now.as_bytes();
    let left_before = left.before.as_bytes();
    let left_first = digits(&mut left_first, left.first);
    let left_between = left.between.as_bytes();
    let left_second = digits(&mut left_second, left.second);
    let left_after = left.after.as_bytes();
    let texts: [&[u8]; 24] = [
        number,
        b" ",
        worker,
        b" ",
        kind,
        b" ",
        part_before,
        part_first,
        part_between,
        part_second,
        part_after,
        b" found ",
        found_before,
        found_first,
        found_between,
        found_second,
        found_after,
        now,
        left_before,
        left_first,
        left_between,
        left_second,
        left_after,
        end,
    ];
    push_texts(out, &texts)
}

// What the step left, where that is another word than it found, after a word for it.
fn change_phrase(touched: Touched) -> (&'static str, Phrase)
    ensures { result.0.now ++ phrase_text result.1 ≡ change_text touched }
{
    if touched.left == touched.found {
        ("", Phrase::word(""))
    } else {
        (" now ", word_phrase(touched.part, touched.left))
    }
}
