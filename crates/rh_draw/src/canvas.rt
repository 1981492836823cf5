//! The text of a picture as it grows, and room for one label.

ghost use Rattle.std.specs.Prelude.{◌≡◌, [], ◌++◌, codes, decimal};
ghost use Rattle.rh_svg.specs.Markup.{DrawsAfter, labelled};
ghost use Rattle.rh_trace.specs.Telling.{held_text, step_text};
ghost use Rattle.rh_tagword.specs.Word.{word_in};

use itoa::Buffer;
use rh_play_text::push_texts;
use rh_svg::{Tag, put_text};
use rh_trace::{Traced, push_step_text, push_word};
use rh_words::Part;
use std::alloc::{AllocError, Global};

#[derive(Drop)]
pub(crate) struct Canvas {
    pub(crate) out: Vec<u8>,
    pub(crate) line: Vec<u8>,
}

impl Canvas {
    pub(crate) fn new(alloc: Global) -> Canvas
        ensures { result.out.items ≡ [] }
    {
        Canvas {
            out: Vec::new(alloc),
            line: Vec::new(alloc),
        }
    }

    /// An element that holds a word and a number.
    pub(crate) fn count(&mut self, tag: Tag, word: &[u8], number: u64) -> Result<(), AllocError>
        ensures { DrawsAfter self.old.out.items self.new.out.items
            (labelled tag (word.now ++ decimal number)) result }
    {
        let mut buffer = Buffer::new();
        let number = buffer.format(number).as_bytes();
        self.line.clear();
        push_texts(&mut self.line, &[word, number])?;
        put_text(&mut self.out, tag, &self.line)
    }

    /// An element that holds what a cell's word says.
    pub(crate) fn say_word(&mut self, tag: Tag, word: u64) -> Result<(), AllocError>
        ensures { DrawsAfter self.old.out.items self.new.out.items
            (labelled tag (held_text word (word_in word))) result }
    {
        self.line.clear();
        push_word(&mut self.line, Part::Cell(0), word)?;
        put_text(&mut self.out, tag, &self.line)
    }

    /// An element that holds the text of a step.
    pub(crate) fn say_step(&mut self, tag: Tag, step: &Traced) -> Result<(), AllocError>
        ensures { DrawsAfter self.old.out.items self.new.out.items
            (labelled tag (step_text step.now)) result }
    {
        self.line.clear();
        push_step_text(&mut self.line, step)?;
        put_text(&mut self.out, tag, &self.line)
    }
}
