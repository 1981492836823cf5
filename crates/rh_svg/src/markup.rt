//! Elements and texts.

ghost use Rattle.std.specs.Prelude.{◌≡◌, ◌++◌, OnOk};
ghost use Rattle.rh_svg.specs.Markup.{DrawsAfter, escaped, escaped_byte, labelled, leaf, text_of};

use crate::tags::{Tag, close, open};
use rh_play_text::push_texts;
use std::alloc::AllocError;

// Appends a text so that it has no markup.
#[tactic(auto, unfolding(crate::specs::Markup::render))]
fn text(out: &mut Vec<u8>, text: &[u8]) -> Result<(), AllocError>
    ensures { DrawsAfter out.old.items out.new.items (text_of text.now) result }
{
    for byte in text {
        escape(out, *byte)?;
    }
    Ok(())
}

fn escape(out: &mut Vec<u8>, byte: u8) -> Result<(), AllocError>
    ensures { OnOk result (out.new.items ≡ out.old.items ++ escaped_byte byte) }
{
    match byte {
        b'<' => push_texts(out, &[b"&lt;"]),
        b'>' => push_texts(out, &[b"&gt;"]),
        b'&' => push_texts(out, &[b"&amp;"]),
        b' '..=b'~' => push_texts(out, &[&[byte]]),
        _ => push_texts(out, &[b"?"]),
    }
}

/// Appends an element that holds nothing.
#[tactic(auto, unfolding(crate::specs::Markup::render))]
pub fn leaf(out: &mut Vec<u8>, given: Tag) -> Result<(), AllocError>
    ensures { DrawsAfter out.old.items out.new.items (leaf given) result }
{
    open(out, given)?;
    close(out, given)
}

/// Appends an element that holds a text.
#[tactic(auto, unfolding(crate::specs::Markup::render))]
pub fn put_text(out: &mut Vec<u8>, tag: Tag, label: &[u8]) -> Result<(), AllocError>
    ensures { DrawsAfter out.old.items out.new.items (labelled tag label.now) result }
{
    open(out, tag)?;
    text(out, label)?;
    close(out, tag)
}
