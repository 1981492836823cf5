//! The tags of the elements.

ghost use Rattle.std.specs.Prelude.{◌≡◌};
ghost use Rattle.rh_play_text.specs.Appending.{Prints};
ghost use Rattle.rh_svg.specs.Tags.{end_tag, name, start_tag};
ghost use Rattle.rh_svg.specs.declared.tags.Tag.TheVariants.{Box, Dot, Label, Line, Mark, Outline, Svg};

use crate::looks::Look;
use crate::outlines::{outline, reference};
use itoa::Buffer;
use rh_play_text::{kind_word, push_texts};
use rh_words::StepKind;
use std::alloc::AllocError;

/// The vocabulary of the elements.
pub const NAMESPACE: &str = "http://www.w3.org/2000/svg";

/// The tag of an element. Lengths are in pixels at 100 %, from the upper left corner.
#[derive(Clone, Copy)]
pub enum Tag {
    /// The whole picture.
    Svg {
        width: u64,
        height: u64,
    },
    Style,
    Definitions,
    /// The outline of a kind of step, to be shown elsewhere.
    Outline(StepKind),
    /// What a browser tells on hover.
    Title,
    Box {
        x: u64,
        y: u64,
        width: u64,
        height: u64,
        look: Look,
    },
    Line {
        x: u64,
        y: u64,
        to_x: u64,
        to_y: u64,
        look: Look,
    },
    Dot {
        x: u64,
        y: u64,
        look: Look,
    },
    Label {
        x: u64,
        y: u64,
        look: Look,
    },
    /// The mark of a step of this kind.
    Mark {
        x: u64,
        y: u64,
        kind: StepKind,
    },
}

impl Tag {
    fn name(self) -> &'static str
        ensures { result.now ≡ name self }
    {
        match self {
            Tag::Svg { .. } => "svg",
            Tag::Style => "style",
            Tag::Definitions => "defs",
            Tag::Outline(_) => "path",
            Tag::Title => "title",
            Tag::Box { .. } => "rect",
            Tag::Line { .. } => "line",
            Tag::Dot { .. } => "circle",
            Tag::Label { .. } => "text",
            Tag::Mark { .. } => "use",
        }
    }
}

/// Opens an element.
pub fn open(out: &mut Vec<u8>, tag: Tag) -> Result<(), AllocError>
    ensures { Prints out.old.items out.new.items (start_tag tag) result }
{
    match tag {
        Tag::Svg { width, height } => open_svg(out, width, height),
        Tag::Style | Tag::Definitions | Tag::Title => {
            push_texts(out, &[b"<", tag.name().as_bytes(), b">"])
        }
        Tag::Outline(kind) => open_outline(out, kind),
        Tag::Box {
            x,
            y,
            width,
            height,
            look,
        } => open_box(out, (x, y), (width, height), look),
        Tag::Line {
            x,
            y,
            to_x,
            to_y,
            look,
        } => open_line(out, (x, y), (to_x, to_y), look),
        Tag::Dot { x, y, look } => open_dot(out, x, y, look),
        Tag::Label { x, y, look } => open_label(out, x, y, look),
        Tag::Mark { x, y, kind } => open_mark(out, x, y, kind),
    }
}

/// Closes the element that was opened so.
pub fn close(out: &mut Vec<u8>, tag: Tag) -> Result<(), AllocError>
    ensures { Prints out.old.items out.new.items (end_tag tag) result }
{
    push_texts(out, &[b"</", tag.name().as_bytes(), b">"])
}

fn open_svg(out: &mut Vec<u8>, width: u64, height: u64) -> Result<(), AllocError>
    ensures { Prints out.old.items out.new.items (start_tag (Svg width height)) result }
{
    let (mut first, mut second) = (Buffer::new(), Buffer::new());
    let width = first.format(width).as_bytes();
    let height = second.format(height).as_bytes();
    let namespace = NAMESPACE.as_bytes();
    let texts: [&[u8]; 11] = [
        b"<svg xmlns=\"",
        namespace,
        b"\" width=\"",
        width,
        b"\" height=\"",
        height,
        b"\" viewBox=\"0 0 ",
        width,
        b" ",
        height,
        b"\">",
    ];
    push_texts(out, &texts)
}

fn open_outline(out: &mut Vec<u8>, kind: StepKind) -> Result<(), AllocError>
    ensures { Prints out.old.items out.new.items (start_tag (Outline kind)) result }
{
    let word = kind_word(kind).as_bytes();
    let outline = outline(kind).as_bytes();
    push_texts(out, &[b"<path id=\"", word, b"\" d=\"", outline, b"\">"])
}

fn open_box(
    out: &mut Vec<u8>,
    corner: (u64, u64),
    size: (u64, u64),
    look: Look,
) -> Result<(), AllocError>
    ensures { Prints out.old.items out.new.items
        (start_tag (Box corner.0 corner.1 size.0 size.1 look)) result }
{
    let (mut first, mut second) = (Buffer::new(), Buffer::new());
    let (mut third, mut fourth) = (Buffer::new(), Buffer::new());
    let x = first.format(corner.0).as_bytes();
    let y = second.format(corner.1).as_bytes();
    let width = third.format(size.0).as_bytes();
    let height = fourth.format(size.1).as_bytes();
    let word = look.word().as_bytes();
    let tint = look.tint().as_bytes();
    let texts: [&[u8]; 12] = [
        b"<rect x=\"",
        x,
        b"\" y=\"",
        y,
        b"\" width=\"",
        width,
        b"\" height=\"",
        height,
        b"\" class=\"",
        word,
        tint,
        b"\">",
    ];
    push_texts(out, &texts)
}

fn open_line(
    out: &mut Vec<u8>,
    from: (u64, u64),
    to: (u64, u64),
    look: Look,
) -> Result<(), AllocError>
    ensures { Prints out.old.items out.new.items
        (start_tag (Line from.0 from.1 to.0 to.1 look)) result }
{
    let (mut first, mut second) = (Buffer::new(), Buffer::new());
    let (mut third, mut fourth) = (Buffer::new(), Buffer::new());
    let x = first.format(from.0).as_bytes();
    let y = second.format(from.1).as_bytes();
    let to_x = third.format(to.0).as_bytes();
    let to_y = fourth.format(to.1).as_bytes();
    let word = look.word().as_bytes();
    let tint = look.tint().as_bytes();
    let texts: [&[u8]; 12] = [
        b"<line x1=\"",
        x,
        b"\" y1=\"",
        y,
        b"\" x2=\"",
        to_x,
        b"\" y2=\"",
        to_y,
        b"\" class=\"",
        word,
        tint,
        b"\">",
    ];
    push_texts(out, &texts)
}

fn open_dot(out: &mut Vec<u8>, x: u64, y: u64, look: Look) -> Result<(), AllocError>
    ensures { Prints out.old.items out.new.items (start_tag (Dot x y look)) result }
{
    let (mut first, mut second) = (Buffer::new(), Buffer::new());
    let x = first.format(x).as_bytes();
    let y = second.format(y).as_bytes();
    let word = look.word().as_bytes();
    let tint = look.tint().as_bytes();
    let texts: [&[u8]; 8] = [
        b"<circle r=\"4\" cx=\"",
        x,
        b"\" cy=\"",
        y,
        b"\" class=\"",
        word,
        tint,
        b"\">",
    ];
    push_texts(out, &texts)
}

fn open_label(out: &mut Vec<u8>, x: u64, y: u64, look: Look) -> Result<(), AllocError>
    ensures { Prints out.old.items out.new.items (start_tag (Label x y look)) result }
{
    let (mut first, mut second) = (Buffer::new(), Buffer::new());
    let x = first.format(x).as_bytes();
    let y = second.format(y).as_bytes();
    let word = look.word().as_bytes();
    let tint = look.tint().as_bytes();
    let texts: [&[u8]; 8] = [
        b"<text x=\"",
        x,
        b"\" y=\"",
        y,
        b"\" class=\"",
        word,
        tint,
        b"\">",
    ];
    push_texts(out, &texts)
}

fn open_mark(out: &mut Vec<u8>, x: u64, y: u64, kind: StepKind) -> Result<(), AllocError>
    ensures { Prints out.old.items out.new.items (start_tag (Mark x y kind)) result }
{
    let (mut first, mut second) = (Buffer::new(), Buffer::new());
    let x = first.format(x).as_bytes();
    let y = second.format(y).as_bytes();
    let reference = reference(kind).as_bytes();
    let word = kind_word(kind).as_bytes();
    let texts: [&[u8]; 9] = [
        b"<use href=\"",
        reference,
        b"\" x=\"",
        x,
        b"\" y=\"",
        y,
        b"\" class=\"",
        word,
        b"\">",
    ];
    push_texts(out, &texts)
}
