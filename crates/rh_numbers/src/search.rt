//! The line of a text that has a number, looked for from the first byte on.

ghost use Rattle.std.specs.Prelude.{◌≡◌, ◌⊎◌, IfSome, IsNone};
ghost use Rattle.rh_bytes.specs.Counting.{Rose, failures_of, inner_of};
ghost use Rattle.rh_numbers.specs.Excerpt.{LacksLine, ShowsLine};
ghost use Rattle.rh_numbers.specs.Grammar.{without_mark};
ghost use Rattle.rh_numbers.specs.Search.{lines_left};

use crate::excerpt::Excerpt;
use crate::limits::{MAX_READS, PART_BYTES};
use rh_bytes::{Counted, Filled, fill_front};
use std::io::Read;

/// The line of a text that has this number, from 1 on (0 counts as 1), as it is shown to a person.
/// `None`: there is no such line, or a read failed. The text is read in parts of 8,192 bytes, up to
/// the last one that is shown, and no memory is taken.
pub fn line_at<R: Read>(reader: &mut Counted<R>, number: u64) -> Option<Excerpt>
    ensures found { IfSome result (ShowsLine number (R.remaining (inner_of reader.old))) }
    ensures none { IsNone result → Rose (failures_of reader.old) (failures_of reader.new)
        ⊎ LacksLine number (R.remaining (inner_of reader.old)) }
{
    let mut search = Search {
        feeds: number.saturating_sub(1),
        line: Excerpt::new(),
    };
    let mut part = [0; PART_BYTES];
    for at in 0..MAX_READS {
        let Filled { count, failed } = fill_front(reader, &mut part);
        if failed {
            return None;
        }
        if search.ends_in(lines_of(at, &part[..count])) {
            return Some(search.line.without_return());
        }
        if count < PART_BYTES {
            return search.at_end();
        }
    }
    None
}

/// The lines of a part, before which so many parts were read: the first one may begin with a byte
/// order mark.
fn lines_of(before: u64, part: &[u8]) -> &[u8]
    ensures { result.now ≡ lines_left before part.now }
{
    if before == 0 {
        return behind_mark(part);
    }
    part
}

/// The text without a byte order mark at its head.
pub fn behind_mark(text: &[u8]) -> &[u8]
    ensures { result.now ≡ without_mark text.now }
{
    if text.len() < 3 || text[0] != 0xEF || text[1] != 0xBB || text[2] != 0xBF {
        return text;
    }
    &text[3..]
}

/// How far a line is looked for.
#[derive(Clone, Copy)]
struct Search {
    /// The line feeds before it.
    feeds: u64,
    /// Its first bytes.
    line: Excerpt,
}

impl Search {
    ghost use Rattle.std.specs.Prelude.{◌≡◌, ◌++◌, [], ◌∷◌, ℕ, List, Some, None, IfSome, IsFalse, IsNone, IsTrue};
    ghost use Rattle.rh_numbers.specs.Excerpt.{held_by, without_return};
    ghost use Rattle.rh_numbers.specs.Search.{found_by};

    /// Whether the line ends in these bytes, which come next, or nothing more of it is held.
    fn ends_in(&mut self, bytes: &[u8]) -> bool
        ensures found { IsTrue result → (rest : List ℕ) →
            found_by self.old (bytes.now ++ rest) ≡ Some (held_by self.new.line) }
        ensures going { IsFalse result → (rest : List ℕ) →
            found_by self.old (bytes.now ++ rest) ≡ found_by self.new rest }
    {
        for b in bytes {
            if self.ends_at(*b) {
                return true;
            }
        }
        false
    }

    /// Whether the line ends at this byte, which comes next, or nothing more of it is held.
    fn ends_at(&mut self, b: u8) -> bool
        ensures found { IsTrue result → (rest : List ℕ) →
            found_by self.old (b ∷ rest) ≡ Some (held_by self.new.line) }
        ensures going { IsFalse result → (rest : List ℕ) →
            found_by self.old (b ∷ rest) ≡ found_by self.new rest }
    {
        if self.feeds > 0 {
            if b == b'\n' {
                self.feeds -= 1;
            }
            return false;
        }
        if b == b'\n' || self.line.is_full() {
            return true;
        }
        self.line.push(b);
        false
    }

    /// The line, where the text ends here.
    fn at_end(self) -> Option<Excerpt>
        ensures found { IfSome result (λ line. (held_by line ≡ without_return (held_by self.line))
            × (found_by self [] ≡ Some (held_by self.line))) }
        ensures none { IsNone result → found_by self [] ≡ None }
    {
        if self.feeds > 0 {
            return None;
        }
        Some(self.line.without_return())
    }
}
