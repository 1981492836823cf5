//! Words, and their numbers.

ghost use Rattle.std.specs.Prelude.{◌≡◌, ◌^◌, ◌<◌, ◌↔◌, ℕ, false, IsNone, IfOk, IfSome, MatchOption, length, map, slice_index};
ghost use Rattle.rh_tagword.specs.Word.{IsValue, IsRef, IsWord, is_plain, plain_number, ref_number, tag_of, tagged, unused_tag, word_number, word_in};

use crate::limits::{DESC, MARK, NUMBER_BITS, PLAIN, TAG_BITS};
use rh_layout::{cell_of, key_in};
use std::alloc::{AllocError, Global};

const TAG_MASK: u64 = (1 << TAG_BITS) - 1;

const NUMBER_MASK: u64 = (1 << NUMBER_BITS) - 1;

/// What a word of the table says. Workers are counted from 0.
#[derive(Clone, Copy, Debug, PartialEq, Eq)]
pub enum Word {
    /// The cell is empty.
    Empty,
    /// The cell holds this key.
    Key(u64),
    /// A conditional swap is under way in the cell, by this mark (Harris, Fraser, Pratt 2002).
    Mark { worker: u64, number: u64 },
    /// A swap of several cells is under way, by this descriptor (the same).
    Desc { worker: u64, number: u64 },
}

/// The number of a word.
#[inline(always)]
pub fn pack(word: Word) -> u64
    requires { IsWord word }
    ensures number { result ≡ word_number word }
    ensures back { word_in result ≡ Some word }
{
    match word {
        Word::Empty => plain_word(0),
        Word::Key(key) => plain_word(cell_of(key)),
        Word::Mark { worker, number } => tagged_ref(worker, number, MARK),
        Word::Desc { worker, number } => tagged_ref(worker, number, DESC),
    }
}

/// The word of a number, or `None` where the number has the tag of no word.
#[inline(always)]
pub fn unpack(word: u64) -> Option<Word>
    ensures word { result ≡ word_in word }
    ensures none { IsNone result ↔ (tag_of word ≡ unused_tag) }
    ensures back { IfSome result (λ w. IsWord w × (word_number w ≡ word)) }
{
    let rest = word >> TAG_BITS;
    let worker = rest >> NUMBER_BITS;
    let number = rest & NUMBER_MASK;
    match word & TAG_MASK {
        PLAIN => Some(key_in(rest).map_or(Word::Empty, Word::Key)),
        MARK => Some(Word::Mark { worker, number }),
        DESC => Some(Word::Desc { worker, number }),
        _ => None,
    }
}

/// The number of the word that says what a cell holds: 0 for an empty one, else the key plus 1.
#[inline(always)]
pub fn plain_word(value: u64) -> u64
    requires { IsValue value }
    ensures { result ≡ plain_number value }
{
    value << TAG_BITS
}

/// What a cell with this word holds, or `None` where the word does not say it.
#[inline(always)]
pub fn plain_value(word: u64) -> Option<u64>
    ensures { MatchOption result (is_plain word ≡ false)
        (λ value. IsValue value × (word ≡ plain_number value)) }
{
    (word & TAG_MASK == PLAIN).then_some(word >> TAG_BITS)
}

#[inline(always)]
fn tagged_ref(worker: u64, number: u64, tag: u64) -> u64
    requires reference { IsRef worker number }
    requires tag { tag < 2 ^ TAG_BITS }
    ensures { result ≡ tagged tag (ref_number worker number) }
{
    (((worker << NUMBER_BITS) | number) << TAG_BITS) | tag
}

/// The words of cells that hold these values, with room for so many words.
pub fn plain_words(alloc: Global, room: usize, cells: &[u64]) -> Result<Vec<u64>, AllocError>
    requires { (c : ℕ) → c < length cells.now → IsValue (slice_index cells.now c) }
    ensures { IfOk result (λ words. words.items ≡ map plain_number cells.now) }
{
    let mut words = Vec::with_capacity(alloc, room)?;
    for value in cells {
        words.push(plain_word(*value))?;
    }
    Ok(words)
}
