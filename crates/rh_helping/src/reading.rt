//! What words say.

ghost use Rattle.std.specs.Prelude.{◌≡◌, option_map};
ghost use Rattle.rh_words.specs.Words.{cell_in, control_of, desc_in, ref_of};
ghost use Rattle.rh_rule.specs.Sound.{IsControlWord};
ghost use Rattle.rh_helping.specs.CellContent.{cell_met, state_said};

use rh_tagword::{State, Word, unpack, unpack_control};
use rh_words::Ref;

/// How a descriptor stands by this word, its worker's control; or none where it is stale.
#[inline(always)]
pub fn state_by(desc: Ref, word: u64) -> Option<State>
    requires { IsControlWord word }
    ensures { option_map control_of result ≡ state_said desc.number word }
{
    match unpack_control(word) {
        Some((serial, state)) if serial == desc.number => Some(state),
        Some(_) => None,
        // (no other number is written)
        None => unreachable!(),
    }
}

/// What stands in a cell.
#[derive(Clone, Copy)]
pub enum CellContent {
    /// The value of the cell itself.
    Value,
    Mark(Ref),
    Desc(Ref),
}

/// What a cell with this word holds.
#[inline(always)]
pub fn what_stands(word: u64) -> CellContent
    ensures { cell_met result word ≡ cell_in word }
{
    match unpack(word) {
        Some(Word::Mark { worker, number }) => CellContent::Mark(Ref {
            worker: worker as usize,
            number,
        }),
        Some(Word::Desc { worker, number }) => CellContent::Desc(Ref {
            worker: worker as usize,
            number,
        }),
        _ => CellContent::Value,
    }
}

/// The descriptor that a word refers to.
#[tactic(auto, using(crate::proofs::Refers::refers))]
#[inline(always)]
pub fn named_desc(word: u64) -> Option<Ref>
    ensures { option_map ref_of result ≡ desc_in word }
{
    match what_stands(word) {
        CellContent::Desc(desc) => Some(desc),
        _ => None,
    }
}
