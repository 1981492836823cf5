//! The words of a table that name marks and descriptors: of cells, and of controls.

ghost use Rattle.std.specs.Prelude.{◌≡◌};
ghost use Rattle.rh_tagword.specs.Control.{IsControl};
ghost use Rattle.rh_words.specs.Steps.{IsDesc, IsMark, decided_word};
ghost use Rattle.rh_words.specs.Words.{control_of, desc_number, mark_number, ref_of};

use crate::reference::Ref;
use crate::shape::Shape;
use rh_tagword::{State, Word, pack, pack_control};

/// The word that refers to a mark of the table.
#[inline(always)]
pub fn mark_word(shape: &Shape, mark: Ref) -> u64
    requires { IsMark shape.now (ref_of mark) }
    ensures { result ≡ mark_number (ref_of mark) }
{
    let _ = shape;
    pack(Word::Mark {
        worker: mark.worker as u64,
        number: mark.number,
    })
}

/// The word that refers to a descriptor of the table.
#[inline(always)]
pub fn desc_word(shape: &Shape, desc: Ref) -> u64
    requires { IsDesc shape.now (ref_of desc) }
    ensures { result ≡ desc_number (ref_of desc) }
{
    let _ = shape;
    pack(Word::Desc {
        worker: desc.worker as u64,
        number: desc.number,
    })
}

/// The control of a descriptor after a swap of it from undecided to this state that found this
/// word.
#[inline(always)]
pub fn decided_word(desc: Ref, state: State, word: u64) -> u64
    requires { IsControl desc.number state }
    ensures { result ≡ decided_word (ref_of desc) (control_of state) word }
{
    if word == pack_control(desc.number, State::Undecided) {
        pack_control(desc.number, state)
    } else {
        word
    }
}
