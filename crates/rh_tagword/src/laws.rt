//! Laws of words and controls. They do nothing when they run.

ghost use Rattle.std.specs.Prelude.{◌≡◌, ℕ, ◌^◌, ◌<◌};
ghost use Rattle.rh_tagword.specs.declared.limits.TheConstants.{TAG_BITS, PLAIN, MARK, DESC};
ghost use Rattle.rh_tagword.specs.declared.limits.TheConstants.{UNUSED, UNDECIDED, SUCCEEDED};
ghost use Rattle.rh_tagword.specs.declared.limits.TheConstants.{WITHDRAWN, FAILED};
ghost use Rattle.rh_tagword.specs.declared.limits.TheConstants.{WORKER_BITS, NUMBER_BITS, STATE_BITS};
ghost use Rattle.rh_tagword.specs.Word.{IsWord, word_in, word_number};
ghost use Rattle.rh_tagword.specs.Control.{IsControl, control_in, control_number};
ghost use Rattle.rh_tagword.specs.declared.word.Word.{Word};
ghost use Rattle.rh_tagword.specs.declared.control.State.{State};

use crate::control::State;
use crate::word::Word;

/// The number of a word is a `u64`. It is the only one that is read as this word, and no other word
/// has it.
pub fn one_word(word: Word)
    requires { IsWord word }
    ensures fits { word_number word < 2 ^ 64 }
    ensures read { (n : ℕ) → word_in n ≡ Some word → n ≡ word_number word }
    ensures one { (w : Word) → IsWord w → word_number w ≡ word_number word → w ≡ word }
{
    let _ = word;
}

/// The same of controls.
pub fn one_control(serial: u64, state: State)
    requires { IsControl serial state }
    ensures fits { control_number serial state < 2 ^ 64 }
    ensures read { (n : ℕ) → control_in n ≡ Some (serial, state) → n ≡ control_number serial state }
    ensures one { (i : ℕ) (k : State) → IsControl i k →
        control_number i k ≡ control_number serial state → (i ≡ serial) × (k ≡ state) }
{
    let _ = (serial, state);
}

/// The numbers of which words and controls are made.
pub fn fixed_numbers()
    ensures tags { (PLAIN ≡ 0) × (MARK ≡ 1) × (DESC ≡ 2) }
    ensures states { (UNUSED ≡ 0) × (UNDECIDED ≡ 1) × (SUCCEEDED ≡ 2) × (WITHDRAWN ≡ 3)
        × (FAILED ≡ 64) }
    ensures widths { (TAG_BITS ≡ 2) × (WORKER_BITS ≡ 6) × (NUMBER_BITS ≡ 56) × (STATE_BITS ≡ 8) }
{}
