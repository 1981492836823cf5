//! Tagged words.

ghost use Rattle.rh_tagword.specs.Control.{IsControl};
ghost use Rattle.rh_tagword.specs.Word.{IsWord};

use rh_tagword::{State, Word};

pub fn pack(word: Word) -> u64
    requires { IsWord word }
{
    rh_tagword::pack(word)
}

pub fn unpack(word: u64) -> Option<Word> {
    rh_tagword::unpack(word)
}

pub fn pack_control(serial: u64, state: State) -> u64
    requires { IsControl serial state }
{
    rh_tagword::pack_control(serial, state)
}

pub fn unpack_control(number: u64) -> Option<(u64, State)> {
    rh_tagword::unpack_control(number)
}

pub fn variants(word: Word, state: State) {
    match word {
        Word::Empty => {}
        Word::Key(key) => {
            let _: u64 = key;
        }
        Word::Mark { worker, number } | Word::Desc { worker, number } => {
            let _: (u64, u64) = (worker, number);
        }
    }
    match state {
        State::Unused | State::Undecided | State::Succeeded | State::Withdrawn => {}
        State::Failed { decider } => {
            let _: u64 = decider;
        }
    }
}
