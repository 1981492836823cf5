//! What a control tells of a descriptor that need not be known.

ghost use Rattle.std.specs.Prelude.{◌≡◌, option_map};
ghost use Rattle.rh_words.specs.Words.{control_of};
ghost use Rattle.rh_rule.specs.Sound.{IsControlWord};
ghost use Rattle.rh_rdcss.specs.Calls.{status_said};

use rh_helping::state_by;
use rh_tagword::{State, unpack_control};
use rh_words::Ref;

/// How a descriptor stands by this word, its worker's control: `Unused` where that is of an earlier
/// one, and none where it is of a later one.
#[inline(always)]
pub(crate) fn status_by(desc: Ref, word: u64) -> Option<State>
    requires { IsControlWord word }
    ensures { option_map control_of result ≡ status_said desc.number word }
{
    match unpack_control(word) {
        Some((serial, _)) if serial < desc.number => Some(State::Unused),
        _ => state_by(desc, word),
    }
}
