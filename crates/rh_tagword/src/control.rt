//! Controls of descriptors, and their numbers.

ghost use Rattle.std.specs.Prelude.{◌≡◌, ◌<◌, ◌≤◌, ◌+◌, ◌%◌, ◌^◌, ◌⊎◌, ◌↔◌, IsNone, IfSome};
ghost use Rattle.rh_tagword.specs.Control.{IsControl, IsState, control_number, control_in, is_decided, state_number};

use crate::limits::{FAILED, STATE_BITS, SUCCEEDED, UNDECIDED, UNUSED, WITHDRAWN, WORKER_BITS};

const STATE_MASK: u64 = (1 << STATE_BITS) - 1;

/// How far a swap of several cells has come (Harris, Fraser, Pratt 2002).
#[derive(Clone, Copy, Debug, PartialEq, Eq)]
pub enum State {
    /// No swap was begun.
    Unused,
    /// The swap was begun, and may still go either way.
    Undecided,
    /// The swap took place.
    Succeeded,
    /// Its worker gave it up, and nothing was changed.
    Withdrawn,
    /// Nothing was changed, as a cell held another value. At which entry, this worker tells as its
    /// reason to the swap's own worker.
    Failed { decider: u64 },
}

impl State {
    /// Whether the swap is over. It stays as it is from then on.
    #[inline(always)]
    pub fn is_decided(self) -> bool
        ensures { result ≡ is_decided self }
    {
        match self {
            State::Unused | State::Undecided => false,
            State::Succeeded | State::Withdrawn | State::Failed { .. } => true,
        }
    }
}

/// The number of a control: the serial number of the worker's newest opened descriptor, and its
/// state.
#[inline(always)]
pub fn pack_control(serial: u64, state: State) -> u64
    requires { IsControl serial state }
    ensures number { result ≡ control_number serial state }
    ensures back { control_in result ≡ Some (serial, state) }
{
    (serial << STATE_BITS) | state_number(state)
}

/// The serial number and the state of a control, or `None` where the number is no control.
#[inline(always)]
pub fn unpack_control(number: u64) -> Option<(u64, State)>
    ensures control { result ≡ control_in number }
    ensures none { IsNone result ↔
        (((WITHDRAWN < number % 2 ^ STATE_BITS) × (number % 2 ^ STATE_BITS < FAILED))
        ⊎ (FAILED + 2 ^ WORKER_BITS ≤ number % 2 ^ STATE_BITS)) }
    ensures back { IfSome result (λ k. IsControl k.0 k.1 × (control_number k.0 k.1 ≡ number)) }
{
    let serial = number >> STATE_BITS;
    let state = match number & STATE_MASK {
        UNUSED => State::Unused,
        UNDECIDED => State::Undecided,
        SUCCEEDED => State::Succeeded,
        WITHDRAWN => State::Withdrawn,
        failed => {
            if failed < FAILED || failed >= FAILED + (1 << WORKER_BITS) {
                return None;
            }
            State::Failed {
                decider: failed - FAILED,
            }
        }
    };
    Some((serial, state))
}

#[inline(always)]
fn state_number(state: State) -> u64
    requires { IsState state }
    ensures { result ≡ state_number state }
{
    match state {
        State::Unused => UNUSED,
        State::Undecided => UNDECIDED,
        State::Succeeded => SUCCEEDED,
        State::Withdrawn => WITHDRAWN,
        State::Failed { decider } => FAILED + decider,
    }
}
