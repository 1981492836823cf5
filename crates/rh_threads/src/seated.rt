//! One worker of a phase at its seat.

ghost use Rattle.std.specs.Prelude.{◌≡◌};
ghost use Rattle.rh_threads.specs.Crew.{CanWork, HaveWorked};

use crate::crew::Crew;
use crate::doing::do_keys;
use crate::gate::Gate;
use rh_shared::Table;
use std::sync::Wait;

/// Has the one worker of the crew do keys.
pub(crate) fn work<R: Wait, G: Gate>(
    rt: &R,
    table: &Table,
    crew: Crew,
    keys: &[u64],
    gate: &G,
) -> Crew
    requires one { crew.seat.count ≡ 1 }
    requires can { CanWork table.now keys.now crew }
    ensures { HaveWorked table.now keys.now crew result }
{
    let Crew {
        mut seat,
        mut hands,
    } = crew;
    let hand = hands.front_mut().unwrap();
    do_keys(rt, table, &mut seat, hand, keys, gate);
    Crew { seat, hands }
}
