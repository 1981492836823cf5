//! Laws of the seats of a table. They do nothing when they run.

ghost use Rattle.rh_rule.specs.Seats.{TableBegins, StepsAreAllowed, LooksAreAllowed, ViewsSplit, ViewsJoin, AllMayWipe, CloseSees};

/// A table starts with plain cells and one seat for all workers.
pub fn starts()
    ensures { TableBegins }
{}

/// The seat of one worker may make each allowed step of it.
pub fn steps_are_allowed()
    ensures { StepsAreAllowed }
{}

/// It may look at a word that it may read: that is no step, and nothing is noted.
pub fn looks_are_allowed()
    ensures { LooksAreAllowed }
{}

/// A view may be cut in two, so that some workers get a seat of their own, and two may be joined.
pub fn views_split_and_join()
    ensures split { ViewsSplit }
    ensures join { ViewsJoin }
{}

/// The seat of all workers, at rest, may wipe the table.
pub fn all_may_wipe()
    ensures { AllMayWipe }
{}

/// At the close the seat of all workers has what the rule speaks of.
pub fn close_sees()
    ensures { CloseSees }
{}
