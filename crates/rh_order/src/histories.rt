//! Laws from worlds to histories, which are lists of acts on the values of cells. They do nothing
//! when they run.

ghost use Rattle.rh_order.specs.Histories.{ActsHappened, OwnSoFar, Ended, PlainWords};
ghost use Rattle.rh_order.specs.OwnActs.{StepsFinish, KeptIsOrderly};
ghost use Rattle.rh_order.specs.OwnActs.{PlainReadsComeFirst, ReadsAreKept, ReadsStay};
ghost use Rattle.rh_order.specs.Rounds.{RoundsBegin, RoundsFollow, RoundsJoin};

/// At any moment the acts of a table's world are a list of acts that meet their old values, each of
/// a worker of the table and with the entries of a descriptor that it opened. What was kept as read
/// was true after some first acts.
pub fn order_of_acts()
    ensures { ActsHappened }
{}

/// Where all workers are at rest, a worker's own acts are those that it has finished, and the cells
/// hold what all the acts leave.
pub fn at_rest()
    ensures { Ended }
{}

/// A plain word stands for what its cell holds, and for nothing else.
pub fn plain_words()
    ensures { PlainWords }
{}

/// A worker's own acts are its descriptors that succeeded, in the order in which it opened them;
/// and those that it has finished grow by the act of each descriptor that it closes and that
/// succeeded.
pub fn own_acts()
    ensures so_far { OwnSoFar }
    ensures steps { StepsFinish }
    ensures kept { KeptIsOrderly }
{}

/// What a worker read of a cell while nothing of it was open is kept, and stays so.
pub fn reads()
    ensures plain { PlainReadsComeFirst }
    ensures kept { ReadsAreKept }
    ensures stay { ReadsStay }
{}

/// A round begins with no act and no read, and with the cells that the round before left. The acts
/// of two rounds are one list, and what was read in either was true.
pub fn rounds()
    ensures begin { RoundsBegin }
    ensures follow { RoundsFollow }
    ensures join { RoundsJoin }
{}
