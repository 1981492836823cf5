//! Laws of games. They do nothing when they run.

ghost use Rattle.rh_turns.specs.Laws.{StartsPlay, MayTurn, TurnsKeep, RoundsKeep};
ghost use Rattle.rh_turns.specs.Laws.{MadeSoFar, MadeAtTheEnd};

/// What is so of a game is so at its start, and stays so in each turn of a worker, whatever it is,
/// and in each further round, which is begun where no worker has a step left.
pub fn games_go_on()
    ensures starts { StartsPlay }
    ensures may { MayTurn }
    ensures turns { TurnsKeep }
    ensures rounds { RoundsKeep }
{}

/// At each moment the cells stand for the layout of the set after the keys of the acts so far, by
/// which each worker has done its keys, with these answers. Where all keys are done, the cells, the
/// tally and the answers are those of one worker.
pub fn games_make()
    ensures so_far { MadeSoFar }
    ensures at_the_end { MadeAtTheEnd }
{}
