//! Laws of runs. They do nothing when they run.

ghost use Rattle.rh_order.specs.Laws.{WorkerStarts, WorkerSteps, WorkerClaims, WorkerTurns};
ghost use Rattle.rh_order.specs.Laws.{RunStarts, RunGathers, RunSteps, RunClaims, RunRounds, RunsAlike};
ghost use Rattle.rh_order.specs.Laws.{LogicalWords, WordsStand, WordsLeadInside, OnlySuccessChanges};
ghost use Rattle.rh_order.specs.Laws.{RunMoment, RunAnswers, RunEnds, RunSharedEnds};
ghost use Rattle.rh_order.specs.Moves.{NoKeyIsLost};

/// What a worker has done of its keys grows by its own steps alone, and stays in a further round.
pub fn worker_goes_on()
    ensures starts { WorkerStarts }
    ensures steps { WorkerSteps }
    ensures claims { WorkerClaims }
    ensures turns { WorkerTurns }
{}

/// A run starts with nothing done, and goes on with each step of a worker at a key, with each
/// Claim, and with each further round; or it is gathered at the end of a round from what each
/// worker knows.
pub fn run_goes_on()
    ensures starts { RunStarts }
    ensures gathers { RunGathers }
    ensures steps { RunSteps }
    ensures claims { RunClaims }
    ensures rounds { RunRounds }
    ensures alike { RunsAlike }
{}

/// At each moment the cells stand for the layout of the set after the keys of the acts so far,
/// which are those of the descriptors that succeeded, and by which each worker has done its keys;
/// the words, and what the workers noted of stale descriptors, tell what the cells stand for; and
/// what was asked for is answered from the first set.
pub fn run_stands()
    ensures words { LogicalWords }
    ensures stand { WordsStand }
    ensures inside { WordsLeadInside }
    ensures moment { RunMoment }
    ensures answers { RunAnswers }
{}

/// What a cell stands for is changed by no step but a Decide that lets a descriptor succeed: a
/// stale helper changes no cell.
pub fn only_success_changes()
    ensures { OnlySuccessChanges }
{}

/// Helping loses no key. Whatever moves a run makes after its start, a worker's steps for its own
/// descriptors and for those of others among them, the cells stand for the set of the start,
/// changed by some keys that the workers were given: what was held and not removed is there, and
/// nothing else but what was inserted. And each key that a worker has done shows: a key added is
/// there, a key removed is not.
pub fn no_key_is_lost()
    ensures { NoKeyIsLost }
{}

/// Where all keys are done and all workers are at rest, the cells and the tally are those of one
/// worker with the lists joined, or with the one list that was shared out.
pub fn run_ends()
    ensures pieces { RunEnds }
    ensures shared { RunSharedEnds }
{}
