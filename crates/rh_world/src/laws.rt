//! Laws of the rule. They do nothing when they run.

ghost use Rattle.rh_world.specs.Laws.{EachStepKeeps, EachStepKeepsRows, EachStepKeepsActs};
ghost use Rattle.rh_world.specs.Laws.{EachStepKeepsPrefixes, EachStepKeepsClaims, EachStepIsLater};
ghost use Rattle.rh_world.specs.Laws.{RunsKeep, StartMeets, NewRoundMeets};
ghost use Rattle.rh_world.specs.Example.{ARunToASuccess};
ghost use Rattle.rh_world.specs.Laws.{ActsAreOneOrder, RestIsSettled, PrefixesSay, LaterOnesTell, ClaimsShareOut};

/// Each allowed step of any worker keeps the rule, whatever the number of workers. Each part is
/// kept by the parts before it, and the world after the step differs only as steps may.
pub fn each_step_keeps()
    ensures rule { EachStepKeeps }
    ensures rows { EachStepKeepsRows }
    ensures acts { EachStepKeepsActs }
    ensures prefixes { EachStepKeepsPrefixes }
    ensures claims { EachStepKeepsClaims }
    ensures later { EachStepIsLater }
{}

/// A run of allowed steps keeps the rule.
pub fn runs_keep()
    ensures { RunsKeep }
{}

/// Plain cells with new Sides, and a counter at 0, meet the rule.
pub fn starts()
    ensures { StartMeets }
{}

/// Where all Sides are at rest, what the cells stand for begins a new round that meets the rule.
/// The counter and the numbers that the Claims found stay.
pub fn new_round()
    ensures { NewRoundMeets }
{}

/// The descriptors that succeeded stand in one order, in which each met its old values, and the
/// cells stand for the opening cells changed by one after the other.
pub fn acts()
    ensures { ActsAreOneOrder }
{}

/// Where all Sides are at rest, each cell is plain and is the opening cell changed act by act.
pub fn at_rest()
    ensures { RestIsSettled }
{}

/// What a worker's failed descriptors and kept reads say of the acts, each of its own prefix, and
/// these never get shorter.
pub fn prefixes()
    ensures { PrefixesSay }
{}

/// A descriptor whose worker has opened a later one is decided, and stands in no cell if it
/// succeeded; so where it stands a Release puts the old value.
pub fn stale_descriptors()
    ensures { LaterOnesTell }
{}

/// The Claims share out the keys: each below the counter went to one worker, once.
pub fn claims()
    ensures { ClaimsShareOut }
{}

/// The conditions of the steps can be met: two workers take one descriptor to a success, which the
/// helper decides. A second one is withdrawn, with a late promotion of its mark, and a third fails.
pub fn a_run_to_a_success()
    ensures { ARunToASuccess }
{}
