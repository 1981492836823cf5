//! Laws of the rule. They do nothing when they run.

ghost use Rattle.rh_rule.specs.Core.{EachStepOnWordsKeeps};
ghost use Rattle.rh_rule.specs.Rest.{TableTells, TableRests};
ghost use Rattle.rh_rule.specs.Sound.{ViewsAreSound, StepsFind};
ghost use Rattle.rh_rule.specs.Wipes.{TableStarts, WipeBegins, WipeStores, WipeEnds};

/// Each allowed step of any worker keeps the rule of the table, for up to 16 workers, and takes its
/// world to the next one.
pub fn each_step_keeps()
    ensures { EachStepOnWordsKeeps }
{}

/// What a worker may rely on: what its steps find, and that what it noted fits the table and does
/// not contradict itself.
pub fn workers_rely()
    ensures sound { ViewsAreSound }
    ensures find { StepsFind }
{}

/// What the rule says at any moment of what is kept of the workers: the acts stand in one order,
/// and each kept read and each failed descriptor has its prefix of them, which never goes back.
pub fn tells()
    ensures { TableTells }
{}

/// Where all workers are at rest, no mark and no descriptor stands in a cell: each holds the
/// opening cell changed act by act, and the acts of a worker are those of its descriptors that it
/// noted as succeeded.
pub fn rests()
    ensures { TableRests }
{}

/// A table starts under the rule, with plain cells and no word but theirs.
pub fn table_starts()
    ensures { TableStarts }
{}

/// A wipe keeps the rule, from its start to its end.
pub fn a_wipe_keeps()
    ensures begins { WipeBegins }
    ensures stores { WipeStores }
    ensures ends { WipeEnds }
{}
