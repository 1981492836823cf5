//! Laws of acts. They do nothing when they run.

ghost use Rattle.rh_acts.specs.Laws.{InsertActPutsIn, RemoveActTakesOut};
ghost use Rattle.rh_acts.specs.Laws.{AbsenceActChangesNothing, AnswerIsChange};
ghost use Rattle.rh_acts.specs.Laws.{MeetOneByOne, OneMoreAct, OneMoreIsOwn, ReadsStayTrue};
ghost use Rattle.rh_acts.specs.Laws.{InsertionsGrow, RemovalsShrink, ActsAreAPhase};
ghost use Rattle.rh_acts.specs.Laws.{PhaseIsOfJoinedLists, AnswersAreLookUps};
ghost use Rattle.rh_acts.specs.Laws.{RoundsAreOnePhase, SharedListIsOneList};
ghost use Rattle.rh_acts.specs.Laws.{OneMoreIsDone, MoreIsRead, AnswersCountChanges};

/// One act, on a layout of a set that it meets, leaves the layout of the changed set.
pub fn one_act()
    ensures insert { InsertActPutsIn }
    ensures remove { RemoveActTakesOut }
    ensures absence { AbsenceActChangesNothing }
    ensures is_change { AnswerIsChange }
{}

/// How a list of acts grows: what becomes of the cells, of each worker's own acts, and of the reads
/// that were kept.
pub fn lists_of_acts()
    ensures one_by_one { MeetOneByOne }
    ensures one_more { OneMoreAct }
    ensures own { OneMoreIsOwn }
    ensures reads { ReadsStayTrue }
{}

/// In a phase that inserts, or removes, the cells are at every moment the layout of the set that
/// the acts so far have made, and the acts count how it changed: they are a phase over their own
/// keys.
pub fn at_every_moment()
    ensures insert { InsertionsGrow }
    ensures remove { RemovalsShrink }
    ensures in_order { ActsAreAPhase }
{}

/// What several workers make of their lists is what one worker makes of the lists joined: the cells
/// are the layout of the same set, and the tally and the answers are the same.
pub fn finished_phase()
    ensures cells_and_tally { PhaseIsOfJoinedLists }
    ensures answers { AnswersAreLookUps }
{}

/// Lists that are done in two rounds are the whole lists, and a list whose positions the workers
/// claim is the one list.
pub fn rounds_and_shares()
    ensures rounds { RoundsAreOnePhase }
    ensures shares { SharedListIsOneList }
{}

/// What a worker has done of its list grows key by key, and stays done when more was read. As many
/// keys were added or removed as there are acts of it that changed a cell.
pub fn done_keys()
    ensures one_more { OneMoreIsDone }
    ensures more_read { MoreIsRead }
    ensures answers { AnswersCountChanges }
{}
