//! Laws of a worker's steps. They do nothing when they run.

ghost use Rattle.rh_worker.specs.Laws.{KeysAreDone};

/// What a step makes of a worker's own acts: none is added until the key is done, and then those by
/// which it is done, as its answer says.
pub fn keys_are_done()
    ensures { KeysAreDone }
{}
