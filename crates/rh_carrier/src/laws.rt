//! Laws of what workers rely on. They do nothing when they run.

ghost use Rattle.rh_carrier.specs.Relies.{WorkersRely};

/// Under the rule of a table each of its workers may rely on what the steps find and on what its
/// own rows say.
pub fn workers_rely()
    ensures { WorkersRely }
{}
