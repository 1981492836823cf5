//! Laws of what the calls leave. They do nothing when they run.

ghost use Rattle.rh_kcas.specs.Failures.{FailuresTell};
ghost use Rattle.rh_kcas.specs.Reads.{OwnChangesAreRead, ReadsTell};

/// A K-CAS that failed says at which of its entries: after some first acts of all workers its cell
/// held another value than the old one. All acts that the worker had made before the call are among
/// them, and they are not fewer than those at anything that it had read.
pub fn failures_tell()
    ensures { FailuresTell }
{}

/// A read says of the acts of all workers: after some first ones the cell held the word. All acts
/// that the worker had made before the call are among them, and they are not fewer than those at
/// anything that it had read: it reads its own changes back, and never goes back behind what it
/// read.
pub fn reads_tell()
    ensures { ReadsTell }
{}

/// Of a cell that it changed itself a worker reads the new word, unless an act of another worker
/// came between.
pub fn own_changes_are_read()
    ensures { OwnChangesAreRead }
{}
