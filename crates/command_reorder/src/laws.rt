//! Laws of late feeds. Each is the contract of a function that does nothing.

ghost use Rattle.command_reorder.specs.Laws.{LateRunsAreOne, SomeLateRunIs};

/// The queries take one list of events of a file, and stop in one way.
pub fn late_runs_are_one()
    ensures { LateRunsAreOne }
{}

/// Every file has a run.
pub fn some_late_run_is()
    ensures { SomeLateRunIs }
{}
