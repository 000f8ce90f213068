//! Laws of runs. Each is the contract of a function that does nothing.

ghost use Rattle.event_run.specs.RunLaws.{FilesFollow, RunsAreOne, SomeRunIs};

/// Queries that say the same take the same events of a file and stop in the same way.
pub fn runs_are_one()
    ensures { RunsAreOne }
{}

/// Every file has a run.
pub fn some_run_is()
    ensures { SomeRunIs }
{}

/// Where the first of two files ends with a line feed and the second does not begin with a byte order
/// mark, the events of both as one file are those of the first and then those of the second.
pub fn files_follow()
    ensures { FilesFollow }
{}
