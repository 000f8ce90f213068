//! Laws of the position automaton of a query. Each function does nothing; its contract is the law.

ghost use Rattle.cea_compile.specs.DeterminisedRuns.{AnswersAreAcceptedRuns};
ghost use Rattle.cea_compile.specs.LeafAutomaton.{LeavesTellQuery};

/// A query has an answer at an end exactly where its marks ascend, the determinised run that takes
/// them accepts, and the interval is in the window.
pub fn answers_are_accepted_runs()
    ensures { AnswersAreAcceptedRuns }
{}

/// The leaves of a query tell its position automaton, and which of them can read an event.
pub fn leaves_tell_query()
    ensures { LeavesTellQuery }
{}
