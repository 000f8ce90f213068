//! Laws of services. Each function does nothing; its contract is the law.

ghost use Rattle.core_service.specs.HoldingLaws.{HeldCursorsGiveAllRows, HeldCursorsKeepAllRows};
ghost use Rattle.core_service.specs.Serving.{QuietLinesAreTurns, ServicesGiveAllRows, SomeRowsAreLeft};

/// After lines that were fed one after another, each pulled until nothing was left, the rows that were
/// given are exactly those of the text's queries over the events of the lines that were taken, position
/// by position and query by query, each once.
pub fn services_give_all_rows()
    ensures { ServicesGiveAllRows }
{}

/// What is said of the rows that are left is said of some: a service cannot be said to leave none by
/// being in a state of which nothing holds.
pub fn some_rows_are_left()
    ensures { SomeRowsAreLeft }
{}

/// Lines that `feed_some` takes without a stop are such lines as the law above speaks of: after the event
/// of each no answer is left, so none is missed.
pub fn quiet_lines_are_turns()
    ensures { QuietLinesAreTurns }
{}

/// A cursor is held after lines that were served. Whatever is asked of the service since then, further
/// lines, compactions and other cursors among it, but that the cursor be dropped: what it has given, and
/// behind it what it has left, are exactly the rows of its query over the events of those lines at the
/// last of them, each once.
pub fn held_cursors_keep_all_rows()
    ensures { HeldCursorsKeepAllRows }
{}

/// So a cursor that is pulled, in whatever places between, until it has none left has given exactly the
/// rows of its query at the position where it was opened, each once.
pub fn held_cursors_give_all_rows()
    ensures { HeldCursorsGiveAllRows }
{}
