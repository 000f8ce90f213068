//! Laws of commands and scripts. Each function does nothing; its contract is the law.

ghost use Rattle.command_session.specs.EngineSteps.{StepsAreEngineSteps};
ghost use Rattle.command_session.specs.ScriptLaws.{ScriptsStopOnce};
ghost use Rattle.command_session.specs.Spelling.{CommandsAreSpelled, RefusalsAreOfLines};

/// A text that is read as a command spells it, and a text that spells one is read so.
pub fn commands_are_spelled()
    ensures { CommandsAreSpelled }
{}

/// An event's refusal is that of the line after `event`.
pub fn refusals_are_of_lines()
    ensures { RefusalsAreOfLines }
{}

/// Each step of a session is steps of the model that an engine is to its callers: an event is
/// taken, a cursor is begun, as many answers are pulled as the session gives, a cursor is dropped,
/// a compaction is made. So what `query_engine` says of any run of its calls holds of sessions.
pub fn steps_are_engine_steps()
    ensures { StepsAreEngineSteps }
{}

/// A script stops in one way, whatever the order in which its cursors give their answers, and
/// likewise over queries that say the same.
pub fn scripts_stop_once()
    ensures { ScriptsStopOnce }
{}
