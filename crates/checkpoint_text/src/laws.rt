//! Laws of checkpoints. Each function does nothing; its contract is the law.

ghost use Rattle.checkpoint_text.specs.GoingOn.{ResumedOutputIsTheRest, RunsGoOn};
ghost use Rattle.checkpoint_text.specs.KeepLaws.{KeepersKeep, KeptTextGives, SavedIsRead, WrittenIsRead};
ghost use Rattle.checkpoint_text.specs.Spelling.{HistoriesAreSpelled};
ghost use Rattle.checkpoint_text.specs.Streams.{KeepersTellFalls, RestartingChangesNoAnswer};

/// A text that is read as a history spells it, and a text that spells one is read so.
pub fn histories_are_spelled()
    ensures { HistoriesAreSpelled }
{}

/// A keeper has of the events that came exactly those that some window still needs.
pub fn keepers_keep()
    ensures { KeepersKeep }
{}

/// The text that a keeper keeps of a line, without the carriage return at its end, gives the event
/// that the line gave.
pub fn kept_text_gives()
    ensures { KeptTextGives }
{}

/// What is written of lines is read as their stream.
pub fn written_is_read()
    ensures { WrittenIsRead }
{}

/// What is saved of the events that came is read as the stream of those that some window still
/// needs.
pub fn saved_is_read()
    ensures { SavedIsRead }
{}

/// A keeper tells exactly whose clock falls first with the next event, as the engine does.
pub fn keepers_tell_falls()
    ensures { KeepersTellFalls }
{}

/// From the end of the events that came on, the answers after all of them are those after what some
/// window still needs of them: so a run that goes on from a checkpoint loses none.
pub fn restarting_changes_no_answer()
    ensures { RestartingChangesNoAnswer }
{}

/// A run over all events writes what a run over the first writes, and after it one that goes on from
/// what is kept of them.
pub fn runs_go_on()
    ensures { RunsGoOn }
{}

/// In sorted order, and where no query has ANY, a run over all events writes what a run over the first
/// writes, and then what one writes that goes on from what is kept of them.
pub fn resumed_output_is_the_rest()
    ensures { ResumedOutputIsTheRest }
{}
