//! Laws of what is saved and of runs that go on. Each is the contract of a function that does nothing.

ghost use Rattle.command_checkpoint.specs.Rereading.{CheckpointsAreRead};
ghost use Rattle.command_checkpoint.specs.TwoParts.{RunsNeverFall, SavedRunsGoOn};

use checkpoint_text::laws::{keepers_keep, saved_is_read};

/// The checkpoint of a file is read as the stream of its events, with blank ones for those that no
/// window needs any more.
pub fn checkpoints_are_read()
    ensures { CheckpointsAreRead }
{
    keepers_keep();
    saved_is_read();
}

/// The events that queries take of a file are of the schema, and along them no clock falls.
pub fn runs_never_fall()
    ensures { RunsNeverFall }
{}

/// A run over two files as one writes what a run over the first writes, and then what one over the
/// second writes that goes on from what was saved of the first.
pub fn saved_runs_go_on()
    ensures { SavedRunsGoOn }
{}
