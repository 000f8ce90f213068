//! All lines of a script, carried out in order.

ghost use Rattle.std.specs.Prelude.{◌≡◌, ◌≤◌, ℕ, List, [], false, Some, All};
ghost use Rattle.cel_terms.specs.Checked.{IsChecked};
ghost use Rattle.event_reader.specs.LineReaders.{HasGiven};
ghost use Rattle.query_engine.specs.Engine.{count_of};
ghost use Rattle.stream_answers.specs.RunEnds.{HasReadCause, HasWriteCause};
ghost use Rattle.cer_base.specs.declared.limits.TheConstants as most;
ghost use Rattle.command_session.specs.SessionModel.{at_first};
ghost use Rattle.command_session.specs.Sessions.{Stands, put_by_in};
ghost use Rattle.command_session.specs.Scripts.{WrotePlay};
ghost use Rattle.command_session.specs.Turns.{StepsOverPlay};
ghost use Rattle.command_session.specs.Playing.{line_stop};

use crate::Session;
use crate::lines::play_line;
use cer_base::limits::MOST_BYTES;
use cer_base::seed::Seed;
use cer_base::steps::Steps;
use cer_base::{Memory, OrMemory};
use cer_outside::{Sink, Source};
use event_reader::{EventFault, LineFault, Lines, Next};
use query_engine::Queries;
use std::alloc::Global;
use std::sync::ledger::Ledger;
use stream_answers::StreamFault;
use stream_schema::Schema;

/// Carries out the lines of the source in order, on a session that begins with no event and no open
/// cursor, and whose engine's tables hash by the seed. The queries are checked for the schema. A
/// line that is empty but for a carriage return is passed over.
///
/// The steps are bounded by the commands that were carried out, each on the model that it found: an
/// event takes 28 times the bound of an update for each query, which pays for the compactions that
/// the session makes by itself, an opening that of its query, a pull the delay of each of its
/// answers and one, a compaction nine times the bound of an update for each query and event. Where
/// a write failed or memory ran out, the command that was begun counts too.
///
/// The first fault ends it, after the commands before it were carried out:
///
/// - `Event`: the line of this number is too long, is no command, or its command is refused.
/// - `InputTooLong`: the script has `MOST_BYTES` bytes or more.
/// - `ReadFault`: the source failed; all lines that it gave whole were carried out before.
/// - `WriteFault`: the sink failed, and took a proper first part of what the lines so far write.
/// - Memory ran out: it took a first part of that.
pub fn play_script<Q: Source, K: Sink, L: Ledger>(
    alloc: Global,
    seed: Seed,
    schema: Schema,
    queries: Queries,
    source: &mut Q,
    out: &mut K,
    steps: &mut Steps<L>,
) -> Result<(), OrMemory<StreamFault>>
    requires { All (IsChecked schema) queries }
    ensures wrote { WrotePlay (record {
      schema = schema;
      queries = queries;
      most_bytes = most.MOST_BYTES;
    })
        (Q.left source.old) (Q.left source.new) (K.taken out.old) (K.taken out.new) result }
    ensures steps { (script : List ℕ) → Q.left source.old ≡ Some script
        → StepsOverPlay (record {
          schema = schema;
          queries = queries;
          most_bytes = most.MOST_BYTES;
        })
        script (K.taken out.old) (K.taken out.new) steps.old steps.new result }
    ensures read_cause { HasReadCause (Q.faults source.old) (Q.faults source.new) result }
    ensures write_cause { HasWriteCause (K.faults out.old) (K.faults out.new) result }
{
    let mut session = match Session::seeded(alloc, seed, schema, queries) {
        Ok(session) => session,
        Err(Memory) => return Err(OrMemory::Memory),
    };
    let mut lines = match Lines::new(alloc, MOST_BYTES) {
        Ok(lines) => lines,
        Err(Memory) => return Err(OrMemory::Memory),
    };
    play_lines(alloc, &mut lines, &mut session, source, out, steps)
}

/// Carries out all further lines.
fn play_lines<Q: Source, K: Sink, L: Ledger>(
    alloc: Global,
    lines: &mut Lines,
    session: &mut Session,
    source: &mut Q,
    out: &mut K,
    steps: &mut Steps<L>,
) -> Result<(), OrMemory<StreamFault>>
    requires fresh { Stands session.old at_first }
    requires going { session.old.closed ≡ false }
    requires open { lines.old.closed ≡ false }
    requires nothing_put_by { put_by_in session.old ≡ 0 }
    requires counted { count_of session.old.engine ≤ lines.old.number }
    requires given { (bytes : List ℕ) → HasGiven lines.old bytes (Some bytes) [] }
    ensures wrote { WrotePlay (record {
      schema = session.old.engine.schema;
      queries = session.old.engine.queries;
      most_bytes = lines.old.budget;
    })
        (Q.left source.old) (Q.left source.new) (K.taken out.old) (K.taken out.new) result }
    ensures steps { (script : List ℕ) → Q.left source.old ≡ Some script
        → StepsOverPlay (record {
          schema = session.old.engine.schema;
          queries = session.old.engine.queries;
          most_bytes = lines.old.budget;
        })
        script (K.taken out.old) (K.taken out.new) steps.old steps.new result }
    ensures read_cause { HasReadCause (Q.faults source.old) (Q.faults source.new) result }
    ensures write_cause { HasWriteCause (K.faults out.old) (K.faults out.new) result }
{
    loop {
        match lines.next(source) {
            Ok(Next::Line) => {}
            Ok(Next::End) => return Ok(()),
            Err(fault) => return Err(OrMemory::Fault(line_stop(fault))),
        }
        match play_line(alloc, lines.number(), lines.text(), session, out, steps) {
            Ok(()) => {}
            Err(stop) => return Err(stop),
        }
    }
}

/// Why there is no further line.
fn line_stop(fault: LineFault) -> StreamFault
    ensures { result ≡ line_stop fault }
{
    match fault {
        LineFault::ReadFault => StreamFault::ReadFault,
        LineFault::LineTooLong { line } => StreamFault::Event {
            line,
            fault: EventFault::LineTooLong,
        },
        LineFault::InputTooLong { taken } => StreamFault::InputTooLong { taken },
    }
}
