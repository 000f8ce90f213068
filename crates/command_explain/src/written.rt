//! The explanation over a source, written to a sink.

ghost use Rattle.stream_answers.specs.RunEnds.{HasReadCause, HasWriteCause};
ghost use Rattle.command_explain.specs.ExplanationOutput.{WroteExplanation};

use crate::explanation::explanation;
use cel_terms::Query;
use cer_base::limits::MOST_BYTES;
use cer_base::{Memory, OrMemory};
use cer_outside::writing::put_all;
use cer_outside::{Sink, Source, WriteFault};
use command_words::Question;
use event_run::read_events;
use std::alloc::Global;
use stream_answers::{StreamFault, stream_fault};
use stream_schema::Schema;

/// Reads all events of the source and writes what explains the complex event: the line of the
/// answer and a line for each name with its positions, or `none` where the query has no such answer.
/// The marked positions may come in any order; one that is given twice counts once.
///
/// It is written once all is read, so after every fault but one of the sink nothing was written,
/// and likewise where memory ran out. The time is that of `match_explain::explain`, and for each
/// event that of each query.
pub fn write_explanation<Q: Source, K: Sink>(
    alloc: Global,
    schema: &Schema,
    queries: &[Query],
    question: &Question,
    source: &mut Q,
    out: &mut K,
) -> Result<(), OrMemory<StreamFault>>
    ensures wrote { WroteExplanation (record {
      schema = schema.now;
      queries = queries.now;
      question = question.now;
    })
        (Q.left source.old) (Q.left source.new) (K.taken out.old) (K.taken out.new) result }
    ensures read_cause { HasReadCause (Q.faults source.old) (Q.faults source.new) result }
    ensures write_cause { HasWriteCause (K.faults out.old) (K.faults out.new) result }
{
    let events = match read_events(alloc, schema, queries, MOST_BYTES, source) {
        Ok(events) => events,
        Err(stop) => return Err(stream_fault(stop)),
    };
    let text = match explanation(alloc, schema, queries, events.as_slice(), question) {
        Ok(text) => text,
        Err(Memory) => return Err(OrMemory::Memory),
    };
    match put_all(out, text.as_slice()) {
        Ok(()) => Ok(()),
        Err(WriteFault) => Err(OrMemory::Fault(StreamFault::WriteFault)),
    }
}
