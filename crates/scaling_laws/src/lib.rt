//! Laws of answers where a stream or a text of queries is split, for those who share the work out over
//! several engines. Each function does nothing; its contract is the law.
//!
//! A window of so many events counts all of the stream, so what it answers does not split by key; a
//! sequence number as an attribute, and a window on that, does.
#![tactic(auto)]

ghost use Rattle.scaling_laws.specs.Shards.{ShardsAnswerForTheirKeys};
ghost use Rattle.scaling_laws.specs.Alone.{QueriesAnswerAlone};

/// A shard that has all events of a key answers for this key as the whole stream does: at each event of
/// the key the answers over the shard, put back to their places in the whole, are those over the whole,
/// each once. So over shards that share the keys out each answer comes once.
pub fn shards_answer_for_their_keys()
    ensures { ShardsAnswerForTheirKeys }
{}

/// What a query answers does not depend on the other queries of its text: its rows are those of a text
/// that has it alone.
pub fn queries_answer_alone()
    ensures { QueriesAnswerAlone }
{}
