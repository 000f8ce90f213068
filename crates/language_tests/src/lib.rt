//! What is read, as tests. Of texts: what a schema takes and refuses, which statements a text is, what
//! it declares and asks, or its first fault with its place. Of small queries: the answers by the
//! definition, the leaves, which leaves an event meets, and by which events an answer came about. Of
//! input: files, sources and sinks that fail where they are told to, lines however a source cuts them,
//! events and what refuses a line, and events that come late. Nothing else stands here.
//! It stands on `ceql_parser` and what that reads by, `query_leaves`, `predicate_bits`, `cel_plain` and
//! `match_explain`, and on `cer_outside`, `event_reader` and `reorder_gate`.
#![tactic(auto)]

#[cfg(test)]
mod tests;
