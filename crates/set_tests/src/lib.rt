//! Sets, lists and automata by hand, as tests: what the contracts of the crates below say in general,
//! by values from outside. Nothing stands on this crate, and it promises nothing.
//!
//! They are tables of successors, of accepting states and of the number of states of small queries,
//! which were worked out by hand; a chain of more leaves than a word has bits; on four events, every
//! run of the automaton beside the plain evaluator's answers; sets that are made node by node and
//! listed again; a list that takes in some nodes, and the lists of each state after each event of small
//! patterns; and compactions, with how many nodes stay and which members are still given.
//! It stands on `ceql_parser`, `predicate_bits`, `cea_compile`, `cea_determinise` and `cel_plain` for the
//! automata, on `tecs_arena`, `tecs_nodes`, `tecs_enumerate`, `union_lists`, `event_update` and
//! `arena_compact` for the sets.
#![tactic(auto)]

#[cfg(test)]
mod compactions;
#[cfg(test)]
mod listings;
#[cfg(test)]
mod lists;
#[cfg(test)]
mod machines;
#[cfg(test)]
mod matches;
pub mod part;
#[cfg(test)]
mod parts;
#[cfg(test)]
mod patterns;
#[cfg(test)]
mod runs;
#[cfg(test)]
mod tables;
#[cfg(test)]
mod tests;
