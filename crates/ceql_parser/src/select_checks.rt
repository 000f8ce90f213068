//! The faults of a SELECT.

ghost use Rattle.std.specs.Prelude.{◌≡◌, ℕ, List, [], ◌∷◌, nat_le, option_map};
ghost use Rattle.cel_terms.specs.Checked.{leaf_count, types_read};
ghost use Rattle.ceql_grammar.specs.declared.faults.QueryFault.TheVariants.{UnknownStream, UnknownAttribute};
ghost use Rattle.ceql_grammar.specs.declared.faults.QueryFault.TheVariants as fault;
ghost use Rattle.ceql_parser.specs.FirstFaults.{first_in, unless, unless_named, FindsFault};
ghost use Rattle.ceql_parser.specs.TypesAsked.{some_has_attr, any_kind};
ghost use Rattle.ceql_parser.specs.StatementFaults.{count_of, any_fault, is_stream, list_fault, window_fault, rest_fault, query_fault, select_fault};
ghost use Rattle.ceql_parser.specs.FormulaFaults.{formula_fault};

use crate::formula_checks::check_formula;
use crate::leaf_counts::leaf_count;
use crate::name_checks::names_known;
use crate::name_sets::NameSet;
use crate::pred_checks::check_known;
use crate::query_types::QueryTypes;
use crate::refusals::{Checked, NameFault, unless, unless_named};
use crate::schema_lookups::{KindTest, is_stream};
use cel_terms::{Name, Names, Query, Window};
use ceql_grammar::{NumberAt, QueryFault, Select};
use cer_base::limits::{MOST_LEAVES, MOST_QUERIES};
use cer_base::{Memory, OrMemory};
use std::alloc::Global;
use stream_schema::Schema;

/// How many answers ANY takes: 1 to 4294967295.
pub fn count_of(value: i64) -> Option<u64>
    ensures { result ≡ count_of value }
{
    if value < 1 || 4294967295 < value {
        None
    } else {
        Some(value as u64)
    }
}

fn check_any(any: Option<NumberAt>) -> Checked
    ensures { FindsFault result (any_fault any) }
{
    match any {
        None => Ok(()),
        Some(number) => {
            let fits = count_of(number.value).is_some();
            unless(fits, QueryFault::BadCount, number.place)
        }
    }
}

/// Answers the fault of a name that is no stream's.
fn check_from(alloc: Global, schema: &Schema, name: &Name) -> Checked
    ensures { FindsFault result (unless_named
        (is_stream schema.now name.now.text) UnknownStream name.now) }
{
    let known = is_stream(schema, name.text.as_str());
    unless_named(alloc, known, NameFault::UnknownStream, name)
}

fn check_streams(alloc: Global, schema: &Schema, streams: &[Name]) -> Checked
    ensures { FindsFault result (first_in (λ n.
        unless_named (is_stream schema.now n.text) UnknownStream n) streams.now) }
{
    for name in streams {
        match check_from(alloc, schema, name) {
            Ok(()) => {}
            Err(stop) => return Err(stop),
        }
    }
    Ok(())
}

fn check_list(alloc: Global, known: &NameSet, select: &Option<Names>) -> Checked
    ensures { FindsFault result (list_fault known.now select.now) }
{
    match select {
        None => Ok(()),
        Some(names) => names_known(alloc, known, names.as_slice()),
    }
}

fn check_partition(alloc: Global, types: &QueryTypes, partition: &[Name]) -> Checked
    ensures { FindsFault result (first_in (λ n.
        unless_named (some_has_attr types.now n.text any_kind) UnknownAttribute n) partition.now) }
{
    for name in partition {
        match check_known(alloc, types, name) {
            Ok(()) => {}
            Err(stop) => return Err(stop),
        }
    }
    Ok(())
}

fn check_window(alloc: Global, types: &QueryTypes, window: &Window) -> Checked
    ensures { FindsFault result (window_fault types.now window.now) }
{
    match window {
        Window::Free => Ok(()),
        Window::Events(_) => Ok(()),
        Window::Clock(name, _) => {
            let whole = types.each_has_attr(name.text.as_str(), KindTest::Whole);
            unless_named(alloc, whole, NameFault::WindowKind, name)
        }
    }
}

fn check_leaves(query: &Query) -> Checked
    ensures { FindsFault result (unless
        (nat_le (leaf_count query.now.formula) MOST_LEAVES) fault.TooManyLeaves query.now.place) }
{
    let few = leaf_count(&query.formula) <= MOST_LEAVES;
    unless(few, QueryFault::TooManyLeaves, query.place)
}

/// Answers the first fault of what is tested of a query once its formula is, which has these names.
fn check_rest(alloc: Global, types: &QueryTypes, known: &NameSet, query: &Query) -> Checked
    ensures { FindsFault result (rest_fault types.now known.now query.now) }
{
    match check_list(alloc, known, &query.select) {
        Ok(()) => {}
        Err(stop) => return Err(stop),
    }
    match check_leaves(query) {
        Ok(()) => {}
        Err(stop) => return Err(stop),
    }
    match check_partition(alloc, types, query.partition.as_slice()) {
        Ok(()) => {}
        Err(stop) => return Err(stop),
    }
    check_window(alloc, types, &query.window)
}

fn check_query(alloc: Global, types: &QueryTypes, query: &Query) -> Checked
    ensures { FindsFault result (query_fault types.now query.now) }
{
    match check_formula(alloc, types, &query.formula) {
        Ok(known) => check_rest(alloc, types, &known, query),
        Err(stop) => Err(stop),
    }
}

/// The types of the query are found, and then the query is checked.
fn check_typed(alloc: Global, schema: &Schema, query: &Query) -> Checked
    ensures { FindsFault result (query_fault (types_read schema.now query.now) query.now) }
{
    match QueryTypes::of(alloc, schema, query.streams.as_slice()) {
        Ok(types) => check_query(alloc, &types, query),
        Err(Memory) => Err(OrMemory::Memory),
    }
}

/// Answers the first fault of a SELECT before which there are so many queries.
pub fn check_select(alloc: Global, schema: &Schema, before: u64, select: &Select) -> Checked
    ensures { FindsFault result (select_fault schema.now before select.now) }
{
    let query = &select.query;
    match unless(
        before < MOST_QUERIES,
        QueryFault::TooManyQueries,
        query.place,
    ) {
        Ok(()) => {}
        Err(stop) => return Err(stop),
    }
    match check_any(select.any) {
        Ok(()) => {}
        Err(stop) => return Err(stop),
    }
    match check_streams(alloc, schema, query.streams.as_slice()) {
        Ok(()) => {}
        Err(stop) => return Err(stop),
    }
    check_typed(alloc, schema, query)
}
