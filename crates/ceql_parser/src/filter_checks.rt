//! The faults of a filter, in the order of its tokens.

ghost use Rattle.std.specs.Prelude.{◌≡◌, ℕ, List, []};
ghost use Rattle.ceql_parser.specs.FirstFaults.{first_in, FindsFault};
ghost use Rattle.ceql_parser.specs.FormulaFaults.{filter_fault, name_fault, pred_fault};
ghost use Rattle.std.specs.Option.{option_or};

use crate::name_checks::name_known;
use crate::name_sets::NameSet;
use crate::pred_checks::check_pred;
use crate::query_types::QueryTypes;
use crate::refusals::Checked;
use cel_terms::{Filter, Name, Pred};
use std::alloc::Global;

fn named(alloc: Global, types: &QueryTypes, names: &NameSet, name: &Name, pred: &Pred) -> Checked
    ensures { FindsFault result (option_or (name_fault names.now name.now)
        (pred_fault types.now pred.now)) }
{
    match name_known(alloc, names, name) {
        Ok(()) => check_pred(alloc, types, pred),
        Err(stop) => Err(stop),
    }
}

/// Answers the first fault of filters of a formula with these names.
#[cycle(filters)]
pub fn check_filters(
    alloc: Global,
    types: &QueryTypes,
    filters: &[Filter],
    names: &NameSet,
) -> Checked
    ensures { FindsFault result (first_in (filter_fault types.now names.now) filters.now) }
{
    for filter in filters {
        match check_filter(alloc, types, filter, names) {
            Ok(()) => {}
            Err(stop) => return Err(stop),
        }
    }
    Ok(())
}

#[cycle(filters)]
fn check_filter(alloc: Global, types: &QueryTypes, filter: &Filter, names: &NameSet) -> Checked
    ensures { FindsFault result (filter_fault types.now names.now filter.now) }
{
    match filter {
        Filter::On(name, pred) => named(alloc, types, names, name, pred),
        Filter::All(filters) => check_filters(alloc, types, filters, names),
        Filter::Any(filters) => check_filters(alloc, types, filters, names),
    }
}
