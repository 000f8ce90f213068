//! Whether names are among those of a formula.

ghost use Rattle.ceql_parser.specs.FirstFaults.{first_in, FindsFault};
ghost use Rattle.ceql_parser.specs.FormulaFaults.{name_fault};

use crate::name_sets::NameSet;
use crate::refusals::{Checked, NameFault, unless_named};
use cel_terms::Name;
use std::alloc::Global;

/// Answers the fault of a name that is not among the names.
pub fn name_known(alloc: Global, names: &NameSet, name: &Name) -> Checked
    ensures { FindsFault result (name_fault names.now name.now) }
{
    let known = names.has(name.text.as_str());
    unless_named(alloc, known, NameFault::UnknownName, name)
}

/// Answers the fault at the first of the listed names that is not among the names.
pub fn names_known(alloc: Global, names: &NameSet, listed: &[Name]) -> Checked
    ensures { FindsFault result (first_in (name_fault names.now) listed.now) }
{
    for name in listed {
        match name_known(alloc, names, name) {
            Ok(()) => {}
            Err(stop) => return Err(stop),
        }
    }
    Ok(())
}
