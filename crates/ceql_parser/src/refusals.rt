//! Faults with their places.

ghost use Rattle.std.specs.Prelude.{◌≡◌, List, ℕ, IfOk};
ghost use Rattle.ceql_parser.specs.FirstFaults.{FindsFault, unless, unless_named};
ghost use Rattle.ceql_parser.specs.NameFaults.{fault_of};

use cel_terms::Name;
use ceql_grammar::{QueryError, QueryFault};
use cer_base::{Location, Memory, OrMemory, Text};
use std::alloc::Global;
use stream_schema::Kind;

/// A call that finds the first fault, or none.
pub type Checked = Result<(), OrMemory<QueryError>>;

/// What is wrong with a name.
#[derive(Debug, Clone, Copy, PartialEq, Eq)]
pub enum NameFault {
    NameTaken,
    UnknownType,
    UnknownStream,
    UnknownName,
    UnknownAttribute,
    /// The attribute has no kind that compares with this one.
    NeverKind(Kind),
    WindowKind,
}

/// The fault with the name.
fn fault_of(alloc: Global, wrong: NameFault, name: &str) -> Result<QueryFault, Memory>
    ensures { IfOk result (λ fault. fault ≡ fault_of wrong name.now) }
{
    let name = Text::copy_of(alloc, name)?;
    Ok(match wrong {
        NameFault::NameTaken => QueryFault::NameTaken { name },
        NameFault::UnknownType => QueryFault::UnknownType { name },
        NameFault::UnknownStream => QueryFault::UnknownStream { name },
        NameFault::UnknownName => QueryFault::UnknownName { name },
        NameFault::UnknownAttribute => QueryFault::UnknownAttribute { name },
        NameFault::NeverKind(kind) => QueryFault::NeverKind { name, kind },
        NameFault::WindowKind => QueryFault::WindowKind { name },
    })
}

/// Answers the fault at the place, unless the test passes.
pub fn unless(passes: bool, fault: QueryFault, place: Location) -> Checked
    ensures { FindsFault result (unless passes fault place) }
{
    if passes {
        Ok(())
    } else {
        Err(OrMemory::Fault(QueryError { fault, place }))
    }
}

/// Answers the fault with the name, at its place, unless the test passes.
pub fn unless_named(alloc: Global, passes: bool, wrong: NameFault, name: &Name) -> Checked
    ensures { FindsFault result (unless_named passes (fault_of wrong) name.now) }
{
    if passes {
        return Ok(());
    }
    match fault_of(alloc, wrong, name.text.as_str()) {
        Ok(fault) => Err(OrMemory::Fault(QueryError {
            fault,
            place: name.place,
        })),
        Err(Memory) => Err(OrMemory::Memory),
    }
}
