//! The leaves of a query.

ghost use Rattle.std.specs.Prelude.{◌≡◌, IfOk};
ghost use Rattle.cel_terms.specs.Checked.{IsChecked};
ghost use Rattle.query_leaves.specs.Expand.{tree_of};
ghost use Rattle.query_leaves.specs.Leaves.{occurrences, numbered};
ghost use Rattle.query_leaves.specs.Shapes.{tree_of_shape, AreLeavesOf};
ghost use Rattle.query_leaves.specs.Lawful.{AreNumbered, IsLawful};

use crate::Leaves;
use crate::context::Context;
use crate::expand::tree_of;
use crate::numbering::numbered;
use cel_terms::Query;
use cer_base::{Listed, Memory};
use std::alloc::Global;
use stream_schema::Schema;

/// The leaves of the query. An alternative in a filter makes a copy of all that it filters, and each
/// test goes to the types whose positions it speaks of. The leaves of a query that is checked for the
/// schema are lawful. The only error is that memory ran out.
pub fn leaves_of(alloc: Global, schema: &Schema, query: &Query) -> Result<Leaves, Memory>
    ensures shape { IfOk result (λ l. tree_of_shape l.shape ≡ numbered 0 (tree_of query.now)) }
    ensures list { IfOk result (λ l.
        AreLeavesOf schema.now (occurrences (tree_of query.now)) l.list) }
    ensures strict { IfOk result (λ l. l.strict ≡ query.now.strict) }
    ensures numbered { IfOk result AreNumbered }
    ensures lawful { IsChecked schema.now query.now → IfOk result IsLawful }
{
    let draft = tree_of(alloc, query)?;
    let mut list = Vec::new(alloc);
    let mut made = Vec::new(alloc);
    let above = Context::empty(alloc);
    let shape = numbered(alloc, schema, &draft, &above, &mut list, &mut made)?;
    Ok(Leaves {
        list: Listed::of(list),
        shape,
        strict: query.strict,
    })
}
