//! Which types a query reads.

ghost use Rattle.std.specs.Prelude.{◌≡◌, ℕ, ◌<◌, ◌==◌, false, slice_index_or, IfOk, length};
ghost use Rattle.std.specs.List.{list_any};
ghost use Rattle.cel_terms.specs.Answers.{types_of_stream};
ghost use Rattle.query_state.specs.QueryStates.{AreMarked, AreTypesRead};

use cel_terms::{Name, Query};
use cer_base::Memory;
use std::alloc::Global;
use stream_schema::{Schema, TypeId};

/// Marks the type, where the table has it.
fn mark(table: &mut [bool], ty: TypeId)
    ensures { AreMarked (λ t. ty == t) table.old table.new }
{
    let place = ty as usize;
    if place < table.len() {
        table[place] = true;
    }
}

/// Marks the types.
fn mark_types(table: &mut [bool], types: &[TypeId])
    ensures { AreMarked (λ ty. list_any (λ t. t == ty) types.now) table.old table.new }
{
    for ty in types {
        mark(table, *ty);
    }
}

/// Marks the types of the stream of this name.
fn mark_stream(table: &mut [bool], schema: &Schema, name: &Name)
    ensures { AreMarked (λ ty. list_any (λ t. t == ty)
        (types_of_stream schema.now.streams name.now.text)) table.old table.new }
{
    match schema.streams(name.text.as_str()) {
        Some(types) => mark_types(table, types.as_slice()),
        None => {}
    }
}

/// Marks the types of the streams of these names.
fn mark_streams(table: &mut [bool], schema: &Schema, names: &[Name])
    ensures { AreMarked (λ ty. list_any (λ n. list_any (λ t. t == ty)
        (types_of_stream schema.now.streams n.text)) names.now) table.old table.new }
{
    for name in names {
        mark_stream(table, schema, name);
    }
}

/// No mark for each type of the schema.
fn no_marks(alloc: Global, schema: &Schema) -> Result<Vec<bool>, Memory>
    ensures count { IfOk result (λ v. length v.items ≡ length schema.now.types) }
    ensures none { IfOk result (λ v. (ty : ℕ) → slice_index_or v.items ty false ≡ false) }
{
    let table = vec![in alloc; false; schema.types() as usize]?;
    Ok(table)
}

/// For each type, by its number, whether the query reads it. It goes through the types of the query's
/// streams once.
pub fn types_read(alloc: Global, schema: &Schema, query: &Query) -> Result<Vec<bool>, Memory>
    ensures { IfOk result (λ v. AreTypesRead schema.now query.now v.items) }
{
    let mut table = no_marks(alloc, schema)?;
    mark_streams(table.as_mut_slice(), schema, query.streams.as_slice());
    Ok(table)
}
