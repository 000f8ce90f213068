//! The schema and the queries of the sample, built as terms.

ghost use Rattle.std.specs.Prelude.{◌≡◌, [], ◌∷◌, IfOk, OnOk};
ghost use Rattle.cel_terms.specs.declared.Formula.{Formula, Of};
ghost use Rattle.cel_terms.specs.declared.Pred.{Cmp};
ghost use Rattle.cel_terms.specs.declared.Filter.{On};
ghost use Rattle.stream_schema.specs.declared.Op.TheVariants.{Lt};
ghost use Rattle.cel_terms.specs.declared.Postfix.TheVariants.{Named};
ghost use Rattle.stream_schema.specs.declared.Value.TheVariants.{Int};
ghost use Rattle.std.specs.Prelude.{pos, codes, ◌+◌, ◌<◌, ◌^◌};
ghost use Rattle.command_sample.specs.Queries.{sample_schema, sample_attrs, name_at, IsPostOf, IsChainOf, AreAllOf, first_parts, first_filters, IsFirstFormula, IsSecondFormula, AreQueries, IsOfStream};

use cel_terms::{Filter, Formula, Name, Postfix, Pred, Query, Window};
use cer_base::{Listed, Location, Memory, OrMemory, Text};
use query_engine::Queries;
use std::alloc::Global;
use stream_schema::{Attr, Attrs, Kind, Op, Schema, SchemaFault, Value};

/// Nothing is declared twice here, so that a declaration fails where memory runs out alone.
fn memory_of(_stop: OrMemory<SchemaFault>) -> Memory {
    Memory
}

fn attrs(alloc: Global) -> Result<Attrs, Memory>
    ensures { IfOk result (λ attrs. attrs ≡ sample_attrs) }
{
    let v = Attr {
        name: Text::copy_of(alloc, "v")?,
        kind: Kind::Int,
    };
    Ok(Listed::of(vec![in alloc; v]?))
}

/// The names of the types.
fn type_names(alloc: Global) -> Result<Listed<Text>, Memory>
    ensures { IfOk result (λ names. names ≡ codes "A" ∷ codes "B" ∷ []) }
{
    let a = Text::copy_of(alloc, "A")?;
    let b = Text::copy_of(alloc, "B")?;
    Ok(Listed::of(vec![in alloc; a, b]?))
}

/// Declares the two types and the stream.
fn declare_all(alloc: Global, schema: &mut Schema) -> Result<(), Memory>
    requires { schema.old ≡ record { types = []; streams = [] } }
    ensures { OnOk result (schema.new ≡ sample_schema) }
{
    let attrs = attrs(alloc)?;
    let names = type_names(alloc)?;
    if let Err(stop) = schema.declare_event("A", &attrs) {
        return Err(memory_of(stop));
    }
    if let Err(stop) = schema.declare_event("B", &attrs) {
        return Err(memory_of(stop));
    }
    match schema.declare_stream("S", &names) {
        Ok(_) => Ok(()),
        Err(stop) => Err(memory_of(stop)),
    }
}

/// The schema with its two types and its stream.
pub fn sample_schema(alloc: Global) -> Result<Schema, Memory>
    ensures { IfOk result (λ schema. schema ≡ sample_schema) }
{
    let mut schema = Schema::new(alloc);
    declare_all(alloc, &mut schema)?;
    Ok(schema)
}

fn name_at(alloc: Global, text: &str, line: u64, col: u64) -> Result<Name, Memory>
    ensures { IfOk result (λ name. name ≡ name_at text.now line col) }
{
    Ok(Name {
        text: Text::copy_of(alloc, text)?,
        place: Location { line, col },
    })
}

/// The type with one postfix after it.
fn post(alloc: Global, ty: Name, postfix: Postfix) -> Result<Formula, Memory>
    ensures { IfOk result (IsPostOf (Of ty) (postfix ∷ [])) }
{
    Ok(Formula::Post(Box::new(alloc, Formula::Of(ty))?, vec![in alloc; postfix]?))
}

/// The value v is below 64.
fn is_small(alloc: Global, name: &str, col: u64) -> Result<Filter, Memory>
    requires { col + 2 < 2 ^ 64 }
    ensures { IfOk result (λ filter. filter ≡ On (name_at name.now 4 col)
        (Cmp (name_at (codes "v") 4 (col + 2)) Lt (Int (pos 64)))) }
{
    Ok(Filter::On(
        name_at(alloc, name, 4, col)?,
        Pred::Cmp(name_at(alloc, "v", 4, col + 2)?, Op::Lt, Value::Int(64)),
    ))
}

/// A type of the fourth line with a name after it, each at its column.
fn named(alloc: Global, ty: &str, ty_col: u64, name: &str, col: u64) -> Result<Formula, Memory>
    ensures { IfOk result (IsPostOf (Of (name_at ty.now 4 ty_col))
        (Named (name_at name.now 4 col) ∷ [])) }
{
    let ty = name_at(alloc, ty, 4, ty_col)?;
    let name = name_at(alloc, name, 4, col)?;
    post(alloc, ty, Postfix::Named(name))
}

/// A AS a ; B AS b
fn first_chain(alloc: Global) -> Result<Formula, Memory>
    ensures { IfOk result (IsChainOf first_parts) }
{
    let a = named(alloc, "A", 23, "a", 28)?;
    let b = named(alloc, "B", 32, "b", 37)?;
    Ok(Formula::Chain(vec![in alloc; a, b]?))
}

/// Both values are small.
fn both_small(alloc: Global) -> Result<Filter, Memory>
    ensures { IfOk result (λ both. AreAllOf first_filters (both ∷ [])) }
{
    let a = is_small(alloc, "a", 46)?;
    let b = is_small(alloc, "b", 60)?;
    Ok(Filter::All(vec![in alloc; a, b]?))
}

fn first_formula(alloc: Global) -> Result<Formula, Memory>
    ensures { IfOk result IsFirstFormula }
{
    let chain = Box::new(alloc, first_chain(alloc)?)?;
    let small = both_small(alloc)?;
    Ok(Formula::Under(chain, vec![in alloc; small]?))
}

fn second_formula(alloc: Global) -> Result<Formula, Memory>
    ensures { IfOk result IsSecondFormula }
{
    let a = post(alloc, name_at(alloc, "A", 5, 23)?, Postfix::Plus)?;
    let b = Formula::Of(name_at(alloc, "B", 5, 28)?);
    Ok(Formula::Chain(vec![in alloc; a, b]?))
}

fn of_stream(alloc: Global, line: u64, width: u64, formula: Formula) -> Result<Query, Memory>
    ensures { IfOk result (IsOfStream line width (λ f. f ≡ formula)) }
{
    Ok(Query {
        select: None,
        strict: false,
        any: None,
        streams: Listed::of(vec![in alloc; name_at(alloc, "S", line, 15)?]?),
        formula,
        partition: Listed::of(Vec::new(alloc)),
        window: Window::Events(width),
        place: Location { line, col: 1 },
    })
}

/// The two queries.
pub fn sample_queries(alloc: Global) -> Result<Queries, Memory>
    ensures { IfOk result AreQueries }
{
    let first = of_stream(alloc, 4, 8, first_formula(alloc)?)?;
    let second = of_stream(alloc, 5, 6, second_formula(alloc)?)?;
    Ok(Listed::of(vec![in alloc; first, second]?))
}
