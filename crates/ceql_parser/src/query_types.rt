//! The types that a query reads, each once, so that a name is found by one look-up.

ghost use Rattle.std.specs.Prelude.{◌≡◌, ◌∷◌, ◌++◌, [], IfOk, OnOk};
ghost use Rattle.cel_terms.specs.Answers.{query_types};
ghost use Rattle.ceql_parser.specs.NameSets.{HaveSameNames};
ghost use Rattle.ceql_parser.specs.QueryTypes.{AddsStream, HaveSameNumbers, HaveSameTypes};
ghost use Rattle.ceql_parser.specs.TypesAsked.{types_at, is_type_name, some_has_attr, each_has_attr};
ghost use Rattle.ceql_parser.specs.WantedKinds.{serves};

use crate::name_sets::NameSet;
use crate::schema_lookups::{KindTest, each_has_attr, some_has_attr, types_in};
use cel_terms::Name;
use cer_base::Memory;
use indexmap::IndexSet;
use std::alloc::Global;
use std::marker::Model;
use stream_schema::{Schema, TypeId};

/// The types that a query reads, each once, seen as what is declared of them.
#[derive(Drop)]
pub struct QueryTypes<'s> {
    schema: &'s Schema,
    numbers: IndexSet<TypeId>,
}

impl<'s> Model for QueryTypes<'s> {
    ghost use Rattle.std.specs.Prelude.{List};
    ghost use Rattle.stream_schema.specs.Types.{DeclaredType};
    ghost use Rattle.ceql_parser.specs.TypesAsked.{types_at as declared_at};

    ghost Value = { List DeclaredType };

    ghost view = { λ t. declared_at t.schema.now t.numbers.keys };
}

impl<'s> QueryTypes<'s> {
    /// The types of these streams.
    pub fn of(alloc: Global, schema: &'s Schema, streams: &[Name]) -> Result<QueryTypes<'s>, Memory>
        ensures { IfOk result (λ types.
            HaveSameTypes types (types_at schema.now (query_types schema.now streams.now))) }
    {
        let numbers = numbers_in(alloc, schema, streams)?;
        Ok(QueryTypes { schema, numbers })
    }

    /// Whether one of the types has the name.
    pub fn is_type_name(&self, name: &str) -> bool
        ensures { result ≡ is_type_name self.now name.now }
    {
        match self.schema.type_of(name) {
            Some(number) => self.numbers.contains(&number),
            None => false,
        }
    }

    /// Whether one of the types has the attribute, with a kind that serves.
    pub fn some_has_attr(&self, name: &str, wanted: KindTest) -> bool
        ensures { result ≡ some_has_attr self.now name.now (serves wanted) }
    {
        some_has_attr(self.schema, self.numbers.as_slice(), name, wanted)
    }

    /// Whether each of the types has the attribute, with a kind that serves.
    pub fn each_has_attr(&self, name: &str, wanted: KindTest) -> bool
        ensures { result ≡ each_has_attr self.now name.now (serves wanted) }
    {
        each_has_attr(self.schema, self.numbers.as_slice(), name, wanted)
    }
}

fn add_numbers(numbers: &mut IndexSet<TypeId>, types: &[TypeId]) -> Result<(), Memory>
    ensures { OnOk result (HaveSameNumbers numbers.new.keys (numbers.old.keys ++ types.now)) }
{
    for number in types {
        numbers.insert(*number)?;
    }
    Ok(())
}

/// Adds the types of the stream, where the stream is not among those seen.
fn add_stream(
    alloc: Global,
    schema: &Schema,
    seen: &mut NameSet,
    numbers: &mut IndexSet<TypeId>,
    name: &Name,
) -> Result<(), Memory>
    ensures names { OnOk result (HaveSameNames seen.new (seen.old ++ name.now.text ∷ [])) }
    ensures numbers { OnOk result (AddsStream schema.now seen.old
        numbers.old.keys numbers.new.keys name.now.text) }
{
    if !seen.has(name.text.as_str()) {
        add_numbers(numbers, types_in(schema, name.text.as_str()))?;
    }
    seen.add(alloc, name.text.as_str())
}

/// The numbers of the types of these streams, each once.
fn numbers_in(alloc: Global, schema: &Schema, streams: &[Name]) -> Result<IndexSet<TypeId>, Memory>
    ensures { IfOk result (λ numbers.
        HaveSameNumbers numbers.keys (query_types schema.now streams.now)) }
{
    let mut seen = NameSet::new(alloc);
    let mut numbers = IndexSet::new(alloc);
    for name in streams {
        add_stream(alloc, schema, &mut seen, &mut numbers, name)?;
    }
    Ok(numbers)
}
