//! Look-ups in a schema: of names, and of the attributes of types that are given by their numbers.

ghost use Rattle.std.specs.Prelude.{◌≡◌, ℕ, List, true, false, ◌&&◌, bytes_eq, slice_get};
ghost use Rattle.std.specs.List.{list_any, list_all, filter_map};
ghost use Rattle.std.specs.Option.{option_map_or};
ghost use Rattle.cel_terms.specs.Answers.{types_of_stream};
ghost use Rattle.stream_schema.specs.Names.{is_taken};
ghost use Rattle.ceql_parser.specs.TypesAsked.{types_at, is_type_name, has_attr, some_has_attr, each_has_attr, is_whole};
ghost use Rattle.ceql_parser.specs.WantedKinds.{serves};

use stream_schema::{Attr, Kind, Schema, TypeId, are_alike};

/// Which kinds of an attribute serve.
#[derive(Debug, Clone, Copy, PartialEq, Eq)]
pub enum KindTest {
    Any,
    /// Those that compare with this one.
    Like(Kind),
    Whole,
}

fn serves(wanted: KindTest, kind: Kind) -> bool
    ensures { result ≡ serves wanted kind }
{
    match wanted {
        KindTest::Any => true,
        KindTest::Like(other) => are_alike(other, kind),
        KindTest::Whole => match kind {
            Kind::Int => true,
            _ => false,
        },
    }
}

fn is_attr(attr: &Attr, name: &str, wanted: KindTest) -> bool
    ensures { result ≡ (bytes_eq attr.now.name name.now && serves wanted attr.now.kind) }
{
    attr.name.as_str() == name && serves(wanted, attr.kind)
}

fn attrs_have(attrs: &[Attr], name: &str, wanted: KindTest) -> bool
    ensures { result ≡ list_any (λ a. bytes_eq a.name name.now && serves wanted a.kind) attrs.now }
{
    attrs.iter().any(|a| is_attr(a, name, wanted))
}

/// Whether the type has the attribute; `otherwise` where there is no such type.
fn type_has(schema: &Schema, number: TypeId, name: &str, wanted: KindTest, otherwise: bool) -> bool
    ensures { result ≡ option_map_or (has_attr name.now (serves wanted))
        (slice_get schema.now.types number) otherwise }
{
    match schema.attrs(number) {
        Some(attrs) => attrs_have(attrs, name, wanted),
        None => otherwise,
    }
}

fn some_have(schema: &Schema, numbers: &[TypeId], name: &str, wanted: KindTest) -> bool
    ensures { result ≡ list_any (λ n. option_map_or (has_attr name.now (serves wanted))
        (slice_get schema.now.types n) false) numbers.now }
{
    for number in numbers {
        if type_has(schema, *number, name, wanted, false) {
            return true;
        }
    }
    false
}

fn all_have(schema: &Schema, numbers: &[TypeId], name: &str, wanted: KindTest) -> bool
    ensures { result ≡ list_all (λ n. option_map_or (has_attr name.now (serves wanted))
        (slice_get schema.now.types n) true) numbers.now }
{
    for number in numbers {
        if !type_has(schema, *number, name, wanted, true) {
            return false;
        }
    }
    true
}

/// Whether one of the types has the attribute, with a kind that serves.
pub fn some_has_attr(schema: &Schema, numbers: &[TypeId], name: &str, wanted: KindTest) -> bool
    ensures { result ≡ some_has_attr (types_at schema.now numbers.now) name.now (serves wanted) }
{
    some_have(schema, numbers, name, wanted)
}

/// Whether each of the types has the attribute, with a kind that serves.
pub fn each_has_attr(schema: &Schema, numbers: &[TypeId], name: &str, wanted: KindTest) -> bool
    ensures { result ≡ each_has_attr (types_at schema.now numbers.now) name.now (serves wanted) }
{
    all_have(schema, numbers, name, wanted)
}

/// Whether a stream has the name.
pub fn is_stream(schema: &Schema, name: &str) -> bool
    ensures { result ≡ list_any (λ s. bytes_eq s.name name.now) schema.now.streams }
{
    match schema.streams(name) {
        Some(_) => true,
        None => false,
    }
}

/// Whether a type has the name.
#[tactic(auto, using(crate::proofs::TypesFound::type_found))]
pub fn is_type(schema: &Schema, name: &str) -> bool
    ensures { result ≡ is_type_name schema.now.types name.now }
{
    schema.type_of(name).is_some()
}

/// Whether a type or a stream has the name.
pub fn is_taken(schema: &Schema, name: &str) -> bool
    ensures { result ≡ is_taken schema.now name.now }
{
    is_type(schema, name) || is_stream(schema, name)
}

/// The types of the stream, none where no stream has the name.
pub fn types_in<'s>(schema: &'s Schema, name: &str) -> &'s [TypeId]
    ensures { result.now ≡ types_of_stream schema.now.streams name.now }
{
    match schema.streams(name) {
        Some(types) => types.as_slice(),
        None => &[],
    }
}
