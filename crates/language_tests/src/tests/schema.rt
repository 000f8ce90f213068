use cer_base::{Listed, Memory, OrMemory, Text};
use std::alloc::Global;
use std::process::Abort;
use std::test::Fail;
use stream_schema::{Attr, AttrAt, Attrs, Kind, Schema, SchemaFault, Texts, TypeId};

fn texts(alloc: Global, names: &[&str]) -> Result<Texts, Memory> {
    let mut list = Vec::new(alloc);
    for name in names {
        list.push(Text::copy_of(alloc, name)?)?;
    }
    Ok(Listed::of(list))
}

fn attrs(alloc: Global, names: &[&str]) -> Result<Attrs, Memory> {
    let mut list = Vec::new(alloc);
    for name in names {
        list.push(Attr {
            name: Text::copy_of(alloc, name)?,
            kind: Kind::Dec(2),
        })?;
    }
    Ok(Listed::of(list))
}

fn declare_event(
    alloc: Global,
    schema: &mut Schema,
    name: &str,
    names: &[&str],
) -> Result<TypeId, OrMemory<SchemaFault>> {
    let given = attrs(alloc, names)?;
    schema.declare_event(name, &given)
}

fn declare_stream(
    alloc: Global,
    schema: &mut Schema,
    name: &str,
    names: &[&str],
) -> Result<(), OrMemory<SchemaFault>> {
    let given = texts(alloc, names)?;
    schema.declare_stream(name, &given)
}

/// What a row shows, a type's name, its attributes, and how its declaration ends.
const EVENTS: &[(&str, &str, [&str; 2], Result<TypeId, OrMemory<SchemaFault>>)] = &[
    ("the first type has the number 0", "A", ["v", "w"], Ok(0)),
    (
        "an attribute stands twice",
        "B",
        ["v", "v"],
        Err(OrMemory::Fault(SchemaFault::AttrTwice)),
    ),
    (
        "a type's name is taken, which is told first",
        "A",
        ["v", "v"],
        Err(OrMemory::Fault(SchemaFault::NameTaken)),
    ),
    ("the second type has the number 1", "B", ["w", "v"], Ok(1)),
];

/// The first type whose declaration ends in another way.
fn wrong_event(alloc: Global, schema: &mut Schema) -> Option<&'static str> {
    for (row, name, names, wanted) in EVENTS {
        if declare_event(alloc, schema, name, names) != *wanted {
            return Some(*row);
        }
    }
    None
}

/// What a row shows, a stream's name, its types, and how its declaration ends.
const STREAMS: &[(&str, &str, [&str; 2], Result<(), OrMemory<SchemaFault>>)] = &[
    (
        "a name is no type's",
        "S",
        ["B", "C"],
        Err(OrMemory::Fault(SchemaFault::UnknownType)),
    ),
    (
        "a type's name is taken, which is told first",
        "A",
        ["B", "C"],
        Err(OrMemory::Fault(SchemaFault::NameTaken)),
    ),
    ("a type may be named twice", "S", ["B", "B"], Ok(())),
    (
        "a stream's name is taken",
        "S",
        ["A", "B"],
        Err(OrMemory::Fault(SchemaFault::NameTaken)),
    ),
    ("a second stream", "T", ["B", "A"], Ok(())),
];

/// The first stream whose declaration ends in another way.
fn wrong_stream(alloc: Global, schema: &mut Schema) -> Option<&'static str> {
    for (row, name, names, wanted) in STREAMS {
        if declare_stream(alloc, schema, name, names) != *wanted {
            return Some(*row);
        }
    }
    None
}

/// What a row shows, a name, and the type that it is.
const TYPES: &[(&str, &str, Option<TypeId>)] = &[
    ("type B", "B", Some(1)),
    ("a stream is no type", "S", None),
];

fn wrong_type(schema: &Schema) -> Option<&'static str> {
    for &(row, name, wanted) in TYPES {
        if schema.type_of(name) != wanted {
            return Some(row);
        }
    }
    None
}

/// What a row shows, a name, and how many types the stream has that it is.
const COUNTS: &[(&str, &str, Option<usize>)] = &[
    ("B counts once in S", "S", Some(1)),
    ("T has both types", "T", Some(2)),
    ("a type is no stream", "A", None),
];

fn wrong_count(schema: &Schema) -> Option<&'static str> {
    for &(row, name, wanted) in COUNTS {
        if count(schema, name) != wanted {
            return Some(row);
        }
    }
    None
}

/// What a row shows, a type, a name, and the attribute that it is.
const ATTRIBUTES: &[(&str, TypeId, &str, Option<AttrAt>)] = &[
    (
        "v of B",
        1,
        "v",
        Some(AttrAt {
            index: 1,
            kind: Kind::Dec(2),
        }),
    ),
    ("no x in B", 1, "x", None),
    ("no third type", 2, "v", None),
];

fn wrong_attribute(schema: &Schema) -> Option<&'static str> {
    for &(row, ty, name, wanted) in ATTRIBUTES {
        if schema.attr(ty, name) != wanted {
            return Some(row);
        }
    }
    None
}

/// The first look-up that answers otherwise.
fn wrong_look_up(schema: &Schema) -> Option<&'static str> {
    if schema.types() != 2 {
        return Some("two types");
    }
    if kinds(schema, 1) != 2 {
        return Some("the kinds of B");
    }
    wrong_type(schema)
        .or(wrong_count(schema))
        .or(wrong_attribute(schema))
}

/// How many kinds the type has, 0 where it is not declared.
fn kinds(schema: &Schema, ty: TypeId) -> usize {
    if ty < schema.types() {
        schema.kinds(ty).as_slice().len()
    } else {
        0
    }
}

/// How many types the stream has.
fn count(schema: &Schema, stream: &str) -> Option<usize> {
    match schema.streams(stream) {
        Some(types) => Some(types.as_slice().len()),
        None => None,
    }
}

fn wrong_in_a_copy(alloc: Global, schema: &Schema) -> Option<&'static str> {
    match schema.copy(alloc) {
        Ok(copy) => wrong_look_up(&copy),
        Err(_) => Some("memory"),
    }
}

fn none_is_wrong(rt: &impl Abort, row: Option<&'static str>) {
    assert_eq!(rt; row, None);
}

/// The types A(v, w) and B(w, v) and the streams S(B) and T(B, A), with wrong declarations between.
#[test]
fn declarations_in_turn(rt: HostRuntime) -> Result<(), Fail> {
    let alloc = rt.alloc();
    let mut schema = Schema::new(alloc);
    none_is_wrong(&rt, wrong_event(alloc, &mut schema));
    none_is_wrong(&rt, wrong_stream(alloc, &mut schema));
    none_is_wrong(&rt, wrong_look_up(&schema));
    none_is_wrong(&rt, wrong_in_a_copy(alloc, &schema));
    Ok(())
}
