//! Declarations of types and streams, checked and put into a schema.

ghost use Rattle.std.specs.Prelude.{◌≡◌, ℕ, List, [], ◌∷◌, ◌++◌, map, not, IfOk, OnOk, OnErr};
ghost use Rattle.stream_schema.specs.Names.{is_taken};
ghost use Rattle.cel_terms.specs.Meaning.{lists_name};
ghost use Rattle.ceql_grammar.specs.declared.terms.Statement.TheVariants as said;
ghost use Rattle.ceql_grammar.specs.declared.faults.QueryFault.TheVariants.{NameTaken, UnknownType};
ghost use Rattle.ceql_parser.specs.FirstFaults.{first_in, unless_named, FindsFault};
ghost use Rattle.ceql_parser.specs.NameSets.{HaveSameNames};
ghost use Rattle.ceql_parser.specs.TypesAsked.{is_type_name};
ghost use Rattle.ceql_parser.specs.StatementFaults.{scale_of, repeats_fault, scale_fault, attr_fault, event_fault, stream_fault};
ghost use Rattle.ceql_parser.specs.ScriptFaults.{kind_declared, attr_declared, declaring};

use crate::name_sets::NameSet;
use crate::refusals::{Checked, NameFault, unless, unless_named};
use crate::schema_lookups::{is_taken, is_type};
use cel_terms::{Name, Names};
use ceql_grammar::{AttrDecl, AttrDecls, KindDecl, QueryFault};
use cer_base::limits::MOST_PLACES;
use cer_base::{Listed, Memory, OrMemory, Text};
use std::alloc::Global;
use stream_schema::{Attr, Attrs, Kind, Schema, Texts};

/// How many places DECIMAL takes: 0 to 9.
fn scale_of(value: i64) -> Option<u8>
    ensures { result ≡ scale_of value }
{
    if value < 0 || i64::from(MOST_PLACES) < value {
        None
    } else {
        Some(value as u8)
    }
}

/// Answers the fault of a name that a type or a stream has.
fn check_new(alloc: Global, schema: &Schema, name: &Name) -> Checked
    ensures { FindsFault result (unless_named
        (not (is_taken schema.now name.now.text)) NameTaken name.now) }
{
    let taken = is_taken(schema, name.text.as_str());
    unless_named(alloc, !taken, NameFault::NameTaken, name)
}

/// Adds the attribute's name to those of the earlier ones, or answers its fault where it is one of them.
fn add_earlier(alloc: Global, earlier: &mut NameSet, name: &Name) -> Checked
    ensures told { FindsFault result (unless_named
        (not (lists_name earlier.old name.now.text)) NameTaken name.now) }
    ensures names { OnOk result (HaveSameNames earlier.new (earlier.old ++ name.now.text ∷ [])) }
{
    let taken = earlier.has(name.text.as_str());
    match unless_named(alloc, !taken, NameFault::NameTaken, name) {
        Ok(()) => {}
        Err(stop) => return Err(stop),
    }
    match earlier.add(alloc, name.text.as_str()) {
        Ok(()) => Ok(()),
        Err(Memory) => Err(OrMemory::Memory),
    }
}

/// Answers the fault at the first attribute with a name of an earlier one.
fn check_repeats(alloc: Global, attrs: &[AttrDecl]) -> Checked
    ensures { FindsFault result (repeats_fault [] attrs.now) }
{
    let mut earlier = NameSet::new(alloc);
    for attr in attrs {
        match add_earlier(alloc, &mut earlier, &attr.name) {
            Ok(()) => {}
            Err(stop) => return Err(stop),
        }
    }
    Ok(())
}

fn check_scale(kind: KindDecl) -> Checked
    ensures { FindsFault result (scale_fault kind) }
{
    match kind {
        KindDecl::Int => Ok(()),
        KindDecl::Text => Ok(()),
        KindDecl::Flag => Ok(()),
        KindDecl::Dec(number) => {
            let fits = scale_of(number.value).is_some();
            unless(fits, QueryFault::BadScale, number.place)
        }
    }
}

/// Answers the fault at the first attribute whose number of places is none.
fn check_scales(attrs: &[AttrDecl]) -> Checked
    ensures { FindsFault result (first_in attr_fault attrs.now) }
{
    for attr in attrs {
        match check_scale(attr.kind) {
            Ok(()) => {}
            Err(stop) => return Err(stop),
        }
    }
    Ok(())
}

fn check_event(alloc: Global, schema: &Schema, name: &Name, attrs: &[AttrDecl]) -> Checked
    ensures { FindsFault result (event_fault schema.now name.now attrs.now) }
{
    match check_new(alloc, schema, name) {
        Ok(()) => {}
        Err(stop) => return Err(stop),
    }
    match check_repeats(alloc, attrs) {
        Ok(()) => {}
        Err(stop) => return Err(stop),
    }
    check_scales(attrs)
}

/// Answers the fault of a name that is no type's.
fn check_type(alloc: Global, schema: &Schema, name: &Name) -> Checked
    ensures { FindsFault result (unless_named
        (is_type_name schema.now.types name.now.text) UnknownType name.now) }
{
    let known = is_type(schema, name.text.as_str());
    unless_named(alloc, known, NameFault::UnknownType, name)
}

fn check_types(alloc: Global, schema: &Schema, types: &[Name]) -> Checked
    ensures { FindsFault result (first_in (λ t.
        unless_named (is_type_name schema.now.types t.text) UnknownType t) types.now) }
{
    for name in types {
        match check_type(alloc, schema, name) {
            Ok(()) => {}
            Err(stop) => return Err(stop),
        }
    }
    Ok(())
}

fn check_stream(alloc: Global, schema: &Schema, name: &Name, types: &[Name]) -> Checked
    ensures { FindsFault result (stream_fault schema.now name.now types.now) }
{
    match check_new(alloc, schema, name) {
        Ok(()) => check_types(alloc, schema, types),
        Err(stop) => Err(stop),
    }
}

fn kind_declared(kind: KindDecl) -> Kind
    ensures { result ≡ kind_declared kind }
{
    match kind {
        KindDecl::Int => Kind::Int,
        KindDecl::Text => Kind::Text,
        KindDecl::Flag => Kind::Flag,
        KindDecl::Dec(number) => Kind::Dec(scale_of(number.value).unwrap_or(0)),
    }
}

fn attr_of(alloc: Global, attr: &AttrDecl) -> Result<Attr, Memory>
    ensures { IfOk result (λ a. a ≡ attr_declared attr.now) }
{
    Ok(Attr {
        name: Text::copy_of(alloc, attr.name.text.as_str())?,
        kind: kind_declared(attr.kind),
    })
}

fn attrs_of(alloc: Global, decls: &[AttrDecl]) -> Result<Attrs, Memory>
    ensures { IfOk result (λ attrs. attrs ≡ map attr_declared decls.now) }
{
    let mut attrs = Vec::with_capacity(alloc, decls.len())?;
    for decl in decls {
        attrs.push(attr_of(alloc, decl)?)?;
    }
    Ok(Listed::of(attrs))
}

fn texts_of(alloc: Global, names: &[Name]) -> Result<Texts, Memory>
    ensures { IfOk result (λ texts. texts ≡ map (λ n. n.text) names.now) }
{
    let mut texts = Vec::with_capacity(alloc, names.len())?;
    for name in names {
        texts.push(Text::copy_of(alloc, name.text.as_str())?)?;
    }
    Ok(Listed::of(texts))
}

/// Declares the type, or answers the first fault of the declaration. After an error nothing has
/// changed.
pub fn declare_event(alloc: Global, schema: &mut Schema, name: &Name, attrs: &AttrDecls) -> Checked
    ensures told { FindsFault result (event_fault schema.old name.now attrs.now) }
    ensures declared { OnOk result (schema.new
        ≡ declaring schema.old (said.Event name.now attrs.now)) }
    ensures unchanged { OnErr result (schema.new ≡ schema.old) }
{
    match check_event(alloc, schema, name, attrs.as_slice()) {
        Ok(()) => {}
        Err(stop) => return Err(stop),
    }
    let given = match attrs_of(alloc, attrs.as_slice()) {
        Ok(given) => given,
        Err(Memory) => return Err(OrMemory::Memory),
    };
    match schema.declare_event(name.text.as_str(), &given) {
        Ok(_) => Ok(()),
        Err(OrMemory::Memory) => Err(OrMemory::Memory),
        Err(OrMemory::Fault(_)) => unreachable!(),
    }
}

/// Declares the stream, or answers the first fault of the declaration. After an error nothing has
/// changed.
pub fn declare_stream(alloc: Global, schema: &mut Schema, name: &Name, types: &Names) -> Checked
    ensures told { FindsFault result (stream_fault schema.old name.now types.now) }
    ensures declared { OnOk result (schema.new
        ≡ declaring schema.old (said.Stream name.now types.now)) }
    ensures unchanged { OnErr result (schema.new ≡ schema.old) }
{
    match check_stream(alloc, schema, name, types.as_slice()) {
        Ok(()) => {}
        Err(stop) => return Err(stop),
    }
    let given = match texts_of(alloc, types.as_slice()) {
        Ok(given) => given,
        Err(Memory) => return Err(OrMemory::Memory),
    };
    match schema.declare_stream(name.text.as_str(), &given) {
        Ok(()) => Ok(()),
        Err(OrMemory::Memory) => Err(OrMemory::Memory),
        Err(OrMemory::Fault(_)) => unreachable!(),
    }
}
