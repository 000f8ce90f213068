//! The schema and its calls.

ghost use Rattle.std.specs.Prelude.{◌≡◌, ℕ, [], ◌<◌, length, map, None, Some, All, slice_get, IfOk, IfSome, OnOk, OnErr, option_map};
ghost use Rattle.std.specs.Option.{option_copied};
ghost use Rattle.std.specs.List.{HoldsAt};
ghost use Rattle.cer_base.specs.Answers.{OnFault};
ghost use Rattle.stream_schema.specs.Types.{IsWellDeclared, name_of_type};
ghost use Rattle.stream_schema.specs.Names.{type_number, attr_at, stream_types, is_taken, attr_of};
ghost use Rattle.stream_schema.specs.Declaring.{event_refusal, stream_refusal, with_type, with_stream, numbers_from};
ghost use Rattle.stream_schema.specs.declared.Attr.{Attr};

use crate::declarations::{StreamDecl, TypeDecl};
use crate::names::NameIndex;
use crate::{Attr, AttrAt, Attrs, Kinds, SchemaFault, Texts, TypeId, TypeIds};
use cer_base::{Memory, OrMemory, Text};
use indexmap::IndexSet;
use std::alloc::Global;
use std::marker::Model;

/// The declared types and streams. It begins empty, and each declaration adds one at the end.
#[derive(Drop, Debug)]
pub struct Schema {
    alloc: Global,
    types: Vec<TypeDecl>,
    type_names: NameIndex,
    streams: Vec<StreamDecl>,
    stream_names: NameIndex,
}

impl Model for Schema {
    ghost use Rattle.stream_schema.specs.Types.{Declared};
    ghost use Rattle.stream_schema.specs.Indexes.{IsIndexed};

    ghost Value = { Declared };

    ghost view = { λ s. record { types = s.types.items; streams = s.streams.items } };

    ghost invariant = { λ s. IsIndexed (record {
      types = s.types.items;
      streams = s.streams.items;
    }) s.type_names s.stream_names };
}

impl Schema {
    /// A schema with nothing declared.
    pub fn new(alloc: Global) -> Schema
        ensures { result ≡ record { types = []; streams = [] } }
    {
        Schema {
            alloc,
            types: Vec::new(alloc),
            type_names: NameIndex::new(alloc),
            streams: Vec::new(alloc),
            stream_names: NameIndex::new(alloc),
        }
    }

    /// A schema of its own that declares the same.
    pub fn copy(&self, alloc: Global) -> Result<Schema, Memory>
        ensures { IfOk result (λ s. s ≡ self.now) }
    {
        Ok(Schema {
            alloc,
            types: copy_types(alloc, self.types.as_slice())?,
            type_names: self.type_names.copy()?,
            streams: copy_streams(alloc, self.streams.as_slice())?,
            stream_names: self.stream_names.copy()?,
        })
    }

    /// Declares a type with these attributes, in order, and answers its number. After an error
    /// nothing has changed.
    ///
    /// - `NameTaken`: a type or a stream has the name.
    /// - `AttrTwice`: two attributes have one name.
    /// - Memory ran out.
    pub fn declare_event(
        &mut self,
        name: &str,
        attrs: &Attrs,
    ) -> Result<TypeId, OrMemory<SchemaFault>>
        ensures accepted { OnOk result (event_refusal self.old name.now attrs.now ≡ None) }
        ensures declared { OnOk result (self.new ≡ with_type self.old name.now attrs.now) }
        ensures number { IfOk result (λ ty. ty ≡ length self.old.types) }
        ensures refused { OnFault result (λ fault. event_refusal self.old name.now attrs.now
            ≡ Some fault) }
        ensures unchanged { OnErr result (self.new ≡ self.old) }
    {
        if self.is_taken(name) {
            return Err(OrMemory::Fault(SchemaFault::NameTaken));
        }
        let declaration = match TypeDecl::of(self.alloc, name, attrs.as_slice())? {
            Some(declaration) => declaration,
            None => return Err(OrMemory::Fault(SchemaFault::AttrTwice)),
        };
        let number = self.types.len() as u64;
        self.types.reserve(1)?;
        self.type_names.push(name.as_bytes())?;
        self.types.push(declaration)?;
        Ok(number)
    }

    /// Declares a stream of the types of these names. A type that is named twice counts once.
    /// After an error nothing has changed.
    ///
    /// - `NameTaken`: a type or a stream has the name.
    /// - `UnknownType`: one of the names is no declared type's.
    /// - Memory ran out.
    pub fn declare_stream(&mut self, name: &str, types: &Texts) -> Result<(), OrMemory<SchemaFault>>
        ensures accepted { OnOk result (stream_refusal self.old name.now types.now ≡ None) }
        ensures declared { OnOk result (IfSome (numbers_from [] self.old.types types.now)
            (λ numbers. self.new ≡ with_stream self.old name.now numbers)) }
        ensures refused { OnFault result (λ fault. stream_refusal self.old name.now types.now
            ≡ Some fault) }
        ensures unchanged { OnErr result (self.new ≡ self.old) }
    {
        if self.is_taken(name) {
            return Err(OrMemory::Fault(SchemaFault::NameTaken));
        }
        let numbers = match self.numbers_of(types.as_slice())? {
            Some(numbers) => numbers,
            None => return Err(OrMemory::Fault(SchemaFault::UnknownType)),
        };
        let declaration = StreamDecl::of(self.alloc, name, listed(self.alloc, &numbers)?)?;
        self.streams.reserve(1)?;
        self.stream_names.push(name.as_bytes())?;
        self.streams.push(declaration)?;
        Ok(())
    }

    /// The number of the type of this name, or `None` where no type has it. No other type has it.
    pub fn type_of(&self, name: &str) -> Option<TypeId>
        ensures place { result ≡ type_number self.now.types name.now }
        ensures bound { IfSome result (λ ty. ty < length self.now.types) }
        ensures only { (ty : ℕ) → name_of_type self.now.types ty ≡ Some name.now
            → result ≡ Some ty }
    {
        self.type_of_bytes(name.as_bytes())
    }

    /// The number of the type whose name has these bytes, or `None` where no type has it. No other
    /// type has it.
    pub fn type_of_bytes(&self, name: &[u8]) -> Option<TypeId>
        ensures place { result ≡ type_number self.now.types name.now }
        ensures bound { IfSome result (λ ty. ty < length self.now.types) }
        ensures only { (ty : ℕ) → name_of_type self.now.types ty ≡ Some name.now
            → result ≡ Some ty }
    {
        match self.type_names.place(name) {
            Some(place) => Some(place as u64),
            None => None,
        }
    }

    /// Where the attribute stands among those of the type, or `None` where there is no such type
    /// or it has no such attribute. No other attribute of the type has the name.
    pub fn attr(&self, ty: TypeId, name: &str) -> Option<AttrAt>
        ensures place { result ≡ attr_at self.now ty name.now }
        ensures only { (i : ℕ) (a : Attr) → attr_of self.now.types ty i ≡ Some a → a.name ≡ name.now
            → result ≡ Some (record { index = i; kind = a.kind }) }
    {
        match type_at(self.types.as_slice(), ty) {
            Some(declared) => declared.attr(name),
            None => None,
        }
    }

    /// The types of the stream of this name, each once, or `None` where no stream has it.
    pub fn streams(&self, name: &str) -> Option<&TypeIds>
        ensures { option_copied result ≡ stream_types self.now.streams name.now }
    {
        match self.stream_names.place(name.as_bytes()) {
            Some(place) => Some(self.streams[place].types()),
            None => None,
        }
    }

    /// What each schema keeps. The call does nothing; its contract is the law.
    pub fn well_declared(&self)
        ensures { IsWellDeclared self.now }
    {
        let _ = &self.types;
    }

    /// How many types are declared. Their numbers are those below it.
    pub fn types(&self) -> u64
        ensures { result ≡ length self.now.types }
    {
        self.types.len() as u64
    }

    /// The kinds of the type's attributes, in the declared order.
    pub fn kinds(&self, ty: TypeId) -> &Kinds
        requires { ty < length self.now.types }
        ensures { HoldsAt (λ t. result.now ≡ map (λ a. a.kind) t.attrs) self.now.types ty }
    {
        let declared = &self.types[ty as usize];
        declared.kinds()
    }

    /// The attributes of the type, in the declared order, or `None` where no type has the number.
    pub fn attrs(&self, ty: TypeId) -> Option<&[Attr]>
        ensures { option_copied result ≡ option_map (λ t. t.attrs) (slice_get self.now.types ty) }
    {
        match type_at(self.types.as_slice(), ty) {
            Some(declared) => Some(declared.attrs()),
            None => None,
        }
    }

    /// The name of the type, or `None` where no type has the number.
    pub fn type_name(&self, ty: TypeId) -> Option<&str>
        ensures { option_copied result ≡ option_map (λ t. t.name) (slice_get self.now.types ty) }
    {
        match type_at(self.types.as_slice(), ty) {
            Some(declared) => Some(declared.name()),
            None => None,
        }
    }

    fn is_taken(&self, name: &str) -> bool
        ensures { result ≡ is_taken self.now name.now }
    {
        self.type_names.has(name.as_bytes()) || self.stream_names.has(name.as_bytes())
    }

    /// The numbers of the types of these names, each once, or `None` where one of them is no
    /// type's.
    fn numbers_of(&self, names: &[Text]) -> Result<Option<IndexSet<TypeId>>, Memory>
        ensures found { IfOk result (λ numbers. option_map
            (λ v. v.keys) numbers ≡ numbers_from [] self.now.types names.now) }
        ensures declared { IfOk result (λ numbers. IfSome numbers
            (λ v. All (λ ty. ty < length self.now.types) v.keys)) }
    {
        let mut numbers = IndexSet::new(self.alloc);
        for name in names {
            match self.type_of(name.as_str()) {
                Some(number) => {
                    numbers.insert(number)?;
                }
                None => return Ok(None),
            }
        }
        Ok(Some(numbers))
    }
}

/// The type of the number.
fn type_at(types: &[TypeDecl], ty: TypeId) -> Option<&TypeDecl>
    ensures { option_copied result ≡ slice_get types.now ty }
{
    types.get(ty as usize)
}

/// The numbers as a list, in order.
fn listed(alloc: Global, numbers: &IndexSet<TypeId>) -> Result<Vec<TypeId>, Memory>
    ensures { IfOk result (λ v. v.items ≡ numbers.now.keys) }
{
    let mut list = Vec::with_capacity(alloc, numbers.len())?;
    for number in numbers {
        list.push(*number)?;
    }
    Ok(list)
}

fn copy_types(alloc: Global, types: &[TypeDecl]) -> Result<Vec<TypeDecl>, Memory>
    ensures { IfOk result (λ copy. copy.items ≡ types.now) }
{
    let mut copy = Vec::with_capacity(alloc, types.len())?;
    for declared in types {
        copy.push(declared.copy(alloc)?)?;
    }
    Ok(copy)
}

fn copy_streams(alloc: Global, streams: &[StreamDecl]) -> Result<Vec<StreamDecl>, Memory>
    ensures { IfOk result (λ copy. copy.items ≡ streams.now) }
{
    let mut copy = Vec::with_capacity(alloc, streams.len())?;
    for declared in streams {
        copy.push(declared.copy(alloc)?)?;
    }
    Ok(copy)
}
