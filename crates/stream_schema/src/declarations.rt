//! One declared type, and one declared stream.

ghost use Rattle.std.specs.Prelude.{◌≡◌, ◌<◌, map, length, is_none, IfOk, IfSome};
ghost use Rattle.cer_base.specs.Repeats.{HasNoRepeats};
ghost use Rattle.stream_schema.specs.Names.{attr_index, attr_among};
ghost use Rattle.stream_schema.specs.Declaring.{repeats_name};

use crate::names::NameIndex;
use crate::{Attr, AttrAt, Attrs, Kinds, TypeId, TypeIds};
use cer_base::{Listed, Memory, Text};
use std::alloc::Global;
use std::marker::Model;

/// A type: its name, and its attributes in the declared order. Their kinds are kept as a list too,
/// and their names in an index.
#[derive(Drop, Debug)]
pub struct TypeDecl {
    name: Text,
    attrs: Attrs,
    kinds: Kinds,
    names: NameIndex,
}

impl Model for TypeDecl {
    ghost use Rattle.std.specs.Prelude.{◌≡◌, map};
    ghost use Rattle.stream_schema.specs.Types.{DeclaredType};

    ghost Value = { DeclaredType };

    ghost view = { λ t. record { name = t.name; attrs = t.attrs } };

    ghost invariant = { λ t. (t.kinds ≡ map (λ a. a.kind) t.attrs)
        × (t.names ≡ map (λ a. a.name) t.attrs) };
}

impl TypeDecl {
    /// A type of its own with this name and these attributes, or `None` where two of them have one
    /// name.
    pub fn of(alloc: Global, name: &str, attrs: &[Attr]) -> Result<Option<TypeDecl>, Memory>
        ensures value { IfOk result (λ made. IfSome made
            (λ t. t ≡ record { name = name.now; attrs = attrs.now })) }
        ensures distinct { IfOk result (λ made. IfSome made
            (λ t. HasNoRepeats (map (λ a. a.name) t.attrs))) }
        ensures none { IfOk result (λ made. is_none made ≡ repeats_name attrs.now) }
    {
        let names = match index_of(alloc, attrs)? {
            Some(names) => names,
            None => return Ok(None),
        };
        Ok(Some(TypeDecl {
            name: Text::copy_of(alloc, name)?,
            attrs: copy_attrs(alloc, attrs)?,
            kinds: kinds_of(alloc, attrs)?,
            names,
        }))
    }

    /// A type of its own that equals this one.
    pub fn copy(&self, alloc: Global) -> Result<TypeDecl, Memory>
        ensures { IfOk result (λ t. t ≡ self.now) }
    {
        Ok(TypeDecl {
            name: Text::copy_of(alloc, self.name.as_str())?,
            attrs: copy_attrs(alloc, self.attrs.as_slice())?,
            kinds: kinds_of(alloc, self.attrs.as_slice())?,
            names: self.names.copy()?,
        })
    }

    pub fn name(&self) -> &str
        ensures { result.now ≡ self.now.name }
    {
        self.name.as_str()
    }

    pub fn attrs(&self) -> &[Attr]
        ensures { result.now ≡ self.now.attrs }
    {
        self.attrs.as_slice()
    }

    /// The place and the kind of the attribute of this name.
    pub fn attr(&self, name: &str) -> Option<AttrAt>
        ensures { result ≡ attr_among self.now.attrs name.now }
    {
        let place = self.place(name)?;
        Some(AttrAt {
            index: place as u64,
            kind: self.attrs()[place].kind,
        })
    }

    /// Where the attribute of this name stands, from 0.
    fn place(&self, name: &str) -> Option<usize>
        ensures place { result ≡ attr_index name.now self.now.attrs }
        ensures bound { IfSome result (λ i. i < length self.now.attrs) }
    {
        self.names.place(name.as_bytes())
    }

    /// The kinds of the attributes, in order.
    pub fn kinds(&self) -> &Kinds
        ensures { result.now ≡ map (λ a. a.kind) self.now.attrs }
    {
        &self.kinds
    }
}

/// A stream: its name, and the numbers of its types.
#[derive(Drop, Debug)]
pub struct StreamDecl {
    name: Text,
    types: TypeIds,
}

impl Model for StreamDecl {
    ghost use Rattle.stream_schema.specs.Types.{DeclaredStream};

    ghost Value = { DeclaredStream };

    ghost view = { λ s. record { name = s.name; types = s.types } };
}

impl StreamDecl {
    /// A stream of its own with this name and these types.
    pub fn of(alloc: Global, name: &str, types: Vec<TypeId>) -> Result<StreamDecl, Memory>
        ensures { IfOk result (λ s. s ≡ record { name = name.now; types = types.items }) }
    {
        Ok(StreamDecl {
            name: Text::copy_of(alloc, name)?,
            types: Listed::of(types),
        })
    }

    /// A stream of its own that equals this one.
    pub fn copy(&self, alloc: Global) -> Result<StreamDecl, Memory>
        ensures { IfOk result (λ s. s ≡ self.now) }
    {
        StreamDecl::of(
            alloc,
            self.name.as_str(),
            Vec::from_slice(alloc, self.types.as_slice())?,
        )
    }

    pub fn name(&self) -> &str
        ensures { result.now ≡ self.now.name }
    {
        self.name.as_str()
    }

    pub fn types(&self) -> &TypeIds
        ensures { result.now ≡ self.now.types }
    {
        &self.types
    }
}

/// The index of the names of the attributes, or `None` where two of them have one name.
fn index_of(alloc: Global, attrs: &[Attr]) -> Result<Option<NameIndex>, Memory>
    ensures names { IfOk result (λ made. IfSome made (λ n. n ≡ map (λ a. a.name) attrs.now)) }
    ensures distinct { IfOk result (λ made. IfSome made (λ n. HasNoRepeats n)) }
    ensures none { IfOk result (λ made. is_none made ≡ repeats_name attrs.now) }
{
    let mut names = NameIndex::new(alloc);
    for attr in attrs {
        let name = attr.name.as_str().as_bytes();
        if names.has(name) {
            return Ok(None);
        }
        names.push(name)?;
    }
    Ok(Some(names))
}

fn copy_attrs(alloc: Global, attrs: &[Attr]) -> Result<Attrs, Memory>
    ensures { IfOk result (λ copy. copy ≡ attrs.now) }
{
    let mut copy = Vec::with_capacity(alloc, attrs.len())?;
    for attr in attrs {
        copy.push(copy_attr(alloc, attr)?)?;
    }
    Ok(Listed::of(copy))
}

fn copy_attr(alloc: Global, attr: &Attr) -> Result<Attr, Memory>
    ensures { IfOk result (λ copy. copy ≡ attr.now) }
{
    Ok(Attr {
        name: Text::copy_of(alloc, attr.name.as_str())?,
        kind: attr.kind,
    })
}

fn kinds_of(alloc: Global, attrs: &[Attr]) -> Result<Kinds, Memory>
    ensures { IfOk result (λ kinds. kinds ≡ map (λ a. a.kind) attrs.now) }
{
    let mut kinds = Vec::with_capacity(alloc, attrs.len())?;
    for attr in attrs {
        kinds.push(attr.kind)?;
    }
    Ok(Listed::of(kinds))
}
