//! The declared event types and streams: names to types, attributes and kinds.
//!
//! Promised: a schema holds exactly what was declared, in order. A declaration is refused exactly
//! where its name is taken, a type is not declared or an attribute stands twice, and changes
//! nothing then. A look-up answers nothing exactly where there is nothing, and takes no memory.
//! It stands on `cer_base`.
#![tactic(auto)]

ghost use Rattle.std.specs.Prelude.{◌≡◌, List, ℕ};

use cer_base::{Listed, Text};

mod compare;
mod copies;
mod declarations;
mod names;
mod number;
mod places;
mod registry;

pub use compare::{are_alike, is_met_by, kind_of, same_value};
pub use copies::{copy_event, copy_value, copy_values};
pub use places::{places_of, value_in};
pub use registry::Schema;

/// The number of a declared type, from 0 in the order of declaration.
pub type TypeId = u64;

/// What an attribute may hold.
#[derive(Debug, Clone, Copy, PartialEq, Eq)]
pub enum Kind {
    /// A whole number of signed 64 bits.
    Int,
    /// A text.
    Text,
    /// A truth value.
    Flag,
    /// A decimal number with so many places after the point.
    Dec(u8),
}

pub type Kinds = Listed<Kind>;

/// The value of an attribute.
#[derive(Drop, Debug)]
pub enum Value {
    Int(i64),
    Text(Text),
    Flag(bool),
    /// `scaled` is the number times ten to the power of `places`.
    Dec { scaled: i64, places: u8 },
}

pub type Values = Listed<Value>;

/// How a comparison asks that a value compares with a literal.
#[derive(Debug, Clone, Copy, PartialEq, Eq)]
pub enum Op {
    Eq,
    Ne,
    Lt,
    Le,
    Gt,
    Ge,
}

/// An event has a type, and a value for each of the type's attributes in the declared order.
#[derive(Drop, Debug)]
pub struct Event {
    pub ty: TypeId,
    pub values: Values,
}

/// An attribute of a type, as it is declared.
#[derive(Drop, Debug)]
pub struct Attr {
    pub name: Text,
    pub kind: Kind,
}

pub type Attrs = Listed<Attr>;

/// Where an attribute stands among those of its type, from 0, and its kind.
#[derive(Debug, Clone, Copy, PartialEq, Eq)]
pub struct AttrAt {
    pub index: u64,
    pub kind: Kind,
}

pub type Texts = Listed<Text>;

pub type TypeIds = Listed<TypeId>;

/// Why a declaration was refused.
#[derive(Drop, Debug, Clone, Copy, PartialEq, Eq)]
pub enum SchemaFault {
    /// A type or a stream has the name.
    NameTaken,
    /// A name in the list of a stream is no declared type's.
    UnknownType,
    /// Two attributes of a type have one name.
    AttrTwice,
}
