//! What comes from outside: files, lines, events, and events that come late.

mod events;
mod gate;
mod lines;
mod objects;
mod quotes;
mod rows;
mod speed;

use cer_base::{Listed, OrMemory, Text};
use std::alloc::Global;
use stream_schema::{Attr, Kind, Schema, SchemaFault};

/// Declares a type with these attributes.
fn declare(
    alloc: Global,
    schema: &mut Schema,
    name: &str,
    attrs: &[(&str, Kind)],
) -> Result<(), OrMemory<SchemaFault>> {
    let mut list = Vec::new(alloc);
    for (name, kind) in attrs {
        list.push(Attr {
            name: Text::copy_of(alloc, name)?,
            kind: *kind,
        })?;
    }
    schema.declare_event(name, &Listed::of(list))?;
    Ok(())
}
