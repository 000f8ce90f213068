//! What the steps of a run bind.

ghost use Rattle.std.specs.Prelude.{◌≡◌, ◌≤◌, ◌++◌, [], length, fold, IfOk, OnOk, IfErr};
ghost use Rattle.std.specs.List.{list_any, filter_map, cons_option};
ghost use Rattle.std.specs.Prelude.{bytes_eq};
ghost use Rattle.match_explain.specs.Bindings.{with_one, with_each, all_names, placed, names_at, has_name, position_if, positions_of, binding_if, bindings_of};

use crate::Binding;
use crate::walking::Step;
use cer_base::{Listed, Memory, Pos, Text};
use std::alloc::Global;
use std::cmp::Ordering;
use stream_schema::Texts;

/// Where the name is among the names, which ascend, or else where it belongs.
fn place_of(names: &[Text], name: &str) -> Result<usize, usize>
    ensures within { IfErr result (λ k. k ≤ length names.now) }
    ensures placed { with_one names.now name.now ≡ placed names.now name.now result }
{
    for k in 0..names.len() {
        match name.cmp(names[k].as_str()) {
            Ordering::Less => return Err(k),
            Ordering::Equal => return Ok(k),
            Ordering::Greater => {}
        }
    }
    Err(names.len())
}

/// Puts the name at its place, unless it is there.
fn add_one(alloc: Global, names: &mut Vec<Text>, name: &str) -> Result<(), Memory>
    ensures { OnOk result (names.new.items ≡ with_one names.old.items name.now) }
{
    match place_of(names.as_slice(), name) {
        Ok(_) => Ok(()),
        Err(place) => {
            let copy = Text::copy_of(alloc, name)?;
            names.insert(place, copy)?;
            Ok(())
        }
    }
}

/// Puts each of the others at its place.
fn add_each(alloc: Global, names: &mut Vec<Text>, others: &[Text]) -> Result<(), Memory>
    ensures { OnOk result (names.new.items ≡ with_each names.old.items others.now) }
{
    for other in others {
        add_one(alloc, names, other.as_str())?;
    }
    Ok(())
}

/// The names of all leaves, each once, ascending by their bytes.
fn all_names(alloc: Global, leaves: &[Texts]) -> Result<Vec<Text>, Memory>
    ensures { IfOk result (λ names. names.items ≡ all_names leaves.now) }
{
    let mut names = Vec::new(alloc);
    for leaf in leaves {
        add_each(alloc, &mut names, leaf.as_slice())?;
    }
    Ok(names)
}

/// Whether one of the names is this one.
fn has_name(names: &[Text], name: &str) -> bool
    ensures { result ≡ has_name names.now name.now }
{
    names.iter().any(|n| n.as_str() == name)
}

/// Whether the leaf of this number has the name.
fn leaf_has(leaves: &[Texts], leaf: usize, name: &str) -> bool
    ensures { result ≡ has_name (names_at leaves.now leaf) name.now }
{
    match leaves.get(leaf) {
        Some(names) => has_name(names.as_slice(), name),
        None => false,
    }
}

/// The positions of the steps whose leaf has the name.
fn positions_of(
    alloc: Global,
    leaves: &[Texts],
    steps: &[Step],
    name: &str,
) -> Result<Vec<Pos>, Memory>
    ensures { IfOk result (λ positions. positions.items
        ≡ positions_of leaves.now steps.now name.now) }
{
    let mut positions = Vec::new(alloc);
    for step in steps {
        if leaf_has(leaves, step.leaf(), name) {
            positions.push(step.position())?;
        }
    }
    Ok(positions)
}

/// The name with its positions, where it has any.
fn binding_if(alloc: Global, name: &str, positions: Vec<Pos>) -> Result<Option<Binding>, Memory>
    ensures { IfOk result (λ binding. binding ≡ binding_if name.now positions.items) }
{
    if positions.is_empty() {
        return Ok(None);
    }
    Ok(Some(Binding {
        name: Text::copy_of(alloc, name)?,
        positions: Listed::of(positions),
    }))
}

/// Puts the binding at the end, if it is one.
fn add_binding(bindings: &mut Vec<Binding>, binding: Option<Binding>) -> Result<(), Memory>
    ensures { OnOk result (bindings.new.items ≡ bindings.old.items ++ cons_option binding []) }
{
    match binding {
        Some(binding) => {
            bindings.push(binding)?;
            Ok(())
        }
        None => Ok(()),
    }
}

/// What the steps bind: each name of a leaf with the positions of the steps whose leaf has it.
pub fn bindings_of(alloc: Global, leaves: &[Texts], steps: &[Step]) -> Result<Vec<Binding>, Memory>
    ensures { IfOk result (λ bindings. bindings.items ≡ bindings_of leaves.now steps.now) }
{
    let names = all_names(alloc, leaves)?;
    let mut bindings = Vec::new(alloc);
    for name in names.as_slice() {
        let positions = positions_of(alloc, leaves, steps, name.as_str())?;
        let binding = binding_if(alloc, name.as_str(), positions)?;
        add_binding(&mut bindings, binding)?;
    }
    Ok(bindings)
}
