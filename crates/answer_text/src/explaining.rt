//! The lines that explain a complex event.

ghost use Rattle.std.specs.Prelude.{◌≡◌, ◌++◌, IfOk, OnOk};
ghost use Rattle.answer_text.specs.Explanations.{binding_line, none_line};

use crate::falling;
use crate::writing::push_positions;
use cer_base::{Memory, Pos};
use std::alloc::Global;

/// Puts the line of a name and its positions, which ascend, after the text.
///
/// `A {1,2}`
pub fn push_binding(
    alloc: Global,
    text: &mut Vec<u8>,
    name: &str,
    positions: &[Pos],
) -> Result<(), Memory>
    ensures { OnOk result (text.new.items ≡ text.old.items
        ++ binding_line name.now positions.now) }
{
    let falling = falling(alloc, positions)?;
    text.extend_from_slice(name.as_bytes())?;
    text.extend_from_slice(b" {")?;
    push_positions(text, falling.as_slice())?;
    text.extend_from_slice(b"}\n")?;
    Ok(())
}

/// The line that stands where there is nothing to explain.
pub fn none(alloc: Global) -> Result<Vec<u8>, Memory>
    ensures { IfOk result (λ text. text.items ≡ none_line) }
{
    let mut text = Vec::new(alloc);
    text.extend_from_slice(b"none\n")?;
    Ok(text)
}
