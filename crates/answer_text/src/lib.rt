//! What the program writes: the line of a complex event, the order of those of one position, and
//! the lines that explain one.
//!
//! Promised: `push_line` puts exactly the bytes after a text that `specs/Output` defines, or memory
//! ran out and the text is as it was; `order` tells which of two comes before the other, and takes
//! no memory; `Answers` puts those of a position in order. It stands on `itoa` for the digits.
#![tactic(auto)]

ghost use Rattle.std.specs.Prelude.{◌≡◌, reverse, IfOk};
ghost use Rattle.answer_text.specs.Output.{line};

use cer_base::{Memory, Pos};
use std::alloc::Global;

pub mod answer;
mod answers;
mod explaining;
mod short;
pub mod writing;

pub use answers::Answers;
pub use explaining::{none, push_binding};
pub use writing::push_line;

/// How the lines of one position are ordered.
#[derive(Debug, Clone, Copy, PartialEq, Eq)]
pub enum Order {
    /// As the engine finds them.
    Walk,
    /// By start, then by the marked positions.
    Sorted,
}

/// The positions from their end.
fn falling(alloc: Global, positions: &[Pos]) -> Result<Vec<Pos>, Memory>
    ensures { IfOk result (λ v. v.items ≡ reverse positions.now) }
{
    Ok(positions.iter().rev().copied().collect(alloc)?)
}

/// The line of a complex event, with its line feed: the query's number, the start and the end, and
/// the marked positions in the order that they are given in.
///
/// `1 [0,5] {0,3,5}`
pub fn line(
    alloc: Global,
    query: u64,
    start: Pos,
    end: Pos,
    positions: &[Pos],
) -> Result<Vec<u8>, Memory>
    ensures { IfOk result (λ v.
        v.items ≡ line query end (record { start = start; marks = positions.now })) }
{
    let falling = falling(alloc, positions)?;
    let mut text = Vec::new(alloc);
    push_line(&mut text, query, start, end, falling.as_slice())?;
    Ok(text)
}
