//! How the next answer is found. Nodes are visited one below the other, after the path, which has
//! the positions that lead there.
//!
//! - At an output its position is put after the path, and its child is next.
//! - At a union the left child is next. The right child goes on the stack, with the length of the
//!   path, unless its greatest start is too old.
//! - At a bottom the path has the answer's positions, greatest first, and the bottom is its start.
//!
//! For the answer after it, the top of the stack is next, and the path is cut to the length there.
//!
//! A chain of three unions, `u1` to `u3`. Left children and children of outputs stand below, right
//! children to the right. `out 6` puts position 6 in front, `start 3` is a bottom at 3.
//!
//! ```text
//!   u1 -------- u2 -------- u3 -------- out 6
//!   |           |           |           |
//!   out 6       out 6       out 6       start 1
//!   |           |           |
//!   out 3       out 5       out 2
//!   |           |           |
//!   start 3     start 3     start 2
//!
//!   call   visited                      start   positions   then on the stack
//!   1      u1, out 6, out 3, start 3    3       6 3         u2
//!   2      u2, out 6, out 5, start 3    3       6 5         u3
//!   3      u3, out 6, out 2, start 2    2       6 2         the last out 6
//!   4      out 6, start 1               1       6
//!   5                                   none
//! ```
//!
//! With a window from 2 on, `u3` puts nothing on the stack, since it keeps its right child's greatest
//! start, 1, and call 4 gives none.
//!
//! No visit is in vain: the left child of a union has the greatest start of all its members, so it
//! has a recent one where the union has. And unions are chained to the right, so that at most three
//! are visited before each output or bottom. An answer of n positions visits n outputs and one
//! bottom, which makes at most `4 * (n + 1)` steps. How many nodes share a child does not matter.

ghost use Rattle.std.specs.Prelude.{◌≡◌, ◌+◌, ◌*◌, ◌<◌, ◌≤◌, [], ◌∷◌, ◌++◌, length, reverse, int_le, vec_capacity};
ghost use Rattle.cer_base.specs.Nodes.{tree, WellFormed};
ghost use Rattle.tecs_enumerate.specs.Remaining.{answers, rest_of, HasRoom, AllHaveRoom, AreNested};

use cer_base::Pos;
use cer_base::node::{Id, Node, Stamp};
use cer_base::steps::Steps;
use cer_base::store::NodeStore;
use std::sync::ledger::Ledger;

/// A node that is still to be visited, after the first `prefix` positions of the path.
#[derive(Drop, Debug, Clone, Copy, PartialEq, Eq)]
pub struct Pending {
    pub id: Id,
    pub prefix: usize,
}

/// Whether the stamp's clock is not below `low`.
pub fn is_recent(low: i128, stamp: Stamp) -> bool
    ensures { result ≡ int_le low stamp.clock }
{
    low <= stamp.clock.get()
}

/// Puts the item last. There is room for it, so the items stay where they are, and no memory is taken.
#[inline(always)]
fn put_last<T: Copy>(items: &mut Vec<T>, item: T)
    requires { length items.old.items < vec_capacity items.old }
    ensures items { items.new.items ≡ items.old.items ++ item ∷ [] }
    ensures room { vec_capacity items.new ≡ vec_capacity items.old }
{
    // Of a push it is not told that the room stays as it is.
    let _ = items.insert(items.len(), item);
}

/// Walks from a node to its first recent member and gives its start, the path being its positions.
/// What is passed over goes on the stack. It takes no memory: there is room.
pub fn descend<S: NodeStore, L: Ledger>(
    store: &S,
    low: i128,
    id: Id,
    path: &mut Vec<Pos>,
    stack: &mut Vec<Pending>,
    steps: &mut Steps<L>,
) -> Stamp
    requires well_formed { WellFormed (S.nodes store.now) }
    requires room { HasRoom low (S.nodes store.now)
        (record { stack = vec_capacity stack.old; path = vec_capacity path.old })
        (length (reverse stack.old.items)) (length path.old.items) id }
    requires others { AllHaveRoom low (S.nodes store.now)
        (record { stack = vec_capacity stack.old; path = vec_capacity path.old })
        (reverse stack.old.items) }
    requires nested { AreNested (length path.old.items) (reverse stack.old.items) }
    ensures first { answers low path.old.items (tree (S.nodes store.now) id)
        ++ rest_of low (S.nodes store.now) path.old.items (reverse stack.old.items)
        ≡ record { start = result; positions = path.new.items } ∷ rest_of low (S.nodes store.now)
        path.new.items (reverse stack.new.items) }
    ensures others { AllHaveRoom low (S.nodes store.now)
        (record { stack = vec_capacity stack.new; path = vec_capacity path.new })
        (reverse stack.new.items) }
    ensures nested { AreNested (length path.new.items) (reverse stack.new.items) }
    ensures room { (vec_capacity stack.new ≡ vec_capacity stack.old)
        × (vec_capacity path.new ≡ vec_capacity path.old) }
    ensures delay { steps.new + 4 * length path.old.items
        ≤ steps.old + 4 * (length path.new.items + 1) }
{
    let mut at = id;
    'down: loop {
        match store.get(at, steps) {
            Node::Bottom { start } => return start,
            Node::Output { pos, child, .. } => {
                put_last(path, pos);
                at = child;
            }
            Node::Union {
                left,
                right,
                right_max,
                ..
            } => {
                if is_recent(low, right_max) {
                    let passed = Pending {
                        id: right,
                        prefix: path.len(),
                    };
                    put_last(stack, passed);
                }
                at = left;
            }
        }
    }
}
