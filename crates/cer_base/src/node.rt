ghost use Rattle.std.specs.Prelude.{◌≡◌};
ghost use Rattle.cer_base.specs.Fields.{max_of, need_of};

use super::Pos;
use super::time::Time;

/// The place of a node in its store, from 0. A store holds less than 2^32 nodes, so that a node with
/// the ids of its children stays small.
pub type Id = u32;

/// When an event came: its position, and the clock that windows measure (in the unit of the
/// window: positions, or the value of an attribute).
#[derive(Drop, Debug, Default, Clone, Copy, PartialEq, Eq)]
pub struct Stamp {
    pub pos: Pos,
    pub clock: Time,
}

/// A node of an enumerable compact set: it stands for a set of complex events that all end at the
/// same position. Many nodes may share a child, so that few nodes stand for many complex events.
///
/// `max` is the greatest start among the members, and `need` how many places a walk from the node
/// takes, of the path and of the stack each.
#[derive(Drop, Debug, Clone, Copy, PartialEq, Eq)]
pub enum Node {
    /// One member, which starts here and has no positions yet.
    Bottom {
        start: Stamp,
    },
    /// The members of the child, each with `pos` put in front of its positions.
    Output {
        pos: Pos,
        child: Id,
        max: Stamp,
        need: u32,
    },
    /// The members of the left child, then those of the right one. `right_max` is the right
    /// child's `max`, so that a walk can pass over the right child without reading it.
    Union {
        left: Id,
        right: Id,
        need: u32,
        max: Stamp,
        right_max: Stamp,
    },
}

impl Node {
    /// The greatest start among the members.
    pub fn max(&self) -> Stamp
        ensures { result ≡ max_of self.now }
    {
        match *self {
            Node::Bottom { start } => start,
            Node::Output { max, .. } => max,
            Node::Union { max, .. } => max,
        }
    }

    /// How many places of the path and of the stack a walk from here takes: 0 at a bottom.
    pub fn need(&self) -> u32
        ensures { result ≡ need_of self.now }
    {
        match *self {
            Node::Bottom { .. } => 0,
            Node::Output { need, .. } => need,
            Node::Union { need, .. } => need,
        }
    }
}

/// A node where a walk begins, with its greatest start and its need.
#[derive(Drop, Debug, Default, Clone, Copy, PartialEq, Eq)]
pub struct Root {
    pub id: Id,
    pub need: u32,
    pub max: Stamp,
}

// Lists and stores hold many of these.
const _: () = prove!(size_of::<Stamp>() == 16);

const _: () = prove!(size_of::<Root>() == 24);

const _: () = prove!(size_of::<Node>() == 48);

const _: () = prove!(align_of::<Node>() == 8);
