//! Sets that are written down as a list of parts. Definitions speak of a part, so that it is there
//! without the tests too.

use cer_base::Pos;

/// A node that is made of earlier ones, which are named by their places in the list, from 0.
#[derive(Clone, Copy)]
pub enum BuildStep {
    /// A bottom, by the position where it starts and the clock there.
    Start(Pos, i64),
    /// The part at the place, extended by the position.
    Extend(usize, Pos),
    /// The parts at the two places joined, the first at the left.
    Join(usize, usize),
    /// The parts at the two places united.
    Unite(usize, usize),
}
