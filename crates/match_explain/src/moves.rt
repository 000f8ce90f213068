//! Which leaf may read the next event.

ghost use Rattle.std.specs.Prelude.{◌≡◌, ℕ, ◌<◌, ◌&&◌, ◌||◌, true, false, IfSome, IfNone};
ghost use Rattle.cer_base.specs.Bits.{has};
ghost use Rattle.cea_determinise.specs.Runs.{some_below};
ghost use Rattle.cea_determinise.specs.Cea.{automaton_of_cea, IsWellFormed, IsSet, AreRows, row};
ghost use Rattle.match_explain.specs.Searching.{may_read, passed, has_begun, IsLeafBelow};

use cea_determinise::cea::Cea;
use cer_base::bits::Bits;

/// When a leaf has read: the event just before, or an earlier one.
#[derive(Drop, Clone, Copy)]
pub enum Age {
    Just,
    Earlier,
}

/// What has read last: nothing yet, or a leaf.
#[derive(Drop, Clone, Copy)]
pub enum Last {
    Start,
    Leaf(Age, usize),
}

impl Last {
    /// What it is when the next event is passed over.
    pub fn passed(self) -> Last
        ensures { result ≡ passed self }
    {
        match self {
            Last::Start => Last::Start,
            Last::Leaf(_, leaf) => Last::Leaf(Age::Earlier, leaf),
        }
    }

    /// Whether a leaf has read.
    pub fn has_begun(self) -> bool
        ensures { result ≡ has_begun self }
    {
        match self {
            Last::Start => false,
            Last::Leaf(_, _) => true,
        }
    }
}

/// Whether the leaf may read the next event.
fn may_read(cea: &Cea, last: Last, leaf: usize) -> bool
    requires formed { IsWellFormed cea.now }
    requires below { IsLeafBelow cea.now.size last }
    ensures { result ≡ may_read (automaton_of_cea cea.now) last leaf }
{
    match last {
        Last::Start => cea.first.contains(leaf),
        Last::Leaf(Age::Just, before) => {
            cea.near[before].contains(leaf) || cea.far[before].contains(leaf)
        }
        Last::Leaf(Age::Earlier, before) => cea.far[before].contains(leaf),
    }
}

/// The first of the leaves in the set that may read the next event.
pub fn next_leaf(cea: &Cea, last: Last, set: &Bits) -> Option<usize>
    requires formed { IsWellFormed cea.now }
    requires below { IsLeafBelow cea.now.size last }
    ensures found { IfSome result (λ j. (j < cea.now.size)
        × (may_read (automaton_of_cea cea.now) last j ≡ true) × (has set.now j ≡ true)) }
    ensures none { IfNone result (some_below cea.now.size
        (λ j. may_read (automaton_of_cea cea.now) last j && has set.now j) ≡ false) }
{
    for leaf in 0..cea.size {
        if set.contains(leaf) && may_read(cea, last, leaf) {
            return Some(leaf);
        }
    }
    None
}

/// Whether some number is in both sets of numbers below the size.
fn meets(size: usize, a: &Bits, b: &Bits) -> bool
    requires a { IsSet size a.now }
    requires b { IsSet size b.now }
    ensures { result ≡ some_below size (λ j. has a.now j && has b.now j) }
{
    a.meets(b)
}

/// Whether some leaf of the row is in the set.
fn meets_row(size: usize, rows: &[Bits], leaf: usize, set: &Bits) -> bool
    requires rows { AreRows size rows.now }
    requires below { leaf < size }
    requires set { IsSet size set.now }
    ensures { result ≡ some_below size (λ j. row rows.now leaf j && has set.now j) }
{
    meets(size, &rows[leaf], set)
}

/// Whether some leaf of either row is in the set.
fn meets_either(size: usize, near: &[Bits], far: &[Bits], leaf: usize, set: &Bits) -> bool
    requires near { AreRows size near.now }
    requires far { AreRows size far.now }
    requires below { leaf < size }
    requires set { IsSet size set.now }
    ensures { result ≡ some_below size (λ j. (row near.now leaf j || row far.now leaf j)
        && has set.now j) }
{
    let follows_next = meets_row(size, near, leaf, set);
    let follows_later = meets_row(size, far, leaf, set);
    follows_next || follows_later
}

/// Whether one of the leaves in the set may read the next event. It looks at 64 leaves at a time.
pub fn leads(cea: &Cea, last: Last, set: &Bits) -> bool
    requires formed { IsWellFormed cea.now }
    requires below { IsLeafBelow cea.now.size last }
    requires set { IsSet cea.now.size set.now }
    ensures { result ≡ some_below cea.now.size (λ j. may_read (automaton_of_cea cea.now) last j
        && has set.now j) }
{
    let far = cea.far.as_slice();
    match last {
        Last::Start => meets(cea.size, &cea.first, set),
        Last::Leaf(Age::Just, before) => {
            meets_either(cea.size, cea.near.as_slice(), far, before, set)
        }
        Last::Leaf(Age::Earlier, before) => meets_row(cea.size, far, before, set),
    }
}
