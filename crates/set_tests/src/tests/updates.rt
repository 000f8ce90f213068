//! Union lists and the update beside what was worked out by hand.
ghost use Rattle.std.specs.Prelude.{◌≡◌};

use crate::lists::seven_takes_in_three_in_an_arena;
use crate::matches::OpenMatches;
use crate::patterns::{pattern, set_of};
use cer_base::Memory;
use cer_base::steps::{Opening, Steps};
use cer_base::time::LowTime;
use std::alloc::Global;
use std::marker::Brand;
use std::sync::ledger::Ledger;
use std::test::*;

#[test]
fn equal_starts_unite_and_a_merge_joins_the_rest(rt: HostRuntime) -> Result<(), Memory> {
    let outcome = seven_takes_in_three_in_an_arena::<Brand>(rt.alloc(), Opening::new(&rt))?;
    assert_eq!(rt; outcome.starts.as_slice(), [7, 7, 5].as_slice());
    assert_eq!(rt; outcome.by_inserts, 1);
    assert_eq!(rt; outcome.by_merge, 2);
    Ok(())
}

/// Takes one more event, which this leaf alone can read, and writes the lists after it.
fn take_one<L: Ledger>(
    alloc: Global,
    size: usize,
    matches: &mut OpenMatches,
    leaf: usize,
    text: &mut String,
    steps: &mut Steps<L>,
) -> Result<(), Memory>
    requires { matches.old.cea.size ≡ size }
    ensures { matches.new.cea.size ≡ size }
{
    let bits = set_of(alloc, size, &[leaf])?;
    matches.take(&bits, steps)?;
    matches.write(alloc, text, steps)?;
    text.push_str("/ ")?;
    Ok(())
}

/// The lists after each further event.
fn lists_of<L: Ledger>(
    alloc: Global,
    size: usize,
    matches: &mut OpenMatches,
    leaves: &[usize],
    steps: &mut Steps<L>,
) -> Result<String, Memory>
    requires { matches.old.cea.size ≡ size }
{
    let mut text = String::new(alloc);
    for leaf in leaves {
        take_one(alloc, size, matches, *leaf, &mut text, steps)?;
    }
    Ok(text)
}

/// The lists after each event of a pattern of so many leaves, with this low clock.
fn lists_after_each<L: Ledger>(
    alloc: Global,
    size: usize,
    step: usize,
    leaves: &[usize],
    low: i128,
    opening: Opening,
) -> Result<String, Memory>
    requires name { opening.name ≡ L.name }
    requires parts { opening.parts ≡ L.parts }
{
    let mut steps = Steps::<L>::start(opening);
    let cea = pattern(alloc, size, step)?;
    let mut matches = OpenMatches::new(alloc, cea, LowTime::of(low));
    lists_of(alloc, size, &mut matches, leaves, &mut steps)
}

/// Patterns by how many leaves they have and by the step from one to the next, the low clock, the leaf
/// that reads each event, and the lists after each.
const PATTERNS: &[(usize, usize, i128, &[usize], &str)] = &[
    // A ; B over A B A B A
    (
        2,
        1,
        0,
        &[0, 1, 0, 1, 0],
        "1 [0]: 0 [0]; / 2 [0]: 0 [1, 0]; 1 [0]: 0 [0]; / 1 [2, 0]: 2 [2]; 0 [0]; / 2 [2]: 2 [3, 2]; 0 [3, 0]; 1 [2, 0]: 2 [2]; 0 [0]; / 1 [4, 2]: 4 [4]; 2 [2]; 0 [0]; / ",
    ),
    // A+ over A A X A A
    (
        1,
        0,
        0,
        &[0, 0, 9, 0, 0],
        "1 [0]: 0 [0]; / 1 [1, 0]: 1 [1]; 0 [1, 0]; 2 [0]: 0 [0]; / 2 [1, 0]: 1 [1]; 0 [1, 0]; 0 [0]; / 1 [3, 1]: 3 [3]; 1 [3, 1]; 0 [3, 1, 0]; 0 [3, 0]; 2 [1, 0]: 1 [1]; 0 [1, 0]; 0 [0]; / 1 [4, 3, 1]: 4 [4]; 3 [4, 3]; 1 [4, 3, 1]; 0 [4, 3, 1, 0]; 0 [4, 3, 0]; 1 [4, 1]; 0 [4, 1, 0]; 0 [4, 0]; 2 [3, 1]: 3 [3]; 1 [3, 1]; 0 [3, 1, 0]; 0 [3, 0]; 1 [1]; 0 [1, 0]; 0 [0]; / ",
    ),
    // A ; B ; C over A B A B C
    (
        3,
        1,
        0,
        &[0, 1, 0, 1, 2],
        "1 [0]: 0 [0]; / 2 [0]: 0 [1, 0]; 1 [0]: 0 [0]; / 1 [2, 0]: 2 [2]; 0 [0]; 2 [0]: 0 [1, 0]; / 2 [2, 0]: 2 [3, 2]; 0 [3, 0]; 0 [1, 0]; 1 [2, 0]: 2 [2]; 0 [0]; / 3 [2]: 2 [4, 3, 2]; 0 [4, 3, 0]; 0 [4, 1, 0]; 2 [2, 0]: 2 [3, 2]; 0 [3, 0]; 0 [1, 0]; 1 [2, 0]: 2 [2]; 0 [0]; / ",
    ),
    // A ; B over A B A A, where the low clock is past all starts: each event that changes a list leaves
    // out those that there were, so that none is left but the one that the last event starts
    (
        2,
        1,
        1,
        &[0, 1, 0, 0],
        "1 [0]: 0 [0]; / / 1 [2]: 2 [2]; / 1 [3]: 3 [3]; / ",
    ),
];

/// Each state's number, where its list's entries start, and its members, each by its start and its
/// positions. An event of leaf 9 is one that no leaf reads. A match that waits for any later event stays
/// in its state as events pass.
#[test]
fn lists_after_each_event_are_those_worked_out_by_hand(rt: HostRuntime) -> Result<(), Memory> {
    for &(size, step, low, leaves, expected) in PATTERNS {
        let lists = lists_after_each::<Brand>(
            rt.alloc(),
            size,
            step,
            leaves,
            low,
            Opening::new(&rt),
        )?;
        assert_eq!(rt; lists.as_str(), expected, "{leaves:?} from {low}");
    }
    Ok(())
}
