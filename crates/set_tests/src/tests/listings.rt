//! Sets written down by hand, made node by node and listed again.

use crate::listings::{join_of_two_is_listed, listing};
use crate::part::BuildStep;
use cer_base::Memory;
use cer_base::steps::Opening;
use std::marker::Brand;
use std::test::*;

#[test]
fn a_join_gives_the_later_start_first_and_the_window_cuts_the_earlier(rt: HostRuntime) {
    let listed = join_of_two_is_listed::<Brand, Brand, Brand, Brand>(
        rt.alloc(),
        Opening::new(&rt),
        Opening::new(&rt),
        Opening::new(&rt),
        Opening::new(&rt),
    );
    assert_eq!(rt; listed, Ok(true));
}

/// The places of some of the parts below, a low clock, and what a cursor on them gives.
const LISTINGS: &[(&[usize], i128, &str)] = &[
    (&[8], 0, "2 [3]; 2 [4]; "),
    (&[9], 0, "2 [4, 2]; 2 [2]; 1 [2]; "),
    (&[10], 0, "2 [3]; 2 [2]; 1 [2]; "),
    (&[11], 0, "2 [3]; 2 [2]; 2 [4]; 1 [2]; "),
    (&[12], 0, "2 [2]; 2 [3]; 2 [4]; 1 [2]; "),
    (&[11], 11, "2 [3]; 2 [2]; 2 [4]; "),
    (
        &[13, 14],
        10,
        "2 [5, 4, 2]; 2 [5, 2]; 1 [5, 2]; 2 [6, 3]; 2 [6, 2]; 1 [6, 2]; ",
    ),
    (&[13, 14], 20, "2 [5, 4, 2]; 2 [5, 2]; 2 [6, 3]; 2 [6, 2]; "),
    (&[13, 14], 21, ""),
];

#[test]
fn each_union_lists_its_members_and_shares_a_node(rt: HostRuntime) -> Result<(), Memory> {
    let parts = [
        BuildStep::Start(1, 10),
        BuildStep::Start(2, 20),
        BuildStep::Extend(0, 2),
        BuildStep::Extend(1, 2),
        BuildStep::Extend(1, 3),
        BuildStep::Extend(1, 4),
        BuildStep::Extend(3, 4),
        // 7: late 2, then early 2
        BuildStep::Join(3, 2),
        // 8 to 12: neither is a union, the second is, the first is, both are, and the other way round
        BuildStep::Unite(4, 5),
        BuildStep::Unite(6, 7),
        BuildStep::Unite(7, 4),
        BuildStep::Unite(8, 7),
        BuildStep::Unite(7, 8),
        // 13 and 14: two unions that share 7
        BuildStep::Extend(9, 5),
        BuildStep::Extend(10, 6),
    ];
    for &(places, low, expected) in LISTINGS {
        let listed = listing::<Brand>(rt.alloc(), &parts, places, low, Opening::new(&rt))?;
        assert_eq!(rt; listed.as_str(), expected, "at {places:?} from {low}");
    }
    Ok(())
}
