//! Compactions of nodes written down by hand.

use crate::compactions::{with_a_held_cursor, with_none_held};
use cer_base::Memory;
use cer_base::steps::Opening;
use std::marker::Brand;
use std::test::*;

/// A low clock, how many nodes are left while a cursor from clock 0 on is held, and the members that
/// the lists still give: a list of the low clock or later shares the cursor's nodes, an older one goes.
const HELD: &[(i128, u64, &str)] = &[(1, 7, "1: 1 [2, 1]; 0 [2, 1, 0]; "), (2, 7, "")];

#[test]
fn a_held_cursor_keeps_its_answers_and_what_they_need(rt: HostRuntime) -> Result<(), Memory> {
    for &(low, nodes, lists) in HELD {
        let outcome = with_a_held_cursor::<Brand>(rt.alloc(), low, Opening::new(&rt))?;
        assert_eq!(rt; outcome.nodes, nodes, "from {low}");
        assert_eq!(rt; outcome.lists.as_str(), lists, "from {low}");
        assert_eq!(rt;
            outcome.cursor.as_str(),
            "1 [2, 1]; 0 [2, 1, 0]; ",
            "from {low}"
        );
    }
    Ok(())
}

/// A low clock, how many nodes are left, and the members that the lists still give.
const LEFT: &[(i128, u64, &str)] = &[
    (0, 7, "1: 1 [2, 1]; 0 [2, 1, 0]; "),
    (1, 3, "1: 1 [2, 1]; "),
    (2, 0, ""),
];

#[test]
fn nodes_that_no_window_reaches_are_gone(rt: HostRuntime) -> Result<(), Memory> {
    for &(low, nodes, lists) in LEFT {
        let outcome = with_none_held::<Brand>(rt.alloc(), low, Opening::new(&rt))?;
        assert_eq!(rt; outcome.nodes, nodes, "from {low}");
        assert_eq!(rt; outcome.lists.as_str(), lists, "from {low}");
    }
    Ok(())
}
