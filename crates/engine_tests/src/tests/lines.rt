//! The lines of answers and of names, and the order of answers.

use answer_text::answer::order;
use answer_text::{line, none, push_binding, push_line};
use cer_base::Pos;
use std::cmp::Ordering;
use std::process::Abort;
use std::test::Fail;

/// Holds the bytes against what is wanted.
fn same_bytes(rt: &impl Abort, shown: &[u8], wanted: &[u8]) {
    assert_eq!(rt; shown, wanted);
}

/// A query, the start and the end of an answer, its positions, and its line. The last rows have eight
/// positions, the most that are few, the greatest numbers that there are, and nine positions.
const LINES: &[(u64, Pos, Pos, &[Pos], &str)] = &[
    (1, 0, 5, &[0, 3, 5], "1 [0,5] {0,3,5}\n"),
    (1, 0, 0, &[], "1 [0,0] {}\n"),
    (12, 7, 4096, &[4096], "12 [7,4096] {4096}\n"),
    (
        1024,
        10,
        17,
        &[10, 11, 12, 13, 14, 15, 16, 17],
        "1024 [10,17] {10,11,12,13,14,15,16,17}\n",
    ),
    (
        18_446_744_073_709_551_615,
        18_446_744_073_709_551_615,
        18_446_744_073_709_551_615,
        &[18_446_744_073_709_551_614, 18_446_744_073_709_551_615],
        "18446744073709551615 [18446744073709551615,18446744073709551615] {18446744073709551614,18446744073709551615}\n",
    ),
    (
        1,
        0,
        9,
        &[0, 1, 2, 3, 4, 5, 6, 7, 9],
        "1 [0,9] {0,1,2,3,4,5,6,7,9}\n",
    ),
];

#[test]
fn lines_are_laid_out(rt: HostRuntime) -> Result<(), Fail> {
    for &(query, start, end, positions, wanted) in LINES {
        let text = line(rt.alloc(), query, start, end, positions)?;
        same_bytes(&rt, text.as_slice(), wanted.as_bytes());
    }
    Ok(())
}

#[test]
fn a_line_goes_after_the_text(rt: HostRuntime) -> Result<(), Fail> {
    let mut text = Vec::new(rt.alloc());
    push_line(&mut text, 1, 0, 5, &[5, 3, 0])?;
    push_line(&mut text, 2, 5, 5, &[])?;
    same_bytes(&rt, text.as_slice(), b"1 [0,5] {0,3,5}\n2 [5,5] {}\n");
    Ok(())
}

#[test]
fn names_are_laid_out(rt: HostRuntime) -> Result<(), Fail> {
    let mut text = line(rt.alloc(), 1, 1, 3, &[3])?;
    push_binding(rt.alloc(), &mut text, "A", &[1, 2])?;
    push_binding(rt.alloc(), &mut text, "b", &[3])?;
    same_bytes(&rt, text.as_slice(), b"1 [1,3] {3}\nA {1,2}\nb {3}\n");
    let text = none(rt.alloc())?;
    same_bytes(&rt, text.as_slice(), b"none\n");
    Ok(())
}

/// Two answers, positions greatest first, and how the first compares to the second.
const ORDERS: &[(Pos, &[Pos], Pos, &[Pos], Ordering)] = &[
    (0, &[9], 1, &[1], Ordering::Less),
    (1, &[1], 0, &[9], Ordering::Greater),
    (0, &[2, 0], 0, &[2, 1, 0], Ordering::Greater),
    (0, &[2, 0], 0, &[3, 2, 0], Ordering::Less),
    (0, &[], 0, &[0], Ordering::Less),
    (0, &[2, 0], 0, &[2, 0], Ordering::Equal),
];

#[test]
fn answers_are_ordered(rt: HostRuntime) -> Result<(), Fail> {
    for &(start, falling, other_start, other_falling, wanted) in ORDERS {
        assert_eq!(rt; order(start, falling, other_start, other_falling), wanted);
    }
    Ok(())
}
