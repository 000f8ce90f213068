use crate::Memory;
use crate::bits::Bits;
use std::alloc::Global;
use std::test::*;

/// Two sets, one of the last number and one of the other, and what the calls tell of them.
fn told(alloc: Global, size: usize, last: usize, other: usize) -> Result<[bool; 13], Memory> {
    let mut set = Bits::blank(alloc, size)?;
    let mut more = Bits::blank(alloc, size)?;
    let empty = set.is_empty();
    if !set.has_room_for(last) || !more.has_room_for(other) {
        return Ok([false; 13]);
    }
    set.insert(last);
    more.insert(other);
    let copy = set.copy(alloc)?;
    let alike = set == copy && set != more;
    let alone = set.contains(last) && !set.contains(other) && !set.is_empty();
    let found = set.next_from(0) == Some(last) && set.next_from(last) == Some(last);
    let ended = last < usize::MAX && set.next_from(last + 1).is_none();
    let apart = !set.meets(&more);
    more.unite(&set);
    let united = set.meets(&more) && more.contains(last) && more.contains(other);
    let least = more.next_from(0) == Some(other);
    more.subtract(&set);
    let taken = more.contains(other) && !more.contains(last);
    more.intersect(&set);
    let none = more.is_empty();
    set.insert(other);
    set.remove(last);
    let left = set.contains(other) && !set.contains(last);
    set.clear();
    let cleared = set == more;
    Ok([
        empty, alike, alone, found, ended, apart, united, least, taken, none, left, cleared, true,
    ])
}

/// For each size a member in its last word, and a smaller number.
#[test]
fn sets_of_64_65_and_130_numbers_are_told_by_their_members(rt: HostRuntime) -> Result<(), Memory> {
    for (size, last, other) in [(64, 63, 0), (65, 64, 63), (130, 129, 64)] {
        assert_eq!(rt; told(rt.alloc(), size, last, other)?, [true; 13]);
    }
    Ok(())
}
