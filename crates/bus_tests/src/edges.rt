use crate::calls::Call::{Exchange, Put};
use crate::calls::make_all;
use bus::Bus;
use cursor::count::CountLeaf;

const MAX: u64 = u64::MAX;

/// Calls with the largest count, from both ends, on the longest row.
#[test]
fn largest_counts(rt: HostRuntime) {
    let mut bus = Bus::new(
        CountLeaf::new(0, MAX),
        CountLeaf::new(3, 3),
        CountLeaf::new(0, 2),
    );
    let calls = [
        Put(1, 5, 0, &[0x20, 1]),
        Exchange(&[0x24, 1, 255, 255, 255, 255, 255, 255, 255, 254], 1),
        Put(1, 6, MAX - 3, &[0x20, 1]),
        Exchange(&[0x26, 1, 0, 0, 0, 0, 0, 0, 0, 0], 1),
        Put(1, 2, 1, &[0x20, 1]),
        Exchange(&[0x24, 1, 0, 0, 0, 0, 0, 0, 0, 1], 1),
        Put(1, 2, MAX, &[0x20, 1]),
        Exchange(&[0x25, 1], 1),
        Put(1, 3, MAX, &[0x20, 1]),
        Exchange(&[0x26, 1, 255, 255, 255, 255, 255, 255, 255, 255], 1),
    ];
    make_all(&rt, &mut bus, &calls);
}

/// A row that is empty from the first, and one that is used up; a call that finds nothing is a touch too.
#[test]
fn nothing_left(rt: HostRuntime) {
    let mut bus = Bus::new(
        CountLeaf::new(0, 9),
        CountLeaf::new(3, 3),
        CountLeaf::new(0, 2),
    );
    let calls = [
        Put(2, 4, 0, &[0x20, 2]),
        Exchange(&[0x25, 2], 1),
        Put(2, 3, 0, &[0x20, 2]),
        Exchange(&[0x26, 2, 0, 0, 0, 0, 0, 0, 0, 0], 1),
        Put(3, 3, 3, &[0x20, 3]),
        Exchange(&[0x26, 3, 0, 0, 0, 0, 0, 0, 0, 1], 1),
        Put(3, 1, 0, &[0x20, 3]),
        Exchange(&[0x25, 3], 1),
    ];
    make_all(&rt, &mut bus, &calls);
}

/// Next and next_back ignore n; nth and nth_back at the last place and one behind it; an advance to the end and past it.
#[test]
fn each_call(rt: HostRuntime) {
    let mut bus = Bus::new(
        CountLeaf::new(0, 4),
        CountLeaf::new(0, 4),
        CountLeaf::new(0, 2),
    );
    let calls = [
        Put(1, 1, MAX, &[0x20, 1]),
        Exchange(&[0x24, 1, 0, 0, 0, 0, 0, 0, 0, 0], 1),
        Put(1, 4, MAX, &[0x20, 1]),
        Exchange(&[0x24, 1, 0, 0, 0, 0, 0, 0, 0, 3], 1),
        Put(1, 5, 1, &[0x20, 1]),
        Exchange(&[0x24, 1, 0, 0, 0, 0, 0, 0, 0, 1], 1),
        Put(1, 5, 0, &[0x20, 1]),
        Exchange(&[0x25, 1], 1),
        Put(2, 2, 3, &[0x20, 2]),
        Exchange(&[0x24, 2, 0, 0, 0, 0, 0, 0, 0, 3], 1),
        Put(2, 6, 2, &[0x20, 2]),
        Exchange(&[0x26, 2, 0, 0, 0, 0, 0, 0, 0, 2], 1),
        Put(3, 3, 2, &[0x20, 3]),
        Exchange(&[0x26, 3, 0, 0, 0, 0, 0, 0, 0, 0], 1),
    ];
    make_all(&rt, &mut bus, &calls);
}
