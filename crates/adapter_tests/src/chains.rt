use chain::Chain;
use cursor::count::CountLeaf;
use cursor::shortfall::making::lacking;
use cursor::slice::SliceLeaf;
use cursor::{Cursor, Homing, TwoEnded};

const MAX: u64 = u64::MAX;

/// 1, 2 and 3
fn three() -> Chain<CountLeaf, CountLeaf> {
    Chain::new(CountLeaf::new(1, 3), CountLeaf::new(3, 4))
}

#[test]
fn two_parts(rt: HostRuntime) {
    assert_eq!(rt; three().nth(2), Some(3));
    assert_eq!(rt; lacking(three().advance(5)), 2);
    assert_eq!(rt; three().nth_back(2), Some(1));
    assert_eq!(rt; lacking(three().advance_back(4)), 1);
    let mut chain = three();
    assert_eq!(rt;
        (chain.next(), chain.next(), chain.next(), chain.next()),
        (Some(1), Some(2), Some(3), None)
    );
}

#[test]
fn from_the_back(rt: HostRuntime) {
    let mut chain = three();
    assert_eq!(rt;
        (chain.next_back(), chain.next_back(), chain.len()),
        (Some(3), Some(2), 1)
    );
    assert_eq!(rt; (chain.next_back(), chain.next_back()), (Some(1), None));
    assert_eq!(rt; (chain.weight(), chain.len()), (2, 0));
}

/// At most 2^64 - 1 items, and what was cut off does not come back.
#[test]
fn cut(rt: HostRuntime) {
    let seven = [7u64];
    let mut whole = Chain::new(CountLeaf::new(1, MAX), SliceLeaf::new(&seven));
    assert_eq!(rt; (whole.len(), whole.next_back()), (MAX, Some(7)));
    let mut cut = Chain::new(CountLeaf::new(0, MAX), SliceLeaf::new(&seven));
    assert_eq!(rt;
        (cut.next(), cut.len(), cut.next_back()),
        (Some(0), MAX - 1, Some(MAX - 1))
    );
    assert_eq!(rt;
        (cut.nth(MAX - 4), cut.next(), cut.next()),
        (Some(MAX - 3), Some(MAX - 2), None)
    );
}

/// A mark in the middle of the first part, and back to it from the second.
#[test]
fn home(rt: HostRuntime) {
    let mut chain = three();
    assert_eq!(rt; chain.next(), Some(1));
    chain.mark();
    assert_eq!(rt; (chain.nth(1), chain.len()), (Some(3), 0));
    chain.restart();
    assert_eq!(rt;
        (chain.len(), chain.next(), chain.next_back()),
        (2, Some(2), Some(3))
    );
}

#[test]
fn empty_parts(rt: HostRuntime) {
    let mut left = Chain::new(CountLeaf::new(0, 0), CountLeaf::new(5, 7));
    assert_eq!(rt;
        (left.next(), left.next_back(), left.next()),
        (Some(5), Some(6), None)
    );
    let mut right = Chain::new(CountLeaf::new(5, 7), CountLeaf::new(0, 0));
    assert_eq!(rt;
        (right.next_back(), right.nth(1), right.len()),
        (Some(6), None, 0)
    );
}
