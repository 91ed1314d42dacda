use cursor::count::CountLeaf;
use cursor::shortfall::Shortfall;
use cursor::shortfall::making::lacking;
use cursor::stride::{Stride, StrideFault};
use cursor::{Cursor, Homing, TwoEnded};
use refusal::Refusal;
use std::test::Fail;

#[test]
fn never_zero(rt: HostRuntime) -> Result<(), Fail> {
    assert_eq!(rt; Shortfall::new(0), None);
    assert_eq!(rt; Stride::new(0), Err(StrideFault::Zero));
    assert_eq!(rt; StrideFault::Zero.number(), 1);
    assert_eq!(rt; Stride::new(u64::MAX)?.get(), u64::MAX);
    Ok(())
}

/// Nothing unless hi is above lo; a call that finds nothing is a touch too.
#[test]
fn empty(rt: HostRuntime) {
    let mut leaf = CountLeaf::new(5, 3);
    assert_eq!(rt; leaf.len(), 0);
    assert_eq!(rt; leaf.next(), None);
    assert_eq!(rt; leaf.nth_back(0), None);
    assert_eq!(rt; lacking(leaf.advance(0)), 0);
    assert_eq!(rt; lacking(leaf.advance(u64::MAX)), u64::MAX);
    assert_eq!(rt; lacking(leaf.advance_back(1)), 1);
    assert_eq!(rt; (leaf.tally(), leaf.weight()), (5, 1));
}

#[test]
fn one_item(rt: HostRuntime) {
    let mut leaf = CountLeaf::new(7, 8);
    assert_eq!(rt; leaf.nth(1), None);
    assert_eq!(rt; leaf.len(), 0);
    leaf.restart();
    assert_eq!(rt; leaf.nth(0), Some(7));
    assert_eq!(rt; leaf.next_back(), None);
}

/// Places 0, len - 1 and len from either end.
#[test]
fn edges(rt: HostRuntime) {
    assert_eq!(rt; CountLeaf::new(1, 6).nth(0), Some(1));
    assert_eq!(rt; CountLeaf::new(1, 6).nth(4), Some(5));
    assert_eq!(rt; CountLeaf::new(1, 6).nth(5), None);
    assert_eq!(rt; CountLeaf::new(1, 6).nth_back(0), Some(5));
    assert_eq!(rt; CountLeaf::new(1, 6).nth_back(4), Some(1));
    assert_eq!(rt; CountLeaf::new(1, 6).nth_back(5), None);
    assert_eq!(rt; lacking(CountLeaf::new(1, 6).advance(5)), 0);
    assert_eq!(rt; lacking(CountLeaf::new(1, 6).advance(7)), 2);
    assert_eq!(rt; lacking(CountLeaf::new(1, 6).advance_back(6)), 1);
}

/// 0 to 2^64 - 1, from both ends.
#[test]
fn longest(rt: HostRuntime) {
    let mut leaf = CountLeaf::new(0, u64::MAX);
    assert_eq!(rt; leaf.len(), u64::MAX);
    assert_eq!(rt; leaf.next_back(), Some(u64::MAX - 1));
    assert_eq!(rt; leaf.next(), Some(0));
    assert_eq!(rt; leaf.nth(u64::MAX - 4), Some(u64::MAX - 3));
    assert_eq!(rt; leaf.len(), 1);
    assert_eq!(rt; lacking(leaf.advance_back(u64::MAX)), u64::MAX - 1);
    leaf.restart();
    assert_eq!(rt; leaf.nth(u64::MAX), None);
    assert_eq!(rt; leaf.len(), 0);
}

/// A mark in the middle, and back to it.
#[test]
fn home(rt: HostRuntime) {
    let mut leaf = CountLeaf::new(0, 5);
    assert_eq!(rt; leaf.next(), Some(0));
    leaf.mark();
    assert_eq!(rt; leaf.nth(1), Some(2));
    leaf.restart();
    assert_eq!(rt; (leaf.len(), leaf.tally()), (4, 4));
    assert_eq!(rt; (leaf.next(), leaf.next_back()), (Some(1), Some(4)));
}
