use cursor::slice::SliceLeaf;
use cursor::{Cursor, Homing, TwoEnded};

#[test]
fn empty(rt: HostRuntime) {
    let none: [u8; 0] = [];
    let mut leaf = SliceLeaf::new(&none);
    assert_eq!(rt; leaf.len(), 0);
    assert_eq!(rt; (leaf.next(), leaf.next_back()), (None, None));
    assert!(rt; leaf.advance(0).is_ok());
    assert!(rt; leaf.advance_back(1).is_err());
    assert_eq!(rt; (leaf.tally(), leaf.weight()), (4, 1));
}

#[test]
fn edges(rt: HostRuntime) {
    let five = [1u8, 2, 3, 4, 5];
    assert_eq!(rt; SliceLeaf::new(&five).nth(0), Some(1));
    assert_eq!(rt; SliceLeaf::new(&five).nth(4), Some(5));
    assert_eq!(rt; SliceLeaf::new(&five).nth(5), None);
    assert_eq!(rt; SliceLeaf::new(&five).nth(u64::MAX), None);
    assert_eq!(rt; SliceLeaf::new(&five).nth_back(0), Some(5));
    assert_eq!(rt; SliceLeaf::new(&five).nth_back(4), Some(1));
    assert_eq!(rt; SliceLeaf::new(&five).nth_back(u64::MAX), None);
}

/// A part of a slice, also one that goes past its end; items that are no numbers.
#[test]
fn parts(rt: HostRuntime) {
    let pairs = [('a', true), ('b', false), ('c', true)];
    let mut leaf = SliceLeaf::part(&pairs, 1, 9);
    assert_eq!(rt; leaf.len(), 2);
    assert_eq!(rt; leaf.next_back(), Some(('c', true)));
    assert_eq!(rt; leaf.next(), Some(('b', false)));
    assert_eq!(rt; leaf.next(), None);
    leaf.restart();
    assert_eq!(rt; leaf.len(), 2);
    assert_eq!(rt; SliceLeaf::part(&pairs, 3, 2).next(), None);
}

#[test]
fn home(rt: HostRuntime) {
    let five = [1u8, 2, 3, 4, 5];
    let mut leaf = SliceLeaf::new(&five);
    assert!(rt; leaf.advance(1).is_ok());
    assert!(rt; leaf.advance_back(1).is_ok());
    leaf.mark();
    assert_eq!(rt; leaf.nth(2), Some(4));
    assert_eq!(rt; leaf.len(), 0);
    leaf.restart();
    assert_eq!(rt; (leaf.len(), leaf.tally()), (3, 5));
    assert_eq!(rt; leaf.nth_back(2), Some(2));
}
