use chain::Chain;
use cursor::shortfall::making::lacking;
use cursor::slice::SliceLeaf;
use cursor::{Cursor, Homing, TwoEnded};
use skip::Skip;
use take::Take;

/// Three deep, as a valve pile, over items that are no numbers: b, c, d of a, b and c, d, e.
#[test]
fn three_deep(rt: HostRuntime) {
    let ab = ['a', 'b'];
    let cde = ['c', 'd', 'e'];
    let mut pile = Take::new(
        Skip::new(Chain::new(SliceLeaf::new(&ab), SliceLeaf::new(&cde)), 1),
        3,
    );
    assert_eq!(rt; (pile.len(), pile.weight()), (3, 4));
    assert_eq!(rt;
        (pile.next_back(), pile.next(), pile.next(), pile.next()),
        (Some('d'), Some('b'), Some('c'), None)
    );
    pile.restart();
    assert_eq!(rt; (pile.nth(2), lacking(pile.advance(2))), (Some('d'), 2));
    assert!(rt; pile.tally() <= 5 * pile.weight());
}

/// A part of a part, and a chain of chains.
#[test]
fn alike(rt: HostRuntime) {
    let items = [1u8, 2, 3, 4, 5, 6];
    let mut skips = Skip::new(Skip::new(SliceLeaf::new(&items), 2), 1);
    assert_eq!(rt;
        (skips.next(), skips.next_back(), skips.len()),
        (Some(4), Some(6), 1)
    );
    let mut takes = Take::new(Take::new(SliceLeaf::new(&items), 4), 2);
    assert_eq!(rt; (takes.next_back(), takes.len()), (Some(2), 1));
    let mut chains = Chain::new(
        Chain::new(SliceLeaf::new(&items), SliceLeaf::new(&items)),
        SliceLeaf::new(&items),
    );
    assert_eq!(rt;
        (chains.len(), chains.nth(12), chains.nth_back(4)),
        (18, Some(1), Some(2))
    );
}
