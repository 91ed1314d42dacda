use cursor::count::CountLeaf;
use cursor::shortfall::making::lacking;
use cursor::{Cursor, Homing, TwoEnded};
use skip::Skip;
use take::Take;

const MAX: u64 = u64::MAX;

/// 1, 2, 3, 4, 5
fn five() -> CountLeaf {
    CountLeaf::new(1, 6)
}

#[test]
fn take_three(rt: HostRuntime) {
    assert_eq!(rt; Take::new(five(), 3).next_back(), Some(3));
    assert_eq!(rt; Take::new(five(), 3).nth_back(2), Some(1));
    assert_eq!(rt; Take::new(five(), 3).nth(3), None);
    let mut take = Take::new(five(), 3);
    assert_eq!(rt; (take.nth_back(3), take.len()), (None, 0));
}

/// More than there is, and nothing at all.
#[test]
fn take_edges(rt: HostRuntime) {
    let mut all = Take::new(five(), MAX);
    assert_eq!(rt; (all.len(), all.nth_back(4), all.len()), (5, Some(1), 0));
    let mut none = Take::new(five(), 0);
    assert_eq!(rt;
        (none.next(), none.next_back(), none.tally()),
        (None, None, 0)
    );
    let mut short = Take::new(five(), 9);
    assert_eq!(rt;
        (lacking(short.advance(7)), lacking(short.advance_back(2))),
        (2, 2)
    );
}

#[test]
fn take_home(rt: HostRuntime) {
    let mut take = Take::new(five(), 4);
    assert_eq!(rt; take.next(), Some(1));
    take.mark();
    assert_eq!(rt; (take.next_back(), take.nth(1)), (Some(4), Some(3)));
    take.restart();
    assert_eq!(rt;
        (take.len(), take.next(), take.next_back()),
        (3, Some(2), Some(4))
    );
}

#[test]
fn skip_two(rt: HostRuntime) {
    assert_eq!(rt; Skip::new(five(), 2).nth_back(2), Some(3));
    assert_eq!(rt; lacking(Skip::new(five(), 2).advance_back(4)), 1);
    assert_eq!(rt; Skip::new(five(), 2).nth_back(3), None);
    let mut skip = Skip::new(five(), 2);
    assert_eq!(rt;
        (skip.next(), skip.nth(1), skip.len()),
        (Some(3), Some(5), 0)
    );
}

/// The sum of what is skipped and n passes the largest count.
#[test]
fn skip_edges(rt: HostRuntime) {
    assert_eq!(rt; Skip::new(five(), MAX).nth(MAX), None);
    assert_eq!(rt; lacking(Skip::new(five(), MAX).advance(MAX)), MAX);
    let mut long = Skip::new(CountLeaf::new(0, MAX), 3);
    assert_eq!(rt; lacking(long.advance(MAX)), 3);
    assert_eq!(rt;
        Skip::new(CountLeaf::new(0, MAX), MAX - 1).nth(0),
        Some(MAX - 1)
    );
    let mut gone = Skip::new(five(), 7);
    assert_eq!(rt;
        (gone.len(), gone.next_back(), gone.next()),
        (0, None, None)
    );
}

#[test]
fn skip_home(rt: HostRuntime) {
    let mut skip = Skip::new(five(), 1);
    assert_eq!(rt; skip.nth_back(0), Some(5));
    skip.mark();
    assert_eq!(rt; (skip.next(), skip.weight()), (Some(2), 2));
    skip.restart();
    assert_eq!(rt;
        (skip.len(), skip.next(), skip.next_back()),
        (3, Some(2), Some(4))
    );
}
